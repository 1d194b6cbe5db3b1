#![tactic(auto)]

ghost use Rattle.stages.specs.Readings.{SyndromeReads, RowsStop, BasisReads, DegreesRead, DistanceReads};

// The stages of a listing as definitions that compute, in specs/, and what they mean in the decoder's theory: one function for each theorem.

pub fn syndrome_reads()
    ensures { SyndromeReads }
{}

pub fn rows_stop()
    ensures { RowsStop }
{}

pub fn basis_reads()
    ensures { BasisReads }
{}

pub fn degrees_read()
    ensures { DegreesRead }
{}

pub fn distance_reads()
    ensures { DistanceReads }
{}
