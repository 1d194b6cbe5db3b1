// Worked cases of the definitions, proved by computing.
#![tactic(auto)]

ghost use Rattle.examples.specs.Worked.{WorkedCases};

// All worked cases hold.
pub fn worked_cases_stand()
    ensures { WorkedCases }
{}
