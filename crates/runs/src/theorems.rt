ghost use Rattle.runs.specs.History.{ReadsTell, ListsComplete, ListsGiven};

// After any run on a blank collection a reading tells what the latest act at its place left.
pub fn reads_tell()
    ensures { ReadsTell }
{}

// After any run on a blank collection a list that is given has all candidates near the values entered and not withdrawn since, and no others.
pub fn lists_complete()
    ensures { ListsComplete }
{}

// After any run on a blank collection a list is given where each place has a value and the areas have room.
pub fn lists_given()
    ensures { ListsGiven }
{}
