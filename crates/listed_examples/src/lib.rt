// Listings of worked cases, by the definition of a listing, proved by trying every message.
#![tactic(auto)]

ghost use Rattle.listed_examples.specs.Listed.{ListedCases};

// All these listings hold.
pub fn listed_cases_stand()
    ensures { ListedCases }
{}
