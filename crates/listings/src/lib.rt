// What a listing is, by the share book, as definitions in specs/; and two theorems about them, each on a function.
#![tactic(auto)]

ghost use Rattle.listings.specs.Theorems.{ListingUnique, WithinMeant};

// There is only one listing of given shares.
pub fn listing_is_one()
    ensures { ListingUnique }
{}

// The records near the shares are the codewords of the decoder's theory within the radius.
pub fn records_are_meant()
    ensures { WithinMeant }
{}
