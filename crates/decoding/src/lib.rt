// Generalised Reed-Solomon codes and their list decoding: definitions in specs/, proofs in proofs/. The functions have no work to do: the
// contract of each is a theorem of specs/Theorems, so that a check asks for its proof.
#![tactic(auto)]

ghost use Rattle.algebra.specs.Field.{Field};
ghost use Rattle.decoding.specs.Theorems.{MinimumDistance, KeyEquation, InterpolantExists, Complete, CompleteList, SiftedListing, WalksFindRoots, AtMost};

// Any field. A statement about all fields at once is too large to stand in a contract (it quantifies over types), so the functions are
// generic in a type that has a field: what is proved for every such type is proved for every field.
pub trait OverField {
    ghost field: { Field };
}

// Codewords that differ in fewer than n - k + 1 places are the same.
pub fn minimum_distance_stands<F: OverField>()
    ensures { MinimumDistance F.OverField.field }
{}

// The syndrome of a word gives the key equation of its errors against every codeword.
pub fn key_equation_stands<F: OverField>()
    ensures { KeyEquation F.OverField.field }
{}

// Under an accepted setting Euclid's algorithm stops, and there is an interpolant.
pub fn interpolant_exists_stands<F: OverField>()
    ensures { InterpolantExists F.OverField.field }
{}

// For every code, accepted setting and word, and whatever interpolant is found, the words that are sifted from its rational roots are exactly
// the codewords at distance at most τ.
pub fn complete_stands<F: OverField>()
    ensures { Complete F.OverField.field }
{}

// The same for a list of pairs that has the right ones.
pub fn complete_list_stands<F: OverField>()
    ensures { CompleteList F.OverField.field }
{}

// What is sifted from the right pairs, each word kept once, is the list of all codewords at distance at most τ, and has ℓ entries at most.
pub fn sifted_listing_stands<F: OverField>()
    ensures { SiftedListing F.OverField.field }
{}

// The walks over the digits of two charts find the rational roots.
pub fn walks_find_roots_stand<F: OverField>()
    ensures { WalksFindRoots F.OverField.field }
{}

// There are never more than ℓ codewords at distance at most τ.
pub fn at_most_stands<F: OverField>()
    ensures { AtMost F.OverField.field }
{}
