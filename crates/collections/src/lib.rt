#![tactic(auto)]

ghost use Rattle.std.specs.Prelude.{◌≡◌, ◌<◌, length, replicate, slice_index_or, slice_set};
ghost use Rattle.collections.specs.declared.Place.TheVariants.{Empty};

pub mod calls;
mod issuing;
mod keeping;
pub mod source;

pub use calls::Collection;
use codes::{Code, Setting};

// What one place has. An enum and no Option, since a collection is an array of places by name.
#[derive(Clone, Copy, PartialEq, Eq, Debug)]
pub enum Place {
    Empty,
    Filled(u16),
}

// The places of a collection; those from the code's count on are not used. A fixed array, since there is no heap.
#[derive(Drop)]
pub struct Places {
    at: [Place; 32],
    ghost full: { length at ≡ 32 },
}

impl Places {
    // All places empty.
    fn new() -> Self
        ensures { result.at ≡ replicate 32 Empty }
    {
        Places {
            at: [Place::Empty; 32],
        }
    }

    // Writes what place i has.
    fn put(&mut self, i: usize, x: Place)
        requires { i < 32 }
        ensures { self.new.at ≡ slice_set self.old.at i x }
    {
        self.at[i] = x;
    }

    // What place i has.
    fn get(&self, i: usize) -> Place
        requires { i < 32 }
        ensures { result ≡ slice_index_or self.now.at i Empty }
    {
        self.at[i]
    }
}

// What a collection was opened with, once it passed the checks.
#[derive(Clone, Copy)]
pub struct Opened {
    pub code: Code,
    pub setting: Setting,
}

// An open collection: what it was opened with, and what each place has.
#[derive(Drop)]
pub struct Page {
    opened: Opened,
    places: Places,
}

// What a collection keeps, over any field, so that its calls and their proofs stand once: nothing while it is blank.
#[derive(Drop)]
pub struct Kept {
    page: Option<Page>,
}
