// The depth-first walk over the digits of the power series at which a form in two variables vanishes.
#![tactic(auto)]

ghost use Rattle.std.specs.Prelude.{◌≡◌, ◌-◌, ◌*◌, ◌<◌, ◌≤◌};

mod digit;
mod shifting;
mod walking;

pub use walking::{Leaf, walk};

// Runs of `width` numbers, one for each power of y from 0 to `degree`. Run b has at most `size` - b `depth` coefficients.
// The slice of the runs is not a field, since the passes over it go on with a part of it, which each shape is told of.
#[derive(Clone, Copy)]
pub struct Shape {
    pub width: usize,
    pub degree: usize,
    pub size: usize,
    pub depth: usize,
}

impl Shape {
    // The shape of all runs but the first.
    fn rest(self) -> Shape
        requires some { 0 < self.degree }
        requires deep { self.depth ≤ self.size }
        ensures { result ≡ record { width = self.width; degree = self.degree - 1; size = self.size - self.depth; depth = self.depth } }
    {
        Shape {
            degree: self.degree - 1,
            size: self.size - self.depth,
            ..self
        }
    }
}
