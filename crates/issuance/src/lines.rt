ghost use Rattle.std.specs.Prelude.{◌≡◌, ◌<◌, Some};
ghost use Rattle.issuance.specs.Lines.{fault_line, code_line, place_line};
ghost use Rattle.issuance.specs.Issuance.{share_at};

use crate::{IssueFault, Issued, Share};
use std::fmt;
use std::fmt::Display;

impl fmt::Display for IssueFault {
    ghost output = { λ e. Some (fault_line e) };

    fn fmt<W: fmt::Write>(&self, f: &mut fmt::Formatter<W>) -> fmt::Result {
        match *self {
            IssueFault::Sheet(e) => e.fmt(f),
            IssueFault::Listing(e) => e.refusal().fmt(f),
        }
    }
}

// The line of the code.
impl fmt::Display for Issued {
    ghost output = { λ i. Some (code_line i) };

    fn fmt<W: fmt::Write>(&self, f: &mut fmt::Formatter<W>) -> fmt::Result {
        let field = self.field;
        let count = self.count();
        let threshold = self.code.threshold();
        write!(f, "code field {field} places {count} threshold {threshold}")
    }
}

// The line of a place.
impl fmt::Display for Share {
    ghost output = { λ s. Some (place_line s) };

    fn fmt<W: fmt::Write>(&self, f: &mut fmt::Formatter<W>) -> fmt::Result {
        let (place, point) = (self.place, self.point);
        let (multiplier, share) = (self.multiplier, self.share);
        write!(
            f,
            "place {place} point {point} multiplier {multiplier} share {share}"
        )
    }
}

impl Issued {
    // The number of places.
    pub fn count(&self) -> usize
        ensures { result ≡ self.now.code.count }
    {
        self.code.count()
    }

    // What a place is given.
    pub fn share(&self, place: usize) -> Share
        requires { place < self.now.code.count }
        ensures { result ≡ share_at self.now place }
    {
        Share {
            place,
            point: self.code.points()[place],
            multiplier: self.code.multipliers()[place],
            share: self.word[place],
        }
    }
}
