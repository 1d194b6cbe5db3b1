ghost use Rattle.std.specs.Prelude.{◌≡◌, take, Some};
ghost use Rattle.console.specs.Lines.{spaced, line_of, listed_text, report_text};

use crate::{Listed, Report};
use runs::CallFault;
use std::fmt;
use std::fmt::Display;

// Numbers, each after a space.
#[derive(Clone, Copy)]
struct Numbers<'a>(&'a [u16]);

// The line of a candidate.
#[derive(Clone, Copy)]
struct Line<'a> {
    distance: u8,
    message: Numbers<'a>,
    word: Numbers<'a>,
}

// The first n numbers, or all if there are fewer.
fn front(xs: &[u16], n: usize) -> &[u16]
    ensures { result.now ≡ take n xs.now }
{
    &xs[..n.min(xs.len())]
}

impl fmt::Display for Numbers<'_> {
    ghost output = { λ x. Some (spaced x.0.now) };

    fn fmt<W: fmt::Write>(&self, f: &mut fmt::Formatter<W>) -> fmt::Result {
        for value in self.0 {
            write!(f, " {value}")?;
        }
        Ok(())
    }
}

impl fmt::Display for Line<'_> {
    ghost output = { λ x. Some (line_of x.distance x.message.0.now x.word.0.now) };

    fn fmt<W: fmt::Write>(&self, f: &mut fmt::Formatter<W>) -> fmt::Result {
        let distance = self.distance;
        let message = self.message;
        let word = self.word;
        write!(f, "distance {distance} message{message} word{word}")
    }
}

// The count of the candidates, and a line for each.
impl fmt::Display for Listed {
    ghost output = { λ x. Some (listed_text x) };

    fn fmt<W: fmt::Write>(&self, f: &mut fmt::Formatter<W>) -> fmt::Result {
        let candidates = self.found.candidates();
        let count = candidates.len();
        writeln!(f, "candidates {count}")?;
        for candidate in candidates {
            let line = Line {
                distance: candidate.distance,
                message: Numbers(front(&candidate.message, self.threshold)),
                word: Numbers(front(&candidate.word, self.places)),
            };
            writeln!(f, "{line}")?;
        }
        Ok(())
    }
}

impl fmt::Display for Report {
    ghost output = { λ x. Some (report_text x.0) };

    fn fmt<W: fmt::Write>(&self, f: &mut fmt::Formatter<W>) -> fmt::Result {
        match self.0 {
            Ok(listed) => listed.fmt(f),
            Err(CallFault::Sheet(fault)) => writeln!(f, "{fault}"),
            Err(fault) => {
                let refusal = fault.refusal();
                writeln!(f, "{refusal}")
            }
        }
    }
}
