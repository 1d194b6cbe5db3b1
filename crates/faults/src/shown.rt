ghost use Rattle.std.specs.Prelude.{◌≡◌, Some};
ghost use Rattle.faults.specs.Lines.{layer_name, refusal_line, sheet_line};

use crate::{Layer, Refusal, SheetFault};
use std::fmt;

// By hand: of a derive's text no contract can say which bytes it is.
impl fmt::Display for Layer {
    ghost output = { λ l. Some (layer_name l) };

    fn fmt<W: fmt::Write>(&self, f: &mut fmt::Formatter<W>) -> fmt::Result {
        match *self {
            Layer::Code => f.write_str("code"),
            Layer::Collection => f.write_str("collection"),
            Layer::Listing => f.write_str("listing"),
            Layer::Sheet => f.write_str("sheet"),
        }
    }
}

impl fmt::Display for Refusal {
    ghost output = { λ r. Some (refusal_line r) };

    fn fmt<W: fmt::Write>(&self, f: &mut fmt::Formatter<W>) -> fmt::Result {
        let number = self.number;
        let place = self.place;
        let layer = self.layer;
        write!(f, "refused {number} place {place} layer {layer}")
    }
}

impl fmt::Display for SheetFault {
    ghost output = { λ e. Some (sheet_line e) };

    fn fmt<W: fmt::Write>(&self, f: &mut fmt::Formatter<W>) -> fmt::Result {
        let refusal = self.refusal();
        let byte = self.byte();
        write!(f, "{refusal} byte {byte}")
    }
}
