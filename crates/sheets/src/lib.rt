#![tactic(auto)]

ghost use Rattle.std.specs.Prelude.{◌*◌, ◌≤◌, length};

mod naming;
mod reading;

use codes::Setting;
pub use reading::EMPTY;

// The delivered fields, each of which a sheet can name.
#[derive(Clone, Copy, PartialEq, Eq, Debug)]
pub enum FieldName {
    Mod7,
    Gf16,
    Gf256,
    Mod929,
}

// A sheet that is read from the caller's bytes, where its entries stay: six bytes for each of 255 places at most.
#[derive(Clone, Copy)]
pub struct Reader<'a> {
    field: u8,
    threshold: u8,
    setting: Setting,
    entries: &'a [u8],
    ghost short: { length entries.now ≤ 6 * 255 },
}
