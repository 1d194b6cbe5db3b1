ghost use Rattle.std.specs.Prelude.{◌≡◌, IfOk, OnOk};
ghost use Rattle.codes.specs.Opening.{fault_of};
ghost use Rattle.collections.specs.Book.{opening};
ghost use Rattle.collections.specs.Standing.{standing, Judged};
ghost use Rattle.sheets.specs.Sheet.{given_in};
ghost use Rattle.sheets.specs.Reading.{meant};
ghost use Rattle.transfer.specs.Loading.{enterings, acts_of, first_refused, all_written, Loaded};

use codes::Opening;
use collections::Collection;
use collections::source::Source;
use faults::{CollectionFault, SheetFault};
use fields::Field;
use sheets::Reader;

// Enters every share of the source in place order, up to the first that is refused.
fn enter_all<F: Field, S: Source>(c: &mut Collection<F>, source: &S) -> Result<(), CollectionFault>
    ensures fault { fault_of result ≡ first_refused F.Field.numbers.q (standing c.old.kept) (enterings 0 (S.Source.told source.now)) }
    ensures book { OnOk result (standing c.new.kept ≡ all_written (standing c.old.kept) (enterings 0 (S.Source.told source.now))) }
{
    // By place: a source tells each share by its place, and has no iterator.
    for i in 0..source.count() {
        if let Some(value) = source.place(i) {
            c.enter(i, value)?;
        }
    }
    Ok(())
}

// Opens a collection with the code and the setting of the sheet.
fn open_by<F: Field>(c: &mut Collection<F>, sheet: &Reader<'_>) -> Result<(), CollectionFault>
    ensures { Judged F.Field.numbers.q c.old.kept (opening (given_in (meant sheet.now))) result c.new.kept }
{
    let n = sheet.places();
    let points = sheet.points();
    let multipliers = sheet.multipliers();
    c.open(Opening {
        points: &points[0..n],
        multipliers: &multipliers[0..n],
        threshold: sheet.threshold(),
        setting: sheet.setting(),
    })
}

// What the collection becomes by the acts of the sheet, as a new collection.
fn filled<F: Field>(c: &Collection<F>, sheet: &Reader<'_>) -> Result<Collection<F>, CollectionFault>
    ensures fault { fault_of result ≡ first_refused F.Field.numbers.q (standing c.now.kept) (acts_of (meant sheet.now)) }
    ensures book { IfOk result (λ new. standing new.kept ≡ all_written (standing c.now.kept) (acts_of (meant sheet.now))) }
{
    c.still_blank()?;
    let mut new = Collection::<F>::new();
    open_by(&mut new, sheet)?;
    enter_all(&mut new, sheet)?;
    Ok(new)
}

// Opens the collection with the code and the setting of a sheet and enters its shares in place order, or is refused as a whole.
pub fn load<F: Field>(c: &mut Collection<F>, bytes: &[u8]) -> Result<(), SheetFault>
    ensures { Loaded F.Field.numbers.q F.Field.SHEET_NUMBER c.old.kept bytes.now result c.new.kept }
{
    let sheet = Reader::new(bytes)?;
    sheet.check_field(F::SHEET_NUMBER)?;
    let loaded = filled(c, &sheet)?;
    *c = loaded;
    Ok(())
}
