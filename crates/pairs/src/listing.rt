// A listing of shares as a whole: the basis, its pairs, and what is sifted from them.
ghost use Rattle.std.specs.Prelude.{◌≡◌, ◌-◌, ◌≤◌, ◌++◌, length, take, replicate};
ghost use Rattle.candidates.specs.Telling.{blank};
ghost use Rattle.pairs.specs.Stage.{Listable, AllNear};

use crate::finding::find_pairs;
use basis::find_basis;
use candidates::{Candidate, sift_pairs};
use codes::Setting;
use fields::Field;
use leaves::Pair;
use received::Received;
use sift::Sieve;

// Writes the candidates of all codewords within the radius of the shares to the front of the area, in order and each once, and answers how many there are;
// blank records follow them. No list is longer than the setting's limit.
pub fn list_shares<F: Field>(
    received: Received<'_, F>,
    threshold: u8,
    setting: Setting,
    out: &mut [Candidate],
    work: &mut [u16],
) -> usize
    requires given { Listable F.Field.numbers received.points.now received.multipliers.now threshold received.shares.now setting }
    requires records { setting.list_limit ≤ length out.old }
    requires numbers { 32000 ≤ length work.old }
    ensures count { result ≤ setting.list_limit }
    ensures listed { AllNear F.Field.numbers received.entry.points.now received.entry.multipliers.now threshold received.entry.shares.now setting.radius (take result out.new) }
    ensures beyond { out.new ≡ take result out.new ++ replicate (length out.old - result) blank }
{
    let threshold = usize::from(threshold);
    let basis = find_basis(&received, threshold, setting.radius);
    let mut pairs = [Pair::BLANK; 8];
    let count = find_pairs(&received, threshold, setting, &basis, &mut pairs, work);
    let sieve = Sieve {
        received,
        threshold,
        radius: usize::from(setting.radius),
        h1: &basis.h11[..basis.d],
        h2: &basis.h21[..basis.d],
    };
    let listed = sift_pairs(&sieve, &pairs[..count], work, out);
    // The pairs tell as much as the candidates do, so none stays behind.
    pairs.fill(Pair::BLANK);
    listed
}
