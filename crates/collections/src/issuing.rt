ghost use Rattle.std.specs.Prelude.{◌≡◌, length};
ghost use Rattle.codes.specs.Opening.{fault_of};
ghost use Rattle.codes.specs.Codewords.{area_after};
ghost use Rattle.collections.specs.Issuing.{issuing_fault, word_in};
ghost use Rattle.collections.specs.Standing.{standing};

use crate::Collection;
use faults::ListingFault;
use fields::Field;

impl<F: Field> Collection<F> {
    // Writes the codeword of the message, for the collection's code, into the front of the area.
    pub fn issue(&self, message: &[u16], out: &mut [u16]) -> Result<(), ListingFault>
        ensures fault { fault_of result ≡ issuing_fault F.Field.numbers.q (standing self.now.kept) message.now (length out.old) }
        ensures area { out.new ≡ area_after (fault_of result) (word_in F.Field.numbers (standing self.now.kept) message.now) out.old }
    {
        let opened = self.opened()?;
        codes::issue::<F>(&opened.code, message, out)
    }
}
