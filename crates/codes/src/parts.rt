ghost use Rattle.std.specs.Prelude.{◌≡◌, take};

use crate::Code;

impl Code {
    // The number of elements of the field that the code was checked against.
    pub fn q(&self) -> u16
        ensures { result ≡ self.now.q }
    {
        self.q
    }

    // The number of places.
    pub fn count(&self) -> usize
        ensures { result ≡ self.now.count }
    {
        self.count
    }

    pub fn threshold(&self) -> u8
        ensures { result ≡ self.now.threshold }
    {
        self.threshold
    }

    // The points of the places, in their order.
    pub fn points(&self) -> &[u16]
        ensures { result.now ≡ take self.now.count self.now.points }
    {
        &self.points[..self.count]
    }

    // The multipliers of the places, in their order.
    pub fn multipliers(&self) -> &[u16]
        ensures { result.now ≡ take self.now.count self.now.multipliers }
    {
        &self.multipliers[..self.count]
    }
}
