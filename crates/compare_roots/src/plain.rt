// Polynomials modulo 7 by the plainest rules, and whether a pair of them is a normal coprime root of a form of degree 3. The roots call is compared with this,
// so it shares nothing with the crates that the call stands on.

// How many numbers a run of the form has.
pub const RUN: usize = 5;

// A form of degree 3: four runs.
pub const FORM: usize = 20;

// Adds a b to the sum, as far as that reaches.
fn add_multiple(sum: &mut [u16], a: u16, b: &[u16]) {
    for (s, y) in sum.iter_mut().zip(b) {
        *s = ((u32::from(*s) + u32::from(a) * u32::from(*y)) % 7) as u16;
    }
}

// The same for a polynomial a.
fn add_product(sum: &mut [u16], a: &[u16], b: &[u16]) {
    for (start, x) in a.iter().enumerate() {
        if let Some(rest) = sum.get_mut(start..) {
            add_multiple(rest, *x, b);
        }
    }
}

// a b, without what lies beyond the form's last number.
pub(crate) fn times(a: &[u16], b: &[u16]) -> [u16; FORM] {
    let mut sum = [0; FORM];
    add_product(&mut sum, a, b);
    sum
}

// The value of a polynomial of degree 1 at most.
fn value(f: [u16; 2], x: u16) -> u32 {
    let [c, d] = f;
    (u32::from(c) + u32::from(d) * u32::from(x)) % 7
}

// Two polynomials of degree 1 at most, the pair of y = second and z = first.
#[derive(Clone, Copy)]
pub struct Lines {
    pub first: [u16; 2],
    pub second: [u16; 2],
}

impl Lines {
    // The factor first y - second z, which vanishes at the pair, as a polynomial in x, where y stands for x^5 and z for 1.
    pub(crate) fn factor(self) -> [u16; 7] {
        let [a, b] = self.second;
        let [c, d] = self.first;
        [7 - a % 7, 7 - b % 7, 0, 0, 0, c, d]
    }

    // Whether the form is zero at the pair.
    fn is_zero_of(self, form: &[u16; FORM]) -> bool {
        let y2 = times(&self.second, &self.second);
        let z2 = times(&self.first, &self.first);
        let terms = [
            times(&z2, &self.first),
            times(&z2, &self.second),
            times(&y2, &self.first),
            times(&y2, &self.second),
        ];
        let mut sum = [0; FORM];
        for (run, term) in form.chunks_exact(RUN).zip(&terms) {
            add_product(&mut sum, run, term);
        }
        sum == [0; FORM]
    }

    // Whether the two have no root in common.
    fn is_coprime(self) -> bool {
        (0..7).all(|x| value(self.first, x) != 0 || value(self.second, x) != 0)
    }

    // Whether the second has the leading coefficient 1, or is 0 where the first is 1.
    fn is_normal(self) -> bool {
        match self.second {
            [0, 0] => self.first == [1, 0],
            [c, 0] => c == 1,
            [_, d] => d == 1,
        }
    }

    pub(crate) fn is_root_of(self, form: &[u16; FORM]) -> bool {
        self.is_normal() && self.is_coprime() && self.is_zero_of(form)
    }
}
