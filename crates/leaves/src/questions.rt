// The question whose answers the leaves are: the roots of a form, within bounds.

// A form of the degree `degree` in `degree` + 1 runs of `length` numbers, and the bounds of the degrees of f1 and f2.
#[derive(Clone, Copy)]
pub struct Question<'a> {
    pub form: &'a [u16],
    pub degree: usize,
    pub length: usize,
    pub w1: usize,
    pub w2: usize,
}
