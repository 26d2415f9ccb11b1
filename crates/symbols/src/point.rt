// Where one side of a leap is, and what becomes of it.
use syntax::Target;

// A target, and how many bits were taken there so far.
#[derive(Clone, Copy)]
pub struct Point {
    pub target: Target,
    pub taken: usize,
}

// The first position of the header bits, of the buffered bits and of the bits that a leap takes.
#[derive(Clone, Copy)]
pub struct Places {
    pub head: u32,
    pub sofar: u32,
    pub fresh: u32,
}

// The state still waits for bits; or this state did its ops, and its select decides where it leads;
// or an end was passed, or was before, and the rest is rejected.
#[derive(Clone, Copy)]
pub enum Leapt {
    Waits,
    Walked(u16),
    Ended,
}
