// Where one parser is, by value.
use syntax::Target;

// What is in the headers is a number, the first bit lowest. The buffer is one too, with a 1 put after
// its last bit, so that its length is in the number.
#[derive(Clone, Copy)]
pub struct Config {
    pub(crate) target: Target,
    pub(crate) headers: u64,
    pub(crate) buffer: u64,
}

// A buffer that holds no bits.
pub(crate) const EMPTY: u64 = 1;
