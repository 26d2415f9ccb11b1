// Two parsers as one system: a pair of configurations is the first's number times the count of the second's, and the second's.
ghost use Rattle.std.specs.Prelude.{ℕ, ◌*◌, ◌^◌, ◌≤◌};

use crate::counted::Counted;

// Numbers of pairs fit 60 bits.
#[derive(Drop)]
pub struct Product {
    pub first: Counted,
    pub second: Counted,
    ghost small: { first.count * second.count ≤ 2 ^ 60 },
}
