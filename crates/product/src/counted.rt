// One parser with few enough configurations to number them.
ghost use Rattle.std.specs.Prelude.{◌≡◌, ℕ, ◌^◌, ◌≤◌};
ghost use Rattle.model.specs.Promise.{config_count};
ghost use Rattle.machine.specs.View.{parser_in};

use crate::side::Side;

// How many there are: each has a number below that.
#[derive(Drop)]
pub struct Counted {
    pub side: Side,
    pub(crate) count: u64,
    ghost counted: { count ≡ config_count (parser_in side.machine) },
    ghost small: { count ≤ 2 ^ 60 },
}
