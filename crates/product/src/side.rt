// One parser with a state to begin from.
ghost use Rattle.std.specs.Prelude.{◌≡◌, ℕ, ◌<◌};
ghost use Rattle.model.specs.Refusal.{sum, widest};
ghost use Rattle.machine.specs.View.{parser_in, sizes_in, state_count};

use machine::Machine;

// How many bits all headers have, and how many the widest state takes, are asked for at every step.
#[derive(Drop)]
pub struct Side {
    pub machine: Machine,
    pub start: u16,
    pub(crate) header_bits: u16,
    pub(crate) buffer_bits: u16,
    ghost begins: { start < state_count machine },
    ghost headers: { header_bits ≡ sum (sizes_in machine) },
    ghost wide: { buffer_bits ≡ widest (sizes_in machine) (parser_in machine).states },
}
