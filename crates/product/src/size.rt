// How many configurations a parser can have, where they are few enough to be numbered.
ghost use Rattle.std.specs.Prelude.{◌≡◌, ℕ, ◌^◌, ◌<◌, ◌≤◌, MatchOption};
ghost use Rattle.model.specs.Promise.{config_count};
ghost use Rattle.machine.specs.View.{state_count};
ghost use Rattle.product.specs.View.{side_parser};

use crate::side::Side;
use machine::Machine;

// Numbers of configurations, and of pairs of them, have at most so many bits.
pub(crate) const MOST_BITS: u16 = 60;

impl Side {
    // None just if there is no such state.
    pub fn new(machine: Machine, start: u16) -> Option<Side>
        ensures { MatchOption result (state_count machine ≤ start) (λ s. (s.machine ≡ machine) × (s.start ≡ start)) }
    {
        if start as usize >= machine.checked.parser.states.len() {
            return None;
        }
        let header_bits = machine.header_bits() as u16;
        let buffer_bits = machine.widest() as u16;
        Some(Side {
            machine,
            start,
            header_bits,
            buffer_bits,
        })
    }

    // How many configurations its parser can have. None just if they are more than 2^60: that is decided
    // by exponents, since the count may have thousands of bits.
    pub fn count(&self) -> Option<u64>
        ensures { MatchOption result (2 ^ 60 < config_count (side_parser self.now)) (λ n. (n ≡ config_count (side_parser self.now)) × (n ≤ 2 ^ 60)) }
    {
        let bits = self.header_bits + self.buffer_bits;
        let left = MOST_BITS.checked_sub(bits)?;
        let targets = self.states() + 2;
        if targets > 1 << left {
            return None;
        }
        Some(targets << bits)
    }

    // How many states its parser has.
    pub(crate) fn states(&self) -> u64
        ensures { result ≡ state_count self.now.machine }
    {
        self.machine.checked.parser.states.len() as u64
    }
}
