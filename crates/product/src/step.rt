// One parser's configurations as numbers, and what one bit does to them.
ghost use Rattle.std.specs.Prelude.{◌≡◌, ℕ, ◌^◌, ◌<◌, ◌≤◌, true};
ghost use Rattle.model.specs.Config.{step as step_of};
ghost use Rattle.model.specs.Parser.{run_ops};
ghost use Rattle.model.specs.Promise.{config_count};
ghost use Rattle.syntax.specs.View.{target_of};
ghost use Rattle.theory.specs.Number.{config_number, number_bits, number_config, number_target, target_number};
ghost use Rattle.machine.specs.View.{selected, sizes_in, state_count, state_in, width_in};
ghost use Rattle.product.specs.Pair.{accepts_number, good_number, header_number, next_number, start_number, store_count};
ghost use Rattle.product.specs.View.{config_in, side_parser, store_of, Stands};

use crate::bits::{low, push, spread};
use crate::config::{Config, EMPTY};
use crate::counted::Counted;
use machine::Store;
use syntax::Target;

impl Counted {
    // The number of where its parser is at first, with the bits of i in the headers.
    pub(crate) fn begin(&self, i: u64) -> u64
        requires { i < store_count (side_parser self.now.side) }
        ensures value { result ≡ start_number (side_parser self.now.side) self.now.side.start i }
        ensures good { good_number (side_parser self.now.side) result ≡ true }
        ensures below { result < config_count (side_parser self.now.side) }
    {
        self.encode(Config {
            target: Target::State(self.side.start),
            headers: i,
            buffer: EMPTY,
        })
    }

    // The number of where a bit leads.
    pub(crate) fn next(&self, k: u64, bit: u64) -> u64
        requires good { good_number (side_parser self.now.side) k ≡ true }
        requires bit { bit < 2 }
        ensures value { result ≡ next_number (side_parser self.now.side) k bit }
        ensures good { good_number (side_parser self.now.side) result ≡ true }
        ensures below { result < config_count (side_parser self.now.side) }
    {
        self.encode(self.step(self.decode(k), bit))
    }

    // Has its parser come to accept.
    pub(crate) fn accepts(&self, k: u64) -> bool
        ensures { result ≡ accepts_number (side_parser self.now.side) k }
    {
        matches!(self.target(k), Target::Accept)
    }

    // What is in the headers, as a number.
    pub(crate) fn headers(&self, k: u64) -> u64
        ensures { result ≡ header_number (side_parser self.now.side) k }
    {
        low(k >> self.side.buffer_bits, self.side.header_bits)
    }

    // `Stands` ties a configuration to its parser, so it is no field of Config.
    fn decode(&self, k: u64) -> Config
        requires { good_number (side_parser self.now.side) k ≡ true }
        ensures same { config_in (side_parser self.now.side) result ≡ number_config (side_parser self.now.side) k }
        ensures stands { Stands (side_parser self.now.side) result }
    {
        Config {
            target: self.target(k),
            headers: self.headers(k),
            buffer: low(k, self.side.buffer_bits),
        }
    }

    fn encode(&self, c: Config) -> u64
        requires { Stands (side_parser self.now.side) c }
        ensures { result ≡ config_number (side_parser self.now.side) (config_in (side_parser self.now.side) c) }
    {
        let high = self.target_number(c.target) << self.side.header_bits | c.headers;
        high << self.side.buffer_bits | c.buffer
    }

    // Its highest bits: states by their numbers, then accept and reject.
    fn target(&self, k: u64) -> Target
        ensures { target_of result ≡ (number_config (side_parser self.now.side) k).target }
    {
        let number = (k >> self.side.buffer_bits) >> self.side.header_bits;
        let states = self.side.states();
        if number < states {
            Target::State(number as u16)
        } else if number == states {
            Target::Accept
        } else {
            Target::Reject
        }
    }

    fn target_number(&self, target: Target) -> u64
        ensures { result ≡ target_number (state_count self.now.side.machine) (target_of target) }
    {
        let states = self.side.states();
        match target {
            Target::State(q) => q as u64,
            Target::Accept => states,
            Target::Reject => states + 1,
        }
    }

    // A state that still lacks bits keeps this one, else it is walked through; one more after an end is reject.
    fn step(&self, c: Config, bit: u64) -> Config
        requires stands { Stands (side_parser self.now.side) c }
        requires bit { bit < 2 }
        ensures same { config_in (side_parser self.now.side) result ≡ step_of (side_parser self.now.side) (config_in (side_parser self.now.side) c) bit }
        ensures stands { Stands (side_parser self.now.side) result }
    {
        match c.target {
            Target::State(q) => {
                let held = c.buffer.ilog2();
                let buffer = push(c.buffer, held, bit);
                let n = self.side.machine.width(q);
                if (held as usize) + 1 < n {
                    Config { buffer, ..c }
                } else {
                    self.walk(q, c.headers, buffer, n)
                }
            }
            Target::Accept | Target::Reject => Config {
                target: Target::Reject,
                buffer: EMPTY,
                ..c
            },
        }
    }

    // Through a state, on the lowest n bits of a number.
    fn walk(&self, q: u16, headers: u64, bits: u64, n: usize) -> Config
        requires known { q < state_count self.now.side.machine }
        requires wide { n ≡ width_in self.now.side.machine q }
        ensures done { store_of (sizes_in self.now.side.machine) result.headers ≡ run_ops (sizes_in self.now.side.machine) (state_in self.now.side.machine q).ops (number_bits n bits) (store_of (sizes_in self.now.side.machine) headers) }
        ensures leads { target_of result.target ≡ selected (store_of (sizes_in self.now.side.machine) result.headers) (state_in self.now.side.machine q) }
        ensures below { result.headers < store_count (side_parser self.now.side) }
        ensures empty { result.buffer ≡ 1 }
    {
        let part = spread(bits, n);
        let mut store = Store::from_word(headers);
        let target = self.side.machine.walk(q, &mut store, &part[..n]);
        Config {
            target,
            headers: low(store.word(), self.side.header_bits),
            buffer: EMPTY,
        }
    }
}
