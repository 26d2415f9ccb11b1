// The pairs of configurations of two parsers, as a system that can be swept.
ghost use Rattle.std.specs.Prelude.{◌≡◌, ℕ, ◌+◌, ◌*◌, ◌/◌, ◌%◌, ◌^◌, ◌<◌, MatchResult};
ghost use Rattle.model.specs.Promise.{config_count};
ghost use Rattle.product.specs.Pair.{header_number, pair_model};
ghost use Rattle.product.specs.View.{comparison_of, side_parser};

use crate::bits::low;
use crate::counted::Counted;
use crate::product::Product;
use crate::side::Side;
use crate::size::MOST_BITS;
use reach::System;

impl Product {
    // Both are handed back where they have more than 2^60 pairs of configurations.
    pub fn new(first: Side, second: Side) -> Result<Product, (Side, Side)>
        ensures { MatchResult result (λ p. (p.first.side ≡ first) × (p.second.side ≡ second)) (λ e. (e.0 ≡ first) × (e.1 ≡ second) × (2 ^ 60 < config_count (side_parser first) * config_count (side_parser second))) }
    {
        let Some(first_count) = first.count() else {
            return Err((first, second));
        };
        let Some(second_count) = second.count() else {
            return Err((first, second));
        };
        if first_count > (1 << MOST_BITS) / second_count {
            return Err((first, second));
        }
        Ok(Product {
            first: Counted {
                side: first,
                count: first_count,
            },
            second: Counted {
                side: second,
                count: second_count,
            },
        })
    }

    // What is in the headers of both at a pair, as numbers.
    pub fn headers(&self, p: u64) -> (u64, u64)
        ensures first { result.0 ≡ header_number (side_parser self.now.first.side) (p / config_count (side_parser self.now.second.side)) }
        ensures second { result.1 ≡ header_number (side_parser self.now.second.side) (p % config_count (side_parser self.now.second.side)) }
    {
        let (first, second) = self.split(p);
        (self.first.headers(first), self.second.headers(second))
    }

    // The two numbers of a pair.
    fn split(&self, p: u64) -> (u64, u64)
        ensures first { result.0 ≡ p / config_count (side_parser self.now.second.side) }
        ensures second { result.1 ≡ p % config_count (side_parser self.now.second.side) }
    {
        (p / self.second.count, p % self.second.count)
    }

    // The pair of two numbers.
    fn join(&self, first: u64, second: u64) -> u64
        requires first { first < config_count (side_parser self.now.first.side) }
        requires second { second < config_count (side_parser self.now.second.side) }
        ensures { result ≡ first * config_count (side_parser self.now.second.side) + second }
    {
        first * self.second.count + second
    }
}

impl System for Product {
    ghost model = { λ s. pair_model (comparison_of s) };

    fn count(&self) -> u64 {
        self.first.count * self.second.count
    }

    fn starts(&self) -> u64 {
        1 << (self.first.side.header_bits + self.second.side.header_bits)
    }

    fn start(&self, i: u64) -> u64 {
        let first = self.first.begin(i >> self.second.side.header_bits);
        let second = self.second.begin(low(i, self.second.side.header_bits));
        self.join(first, second)
    }

    fn after(&self, p: u64, bit: u64) -> u64 {
        let (first, second) = self.split(p);
        self.join(self.first.next(first, bit), self.second.next(second, bit))
    }

    // exactly one of the two accepts
    fn is_bad(&self, p: u64) -> bool {
        let (first, second) = self.split(p);
        self.first.accepts(first) != self.second.accepts(second)
    }
}
