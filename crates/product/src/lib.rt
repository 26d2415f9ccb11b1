// Two parsers as one system that can be swept. Read config, side and counted, then size, bits and step, then product and pair.
#![tactic(auto)]

ghost use Rattle.product.specs.Pair.{SafeIsEquivalent, LeadingDistinguishes};

mod bits;
mod config;
mod counted;
mod pair;
mod product;
mod side;
mod size;
mod step;

pub use counted::Counted;
pub use product::Product;
pub use side::Side;

// If no bits lead from a start to a pair of which exactly one accepts, the two parsers are equivalent.
pub fn safe_is_equivalent()
    ensures { SafeIsEquivalent }
{}

// Bits that lead from a start to such a pair distinguish the two parsers.
pub fn leading_distinguishes()
    ensures { LeadingDistinguishes }
{}
