// Exhaustive sweep of a system in lent room. Read system, then exhaustive; layout and tables are what stands in the room, explore and way its two halves.
#![tactic(auto)]

mod exhaustive;
mod explore;
mod layout;
mod system;
mod tables;
#[cfg(test)]
mod tests;
mod way;

pub use budget::{Exhausted, Work};
pub use exhaustive::{Reached, sweep};
pub use layout::table_words;
pub use system::System;
