// Symbols in place of bits: what one side of a leap does to every configuration at a point at once,
// and what must hold of the bits for each outcome. Read point and heads, then leaps with row, eval and
// walk under it; select and outcome are about the select that follows; size says how far to leap.
#![tactic(auto)]

mod eval;
mod heads;
mod leaps;
mod outcome;
mod point;
mod row;
mod select;
mod size;
mod walk;

pub use heads::Heads;
pub use leaps::leap;
pub use outcome::{outcome_is_taken, outcome_target, outcomes};
pub use point::{Leapt, Places, Point};
pub use size::leap_size;
