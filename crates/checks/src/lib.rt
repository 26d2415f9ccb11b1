// Is a parser right, or what is wrong with it; are a store and an input right.
// Read contents; then pay and limits, names, widths and taking, in the order of the checks; then right.
// Each check goes down the parts by itself: one walk with a hook for each kind of part would be longer than all of them.
#![tactic(auto)]

mod contents;
mod fault;
mod limits;
mod names;
mod pay;
mod right;
mod taking;
mod widths;

pub use contents::{are_bits, store_fits};
pub use fault::Fault;
pub use right::check;
