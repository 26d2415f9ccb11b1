// A checked parser that runs. Read store and machine; then want, sink, hand and eval: how the bits of an expression are handed on,
// and what takes them; then walk and run. measure stands alone.
// Bits, headers and states stay plain numbers, and an expression stands beside its machine: a type around them would be taken apart
// at each part that is handed on.
#![tactic(auto)]

mod eval;
mod hand;
mod machine;
mod measure;
mod run;
mod sink;
mod store;
mod walk;
mod want;

pub use machine::Machine;
pub use sink::Sink;
pub use store::Store;
pub use want::Want;
