// A reader of bytes at an offset: numbers, rows of bits, expressions. Read reader, then reader/expr.
#![tactic(auto, using(crate::proofs::Chain::exits))]

mod fault;
mod reader;
#[cfg(test)]
mod tests;

pub use fault::Fault;
pub use reader::Reader;
