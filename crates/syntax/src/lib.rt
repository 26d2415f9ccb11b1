// A parser as a Rust programmer writes it: its parts, and one that was found right.
#![tactic(auto)]

mod ast;
mod checked;

pub use ast::{Case, DEPTH, Expr, Op, Parser, Pattern, State, Target};
pub use checked::Checked;
