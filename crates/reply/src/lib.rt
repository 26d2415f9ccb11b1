// Answers, as bytes and as a line of text. Read answer, then row and room, bytes and text.
#![tactic(auto)]

mod answer;
mod bytes;
mod room;
mod row;
#[cfg(test)]
mod tests;
mod text;

pub use answer::Answer;
pub use bytes::write_answer;
pub use text::line;
