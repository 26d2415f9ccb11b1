// What all stages of the program share: a request is answered, or refused by the first number that applies. A stage says what comparing comes to.
// Read refusal and halt, then right and parse, then stage.
#![tactic(auto)]

mod halt;
mod parse;
mod refusal;
mod right;
mod stage;

pub use halt::Halt;
pub use refusal::Refusal;
pub use right::checked;
pub use stage::{Stage, answer_at};
