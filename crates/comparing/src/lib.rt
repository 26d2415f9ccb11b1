// Bytes and room in, an answer out: every request is answered, or refused by the first number that applies.
#![tactic(auto)]

ghost use Rattle.std.specs.Prelude.{◌≡◌, ℕ, length, IfOk};
ghost use Rattle.model.specs.Request.{lent, everything};
ghost use Rattle.model.specs.Promise.{Promised};
ghost use Rattle.format.specs.Format.{asked_from};
ghost use Rattle.reply.specs.View.{answer_of};

use reply::Answer;
pub use settling::Refusal;
use settling::answer_at;
use std::alloc::{AllocError, Global};

mod everything;
#[cfg(test)]
mod tests;

use everything::Everything;

// What is answered to bytes; the room is for comparing, which leaves headers' contents and a message there. Want of memory is no answer.
pub fn answer(heap: Global, request: &[u8], room: &mut [u64]) -> Result<Answer, AllocError>
    ensures { IfOk result (λ a. Promised everything (lent (length room.old) (asked_from request.now)) (answer_of room.new a)) }
{
    answer_at::<Everything>(heap, request, room)
}
