// A stage of the program: what it makes of a request to compare, and so what it answers to bytes.
ghost use Rattle.std.specs.Prelude.{◌≡◌, ℕ, Bool, true, length, IfOk};
ghost use Rattle.model.specs.Request.{lent};
ghost use Rattle.model.specs.Request.{Request as Model};
ghost use Rattle.model.specs.Promise.{Promised};
ghost use Rattle.format.specs.Format.{asked_from};
ghost use Rattle.reply.specs.View.{answer_of};
ghost use Rattle.wire.specs.Asked.{Compares};
ghost use Rattle.settling.specs.Refusing.{Settled};

use crate::halt::Halt;
use crate::parse::settle_parse;
use reply::Answer;
use std::alloc::{AllocError, Global};
use wire::{Compare, Request, read_request};

pub trait Stage {
    // Which kinds of request it can do.
    ghost can: { ℕ → Bool };

    // Do the two parsers accept the same, or why is that not asked rightly?
    fn settle_compare(heap: Global, asked: Compare, room: &mut [u64]) -> Result<Answer, Halt>
        ensures { (q : Model) → Compares asked q → Settled can q room.old room.new result };

    // Each can parse.
    ghost parses: { can 0 ≡ true };
}

// What is answered to what the bytes ask, or why it is not.
fn settle<S: Stage>(heap: Global, request: &[u8], room: &mut [u64]) -> Result<Answer, Halt>
    ensures { Settled S.can (asked_from request.now) room.old room.new result }
{
    match read_request(heap, request)? {
        Request::Parse(asked) => settle_parse(heap, asked),
        Request::Compare(asked) => S::settle_compare(heap, asked, room),
    }
}

// What is answered to bytes; the room is for comparing, which leaves headers' contents and a message there. Want of memory is no answer.
pub fn answer_at<S: Stage>(
    heap: Global,
    request: &[u8],
    room: &mut [u64],
) -> Result<Answer, AllocError>
    ensures { IfOk result (λ a. Promised S.can (lent (length room.old) (asked_from request.now)) (answer_of room.new a)) }
{
    // each end by its own arm: `or_else` with a closure says it no shorter
    match settle::<S>(heap, request, room) {
        Ok(answer) => Ok(answer),
        Err(Halt::Refused(refusal)) => Ok(Answer::from(refusal)),
        Err(Halt::Memory(e)) => Err(e),
    }
}
