// The last stage: two parsers are compared, too.
ghost use Rattle.std.specs.Prelude.{◌≡◌, refl};
ghost use Rattle.model.specs.Request.{everything};

use compare::compare;
use machine::Machine;
use product::Side;
use reply::Answer;
use settling::{Halt, Refusal, Stage, checked};
use std::alloc::Global;
use wire::Compare;

pub struct Everything;

impl Stage for Everything {
    ghost can = { everything };

    ghost parses = { refl };

    // All of the first parser is looked at before the second, and both before the states to begin from.
    fn settle_compare(heap: Global, asked: Compare, room: &mut [u64]) -> Result<Answer, Halt> {
        let Compare {
            first,
            second,
            first_start,
            second_start,
            work,
            room: most_room,
        } = asked;
        let first = checked(first)?;
        let second = checked(second)?;
        let first = Machine::new(heap, first)?;
        let Some(first) = Side::new(first, first_start) else {
            return Err(Halt::Refused(Refusal::Unfit));
        };
        let second = Machine::new(heap, second)?;
        let Some(second) = Side::new(second, second_start) else {
            return Err(Halt::Refused(Refusal::Unfit));
        };
        Ok(compare(first, second, work, most_room, room))
    }
}
