// The first stage: parsing alone.
ghost use Rattle.std.specs.Prelude.{◌≡◌, refl};
ghost use Rattle.model.specs.Request.{parsing};

use reply::Answer;
use settling::{Halt, Refusal, Stage};
use std::alloc::Global;
use wire::Compare;

pub struct Parsing;

impl Stage for Parsing {
    ghost can = { parsing };

    ghost parses = { refl };

    // That can't be done yet.
    fn settle_compare(_: Global, _: Compare, _: &mut [u64]) -> Result<Answer, Halt> {
        Err(Halt::Refused(Refusal::Unfit))
    }
}
