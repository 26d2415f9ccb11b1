// Why there is no answer but a refusal, or none at all.
ghost use Rattle.std.specs.Prelude.{◌≡◌, ℕ, Bool, List, Err};
ghost use Rattle.model.specs.Request.{Request as Model};
ghost use Rattle.wire.specs.Asked.{Unasked};
ghost use Rattle.settling.specs.Refusing.{Settled};
ghost use Rattle.settling.specs.declared.halt.Halt.TheVariants.{Refused, Memory};

use crate::refusal::Refusal;
use scan::Fault;
use std::alloc::AllocError;

#[derive(Clone, Copy, PartialEq, Eq, Debug)]
pub enum Halt {
    Refused(Refusal),
    // want of memory: that is no answer
    Memory(AllocError),
}

impl From<Refusal> for Halt {
    ghost from_gives = { λ refusal h. h ≡ Refused refusal };

    fn from(refusal: Refusal) -> Halt {
        Halt::Refused(refusal)
    }
}

impl From<AllocError> for Halt {
    ghost from_gives = { λ e h. h ≡ Memory e };

    fn from(e: AllocError) -> Halt {
        Halt::Memory(e)
    }
}

// Bytes that ask nothing are settled by it.
impl From<Fault> for Halt {
    ghost from_gives = { λ fault h. (can : ℕ → Bool) (q : Model) (room room' : List ℕ) → Unasked q fault → Settled can q room room' (Err h) };

    fn from(fault: Fault) -> Halt {
        match fault {
            Fault::Garbled(at) => Halt::Refused(Refusal::Garbled(at)),
            Fault::Memory(e) => Halt::Memory(e),
        }
    }
}
