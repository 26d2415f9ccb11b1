// How a step ends early.
ghost use Rattle.std.specs.Prelude.{◌≡◌};
ghost use Rattle.clauses.specs.declared.stop.Stop.TheVariants.{Refused, Exhausted as Out};

use crate::stack::Full;
use budget::Exhausted;

/// Why a step ends early.
#[derive(Clone, Copy, PartialEq, Eq, Debug)]
pub enum Stop {
    /// No valuation is left.
    Conflict,
    /// Numbers or room that are not as they should be, or what should be shown is not.
    Refused,
    /// The work is used up.
    Exhausted,
}

impl From<Exhausted> for Stop {
    ghost from_gives = { λ _ e. e ≡ Out };

    fn from(_: Exhausted) -> Stop {
        Stop::Exhausted
    }
}

impl From<Full> for Stop {
    ghost from_gives = { λ _ e. e ≡ Refused };

    fn from(_: Full) -> Stop {
        Stop::Refused
    }
}
