// A parser of a request, if nothing is wrong with it.
ghost use Rattle.std.specs.Prelude.{◌≡◌, ◌<◌, MatchResult};
ghost use Rattle.model.specs.Parser.{Parser as Model};
ghost use Rattle.model.specs.Refusal.{fault};
ghost use Rattle.scan.specs.Reads.{Within};
ghost use Rattle.syntax.specs.View.{parser_of};
ghost use Rattle.wire.specs.Kept.{shallow_parser};
ghost use Rattle.settling.specs.Refusing.{number_of, offset_of};

use crate::refusal::Refusal;
use checks::{Fault, check};
use syntax::{Checked, Parser};

// A parser that was not kept has expressions nested too deep.
pub fn checked(parser: Option<Parser>) -> Result<Checked, Refusal>
    ensures { (p : Model) → Within parser_of shallow_parser parser p → MatchResult result (λ c. parser_of c.parser ≡ p) (λ f. (fault p ≡ number_of f) × (0 < number_of f) × (offset_of f ≡ 0)) }
{
    let Some(parser) = parser else {
        return Err(Refusal::Wrong(Fault::Limits));
    };
    check(parser).map_err(Refusal::Wrong)
}
