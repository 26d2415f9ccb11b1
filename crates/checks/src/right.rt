// Is a parser right, or what is wrong with it first.
ghost use Rattle.std.specs.Prelude.{◌≡◌, MatchResult};
ghost use Rattle.model.specs.Refusal.{fault};
ghost use Rattle.syntax.specs.View.{parser_of};
ghost use Rattle.checks.specs.Number.{number_of};

use crate::fault::Fault;
use crate::limits::within_limits;
use crate::names::named;
use crate::taking::{narrow, takes};
use crate::widths::sized;
use syntax::{Checked, Parser};

// Each check looks at all states before the next one does.
pub fn check(parser: Parser) -> Result<Checked, Fault>
    ensures { MatchResult result (λ c. c.parser ≡ parser) (λ f. fault (parser_of parser) ≡ number_of f) }
{
    if !within_limits(&parser) {
        return Err(Fault::Limits);
    }
    if !named(&parser) {
        return Err(Fault::Names);
    }
    if !sized(&parser) {
        return Err(Fault::Widths);
    }
    if !takes(&parser) {
        return Err(Fault::TakesNothing);
    }
    if !narrow(&parser) {
        return Err(Fault::TakesTooMuch);
    }
    Ok(Checked { parser })
}
