// A parser that was found right: none of the refusals 2 to 6 applies to it.
ghost use Rattle.std.specs.Prelude.{◌≡◌};
ghost use Rattle.model.specs.Refusal.{fault};
ghost use Rattle.syntax.specs.View.{parser_of};

use crate::ast::Parser;

#[derive(Drop)]
pub struct Checked {
    pub parser: Parser,
    ghost right: { fault (parser_of parser) ≡ 0 },
}
