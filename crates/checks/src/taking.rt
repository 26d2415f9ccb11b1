// How many bits states take: each one at least, and none too many.
ghost use Rattle.std.specs.Prelude.{◌≡◌, nat_le, nat_lt};
ghost use Rattle.std.specs.List.{list_all};
ghost use Rattle.model.specs.Parser.{ops_width};
ghost use Rattle.model.specs.Refusal.{narrow as all_narrow};
ghost use Rattle.model.specs.Refusal.{taking as all_taking};
ghost use Rattle.syntax.specs.View.{parser_of, state_of};
ghost use Rattle.checks.specs.Measured.{Measured};

use crate::widths::Widths;
use syntax::{Op, Parser, State};

// What a state may take.
const TAKEN: usize = 4096;

// Does each state take a bit at least?
pub(crate) fn takes(parser: &Parser) -> bool
    ensures { result ≡ all_taking (parser_of parser.now) }
{
    Widths::new(&parser.sizes).take(&parser.states)
}

// Does none take too many?
pub(crate) fn narrow(parser: &Parser) -> bool
    ensures { result ≡ all_narrow (parser_of parser.now) }
{
    Widths::new(&parser.sizes).are_narrow(&parser.states)
}

impl Widths<'_> {
    // Of too many it is enough to know that they are some.
    fn take(&self, states: &[State]) -> bool
        ensures { result ≡ list_all (λ q. nat_lt 0 (ops_width self.now.sizes.now (state_of q).ops)) states.now }
    {
        states.iter().all(|state| self.taken(state) != Some(0))
    }

    fn are_narrow(&self, states: &[State]) -> bool
        ensures { result ≡ list_all (λ q. nat_le (ops_width self.now.sizes.now (state_of q).ops) 4096) states.now }
    {
        states.iter().all(|state| self.taken(state).is_some())
    }

    // How many bits a state takes, if not too many. Written out, since `try_fold` would want a lemma.
    fn taken(&self, state: &State) -> Option<usize>
        ensures { Measured (nat_le (ops_width self.now.sizes.now (state_of state.now).ops) 4096) (ops_width self.now.sizes.now (state_of state.now).ops) result }
    {
        let mut left = TAKEN;
        for op in &state.ops {
            if let Op::Extract(h) = op {
                left = left.checked_sub(self.header(*h))?;
            }
        }
        Some(TAKEN - left)
    }
}
