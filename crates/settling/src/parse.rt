// A request to parse: is it right, and is its input accepted.
ghost use Rattle.std.specs.Prelude.{◌≡◌, ℕ, Bool, true, List, map, vec_items};
ghost use Rattle.model.specs.Request.{parse_fits};
ghost use Rattle.model.specs.Request.{Request as Model};
ghost use Rattle.syntax.specs.View.{parser_of};
ghost use Rattle.wire.specs.Asked.{Parses};
ghost use Rattle.settling.specs.Refusing.{Settled};

use crate::halt::Halt;
use crate::refusal::Refusal;
use crate::right::checked;
use checks::{are_bits, store_fits};
use machine::Machine;
use reply::Answer;
use std::alloc::Global;
use syntax::Checked;
use wire::Parse;

// An input has at most this many bits.
const LONGEST: usize = 65_536;

// Is there such a state, and are the headers' contents and the input right?
fn fits(checked: &Checked, headers: &[Vec<u8>], start: u16, input: &[u8]) -> bool
    ensures { result ≡ parse_fits (parser_of checked.now.parser) (map vec_items headers.now) start input.now }
{
    let parser = &checked.parser;
    (start as usize) < parser.states.len()
        && store_fits(&parser.sizes, headers)
        && are_bits(input)
        && input.len() <= LONGEST
}

// Is the input accepted, or why is that not asked rightly?
pub(crate) fn settle_parse(heap: Global, asked: Parse) -> Result<Answer, Halt>
    ensures { (can : ℕ → Bool) → can 0 ≡ true → (q : Model) → Parses asked q → (room : List ℕ) → Settled can q room room result }
{
    let Parse {
        parser,
        headers,
        start,
        input,
    } = asked;
    let checked = checked(parser)?;
    if !fits(&checked, &headers, start, &input) {
        return Err(Halt::Refused(Refusal::Unfit));
    }
    let machine = Machine::new(heap, checked)?;
    let mut store = machine.load(&headers);
    Ok(Answer::Verdict(machine.accepts(&mut store, start, &input)))
}
