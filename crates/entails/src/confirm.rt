// A yes is believed only by the rule: each lemma by its hints, and then the goal.
ghost use Rattle.std.specs.Prelude.{◌≡◌, ℕ, ◌≤◌, length, take, IsTrue};
ghost use Rattle.clauses.specs.Clauses.{Follows, clause_at, premises};
ghost use Rattle.clauses.specs.Known.{Given};
ghost use Rattle.entails.specs.Searches.{asked, wanted, Checked};

use crate::search::Search;
use budget::Work;
use clauses::bits::UNKNOWN;
use clauses::hints::follows_by;
use clauses::known::Known;
use clauses::lemmas::add_lemmas;
use clauses::lists::Lists;
use clauses::premises::{NO_LIMIT, Premises};
use clauses::stack::Stack;
use clauses::stop::Stop;

// Whether the goal follows from the premises at starts[..count], with the lemmas that stand at `at` and the hints behind them, for what is known.
// `numbers` is lent as it stands in a search: of a slice that is lent out of it beside the starts, nothing would be known afterwards.
fn shown(
    numbers: &&mut [u64],
    at: usize,
    starts: &mut [u64],
    count: usize,
    goal: usize,
    known: &mut Known,
    work: &mut Work,
) -> bool
    requires { count ≤ length starts.old }
    ensures sound { IsTrue result → Given known.old (premises numbers.now.now starts.old count) (clause_at numbers.now.now goal) }
    ensures places { take count starts.new ≡ take count starts.old }
    ensures less { work.new.left ≤ work.old.left }
{
    let numbers = &**numbers;
    let mut lists = Lists { numbers, at };
    let mut starts = Stack::new(starts, count);
    match add_lemmas(&mut lists, &mut starts, NO_LIMIT, known, work) {
        Ok(()) => {
            let premises = Premises {
                numbers,
                starts: starts.as_slice(),
                most: NO_LIMIT,
            };
            matches!(
                follows_by(&premises, known, goal, &mut lists, work),
                Ok(true)
            )
        }
        Err(Stop::Conflict) => true,
        Err(_) => false,
    }
}

/// Whether the goal follows from the premises, by the lemmas and the hints that were written.
pub fn confirm(search: &mut Search, value: &mut [u64], trail: &mut [u64], work: &mut Work) -> bool
    ensures sound { IsTrue result → Follows (asked search.old) (wanted search.old) }
    ensures checked { Checked search.old search.new }
    ensures less { work.new.left ≤ work.old.left }
{
    value.fill(UNKNOWN);
    let mut known = Known::new(&[], value, trail, 0);
    let (at, given, goal) = (search.at, search.given, search.goal);
    shown(
        &search.numbers,
        at,
        search.starts,
        given,
        goal,
        &mut known,
        work,
    )
}
