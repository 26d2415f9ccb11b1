// Clauses under given bits.
ghost use Rattle.std.specs.Prelude.{◌≡◌, ◌≤◌, ◌↔◌, IsTrue};
ghost use Rattle.clauses.specs.Clauses.{Holds, Sat, All};
ghost use Rattle.clauses.specs.Steps.{clauses_of};
ghost use Rattle.entails.specs.Answers.{says, Refuted};
ghost use Rattle.entails.specs.Searches.{asked, wanted};

use crate::Room;
use crate::search::Search;
use clauses::lists::list_at;
use clauses::literal::Literal;
use clauses::premises::Premises;

// The bit at p, where what is unknown counts as 0.
#[tactic(auto, unfolding(crate::specs::Answers::says))]
fn bit_at(value: &[u64], p: usize) -> bool
    ensures { result ≡ says value.now p }
{
    value.get(p).is_some_and(|b| *b == 1)
}

fn holds(value: &[u64], l: u64) -> bool
    ensures { IsTrue result ↔ Holds (says value.now) l }
{
    let l = Literal::from(l);
    bit_at(value, l.position) != l.negated
}

fn satisfied(value: &[u64], clause: &[u64]) -> bool
    ensures { IsTrue result ↔ Sat (says value.now) clause.now }
{
    clause.iter().any(|l| holds(value, *l))
}

fn all_hold(premises: &Premises, value: &[u64]) -> bool
    ensures { IsTrue result → All (says value.now) (clauses_of premises.now) }
{
    premises.starts.iter().all(|s| {
        premises
            .clause(*s as usize)
            .is_some_and(|clause| satisfied(value, clause))
    })
}

/// Whether the bits satisfy the premises and not the goal. Not charged: `survey` was, for the same way.
pub fn refutes(search: &Search, room: &Room) -> bool
    ensures { IsTrue result → Refuted (asked search.now) (wanted search.now) (says room.now.value.now) }
{
    let premises = search.first(search.given);
    let goal = list_at(premises.numbers, search.goal).unwrap();
    all_hold(&premises, room.value) && !satisfied(room.value, goal)
}
