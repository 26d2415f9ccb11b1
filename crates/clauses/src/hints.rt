// The rule: a clause follows from premises if its negation, with the hinted premises taken one after the other, each false or left with one open
// literal, ends in a false one.
ghost use Rattle.std.specs.Prelude.{◌≡◌, ℕ, ◌+◌, ◌-◌, ◌*◌, ◌<◌, ◌≤◌, Bool, ◌⊎◌, true, length, Ok, IsErrOf, IsErr};
ghost use Rattle.clauses.specs.Clauses.{Sat, All, clause_at};
ghost use Rattle.clauses.specs.Known.{Allows, Given, Kept};
ghost use Rattle.clauses.specs.Budget.{Spent};
ghost use Rattle.clauses.specs.Steps.{After, ReadOn, clauses_of};

use crate::known::Known;
use crate::lists::Lists;
use crate::look::Look;
use crate::premises::Premises;
use crate::stop::Stop;
use budget::{Exhausted, Work};

/// Looks at premise c. One that is not there, does not stand or is too long has no effect.
pub fn hint(premises: &Premises, known: &mut Known, c: usize, work: &mut Work) -> Result<(), Stop>
    requires { 0 < premises.now.most }
    ensures kept { Kept known.old known.new }
    ensures after { (v : ℕ → Bool) → Allows known.old v → All v (clauses_of premises.now) → After known.new v result }
    ensures spent { Spent work.old.left work.new.left premises.now.most (IsErrOf result Stop.Exhausted) }
{
    let Some(clause) = premises.get(c) else {
        return Ok(work.spend(1)?);
    };
    work.spend(clause.len() as u64 + 1)?;
    match Look::of(known, clause) {
        Look::Dead => Err(Stop::Conflict),
        Look::One { position, value } => Ok(known.push(position, value)?),
        Look::Other => Ok(()),
    }
}

// Looks at the premises that the hints name, one after the other.
fn run_hints(
    premises: &Premises,
    known: &mut Known,
    hints: &[u64],
    work: &mut Work,
) -> Result<(), Stop>
    requires { 0 < premises.now.most }
    ensures kept { Kept known.old known.new }
    ensures after { (v : ℕ → Bool) → Allows known.old v → All v (clauses_of premises.now) → After known.new v result }
    ensures spent { Spent work.old.left work.new.left (length hints.now * premises.now.most) (IsErrOf result Stop.Exhausted) }
{
    for c in hints {
        hint(premises, known, *c as usize, work)?;
    }
    Ok(())
}

// Whether no valuation makes the premises true and the goal false, by the hints.
fn refute(
    premises: &Premises,
    known: &mut Known,
    goal: &[u64],
    hints: &[u64],
    work: &mut Work,
) -> Result<(), Stop>
    requires { length goal.now < premises.now.most }
    ensures kept { Kept known.old known.new }
    ensures after { (v : ℕ → Bool) → Allows known.old v → All v (clauses_of premises.now) → Sat v goal.now ⊎ After known.new v result }
    ensures spent { Spent work.old.left work.new.left (premises.now.most + length hints.now * premises.now.most) (IsErrOf result Stop.Exhausted) }
{
    work.spend(goal.len() as u64 + 1)?;
    known.deny(goal)?;
    run_hints(premises, known, hints, work)
}

// What the end of a refutation shows.
fn shown(end: Result<(), Stop>) -> Result<bool, Exhausted>
    ensures yes { result ≡ Ok true → IsErrOf end Stop.Conflict }
    ensures short { IsErr result → IsErrOf end Stop.Exhausted }
{
    match end {
        Err(Stop::Conflict) => Ok(true),
        Err(Stop::Exhausted) => Err(Exhausted),
        Ok(()) | Err(Stop::Refused) => Ok(false),
    }
}

/// Whether the goal follows from the premises by the hints, for each valuation that is allowed.
pub fn follows(
    premises: &Premises,
    known: &mut Known,
    goal: &[u64],
    hints: &[u64],
    work: &mut Work,
) -> Result<bool, Exhausted>
    requires { length goal.now < premises.now.most }
    ensures sound { result ≡ Ok true → Given known.old (clauses_of premises.now) goal.now }
    ensures same { known.new.value.now ≡ known.old.value.now }
    ensures kept { Kept known.old known.new }
    ensures depth { known.new.depth ≡ known.old.depth }
    ensures spent { Spent work.old.left work.new.left ((1 + length hints.now) * premises.now.most) (IsErr result) }
{
    let base = known.depth;
    let end = refute(premises, known, goal, hints, work);
    known.undo(base);
    shown(end)
}

/// Whether the clause at `goal` follows from the premises by the hints that are read next, for each valuation that is allowed.
pub fn follows_by(
    premises: &Premises,
    known: &mut Known,
    goal: usize,
    lists: &mut Lists,
    work: &mut Work,
) -> Result<bool, Exhausted>
    ensures sound { result ≡ Ok true → Given known.old (clauses_of premises.now) (clause_at premises.now.numbers.now goal) }
    ensures same { known.new.value.now ≡ known.old.value.now }
    ensures kept { Kept known.old known.new }
    ensures depth { known.new.depth ≡ known.old.depth }
    ensures read { ReadOn lists.old lists.new }
    ensures spent { Spent work.old.left work.new.left ((lists.new.at - lists.old.at) * premises.now.most) (IsErr result) }
{
    let Some(goal) = premises.clause(goal) else {
        return Ok(false);
    };
    let Some(hints) = lists.next() else {
        return Ok(false);
    };
    follows(premises, known, goal, hints, work)
}
