// Lemmas that are read and shown one after the other, each by those before it.
ghost use Rattle.std.specs.Prelude.{◌≡◌, ℕ, Bool, length, IsErrOf};
ghost use Rattle.clauses.specs.Clauses.{Sat};
ghost use Rattle.clauses.specs.Known.{Allows, Kept};
ghost use Rattle.clauses.specs.Steps.{After, Grown};

use crate::hints::follows_by;
use crate::known::Known;
use crate::lists::Lists;
use crate::literal::Literal;
use crate::premises::Premises;
use crate::stack::Stack;
use crate::stop::Stop;
use budget::Work;

// The bit that a clause of one literal fixes is known from now on.
fn settle(known: &mut Known, clause: &[u64]) -> Result<(), Stop>
    ensures kept { Kept known.old known.new }
    ensures after { (v : ℕ → Bool) → Allows known.old v → Sat v clause.now → After known.new v result }
    ensures free { IsErrOf result Stop.Exhausted → ⊥ }
{
    let [l] = clause else {
        return Ok(());
    };
    let l = Literal::from(*l);
    known.assume(l.position, !l.negated)
}

// Adds the lemma that is read next, a clause and its hints, to the premises.
fn add_lemma(
    lists: &mut Lists,
    starts: &mut Stack,
    most: u64,
    known: &mut Known,
    work: &mut Work,
) -> Result<(), Stop>
    ensures { Grown most lists.old starts.old known.old work.old.left lists.new starts.new known.new work.new.left result }
{
    // There is no room for one more.
    if starts.len >= starts.room.len() {
        return Err(Stop::Refused);
    }
    let at = lists.at;
    let Some(lemma) = lists.next() else {
        return Err(Stop::Refused);
    };
    let premises = Premises {
        numbers: lists.numbers,
        starts: starts.as_slice(),
        most,
    };
    if !follows_by(&premises, known, at, lists, work)? {
        return Err(Stop::Refused);
    }
    starts.push(at as u64)?;
    settle(known, lemma)
}

/// Adds the lemmas that are read next, a number of them and then each as a clause and its hints, to the premises at `starts`; the bit of a lemma of one
/// literal is known from then on.
pub fn add_lemmas(
    lists: &mut Lists,
    starts: &mut Stack,
    most: u64,
    known: &mut Known,
    work: &mut Work,
) -> Result<(), Stop>
    ensures { Grown most lists.old starts.old known.old work.old.left lists.new starts.new known.new work.new.left result }
{
    let Some(n) = lists.number() else {
        return Err(Stop::Refused);
    };
    for _ in 0..n {
        add_lemma(lists, starts, most, known, work)?;
    }
    Ok(())
}
