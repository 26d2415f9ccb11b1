// What a conflict rests on, written as a lemma with its hints.
ghost use Rattle.std.specs.Prelude.{◌≡◌, ℕ, ◌+◌, ◌-◌, ◌<◌, ◌≤◌, length, slice_index, OnOk, IfErr};
ghost use Rattle.clauses.specs.Clauses.{Stands, clause_at};
ghost use Rattle.entails.specs.Searches.{Learned, ShortOf};

use crate::Lack;
use crate::hunt::Found;
use crate::propagate::Tries;
use crate::reason::Reason;
use crate::search::Search;
use budget::Work;
use clauses::bits::UNKNOWN;
use clauses::known::Known;
use clauses::literal::Literal;
use clauses::premises::Premises;

// In lent room, so a number: a bit that the conflict rests on is marked by 4 more, as all bits are forgotten after it.
const MARK: u64 = 4;

// Marks the bits of the clause at start c. Where that is too dear, or none stands, all work is used up and nothing is marked. For a start that is not there
// nothing is charged.
fn mark(premises: &Premises, known: &mut Known, c: usize, work: &mut Work)
    ensures absent { length premises.now.starts.now ≤ c → work.new.left ≡ work.old.left }
    ensures none { c < length premises.now.starts.now → (Stands premises.now.numbers.now (slice_index premises.now.starts.now c) → ⊥) → work.new.left ≡ 0 }
    ensures price { c < length premises.now.starts.now → let clause = clause_at premises.now.numbers.now (slice_index premises.now.starts.now c) in Stands premises.now.numbers.now (slice_index premises.now.starts.now c) → length clause < premises.now.most → work.new.left ≡ work.old.left - (length clause + 1) }
    ensures less { work.new.left ≤ work.old.left }
{
    let Some(s) = premises.starts.get(c) else {
        return;
    };
    let Some(clause) = premises.clause(*s as usize) else {
        work.left = 0;
        return;
    };
    if work.spend(clause.len() as u64 + 1).is_err() {
        return;
    }
    for l in clause {
        let p = Literal::from(*l).position;
        if p < known.value.len() && known.value[p] < UNKNOWN {
            known.value[p] += MARK;
        }
    }
}

impl Tries<'_> {
    // Why the bit at this depth of the trail is there, if the conflict rests on it.
    fn rests_on(&self, d: usize) -> Option<Reason> {
        let p = *self.known.assumed().get(d)?;
        let why = *self.reason.as_slice().get(d)?;
        if *self.known.value.get(p as usize)? < MARK {
            return None;
        }
        Some(Reason::from(why))
    }

    // Goes down the trail from a premise that is false: whether the conflict rests on a bit that was tried. What it does not rest on is idle. Where work runs
    // out, it goes on to the end all the same, and marks nothing more.
    fn trace(&mut self, premises: &Premises, premise: usize, work: &mut Work) -> bool
        ensures { work.new.left ≤ work.old.left }
    {
        mark(premises, &mut self.known, premise, work);
        let mut tried = false;
        // By depth, down both rows, since one is written.
        for d in (0..self.reason.len).rev() {
            match self.rests_on(d) {
                None => self.reason.set(d, Reason::Idle.into()),
                Some(Reason::Tried) => tried = true,
                Some(Reason::Forced(c)) => mark(premises, &mut self.known, c, work),
                Some(Reason::Denied | Reason::Idle) => {}
            }
        }
        tried
    }

    // Of the bits that were tried and denied, one is not so.
    fn write_clause(&self, search: &mut Search) -> Result<(), Lack>
        ensures learned { Learned search.old search.new }
        ensures left { OnOk result (search.new.used < length search.new.numbers.now) }
        ensures full { IfErr result (λ lack. (lack ≡ Lack.Numbers) × (search.new.used ≡ length search.new.numbers.now)) }
        ensures lemmas { search.new.count ≡ search.old.count }
    {
        let value = &*self.known.value;
        let trail = self.known.assumed();
        let reasons = trail.iter().zip(self.reason.as_slice());
        let literals = reasons.filter_map(|(p, why)| match Reason::from(*why) {
            Reason::Denied | Reason::Tried => Some(u64::from(Literal {
                position: *p as usize,
                negated: *value.get(*p as usize)? % 2 == 1,
            })),
            _ => None,
        });
        search.push_list(literals)
    }

    // The premises that forced what is on the trail, and the one that is false, as hints.
    fn write_hints(&self, search: &mut Search, premise: usize) -> Result<(), Lack>
        ensures learned { Learned search.old search.new }
        ensures left { OnOk result (search.new.used < length search.new.numbers.now) }
        ensures full { IfErr result (λ lack. (lack ≡ Lack.Numbers) × (search.new.used ≡ length search.new.numbers.now)) }
        ensures lemmas { search.new.count ≡ search.old.count }
    {
        let reasons = self.reason.as_slice();
        let forced = reasons.iter().filter_map(|why| match Reason::from(*why) {
            Reason::Forced(c) => Some(c as u64),
            _ => None,
        });
        search.push_list(forced.chain(Some(premise as u64)))
    }
}

/// Writes the lemma of a conflict, or, if it rests on nothing that was tried, the goal's hints, by which it is shown.
pub fn learn(
    search: &mut Search,
    tries: &mut Tries,
    premise: usize,
    work: &mut Work,
) -> Result<Option<Found>, Lack>
    ensures learned { Learned search.old search.new }
    ensures left { OnOk result (search.new.used < length search.new.numbers.now) }
    ensures less { work.new.left ≤ work.old.left }
    ensures lack { IfErr result (λ lack. ShortOf search.new work.new.left lack) }
{
    let count = search.count;
    // All starts that were lent: for a goal that holds of all bits the number is that of the first behind premises and lemmas. Where the room has one more, it is
    // looked at as it was lent: a clause that stands there is charged and marked like a premise, and where none stands all work is used up.
    let starts = search.starts.len();
    if !tries.trace(&search.first(starts), premise, work) {
        tries.write_hints(search, premise)?;
        return Ok(Some(Found::Shown));
    }
    if count == starts {
        return Err(Lack::Starts);
    }
    let at = search.used;
    tries.write_clause(search)?;
    tries.write_hints(search, premise)?;
    search.add(at);
    Ok(None)
}
