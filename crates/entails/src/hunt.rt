// Lemmas are learned until the goal is shown, or bits are found. Nothing of this is believed: what it owes is that it ends, and leaves what it was given.
ghost use Rattle.std.specs.Prelude.{◌≡◌, ℕ, ◌<◌, ◌≤◌, length, IfErr};
ghost use Rattle.entails.specs.Searches.{Learned, ShortOf};

use crate::Lack;
use crate::learn::learn;
use crate::propagate::Tries;
use crate::search::Search;
use budget::Work;

#[derive(Clone, Copy, PartialEq, Eq, Debug)]
pub enum Found {
    /// The goal follows.
    Shown,
    /// These bits refute it.
    Model,
}

// One attempt, and what is learned of it: one more lemma where nothing is found.
fn turn(search: &mut Search, tries: &mut Tries, work: &mut Work) -> Result<Option<Found>, Lack>
    ensures learned { Learned search.old search.new }
    ensures less { work.new.left ≤ work.old.left }
    ensures lack { IfErr result (λ lack. ShortOf search.new work.new.left lack) }
{
    work.spend(tries.known.value.len() as u64)?;
    let (count, goal) = (search.count, search.goal);
    let Ok(clash) = tries.attempt(&search.first(count), goal, work) else {
        // Room for trail and reasons was asked for before, so only work can be short.
        work.left = 0;
        return Err(Lack::Work);
    };
    let Some(premise) = clash else {
        return Ok(Some(Found::Model));
    };
    learn(search, tries, premise, work)
}

// Turns, while there is work.
fn turns(search: &mut Search, tries: &mut Tries, work: &mut Work) -> Result<Found, Lack>
    ensures learned { Learned search.old search.new }
    ensures less { work.new.left ≤ work.old.left }
    ensures lack { IfErr result (λ lack. ShortOf search.new work.new.left lack) }
{
    loop {
        work.spend(1)?;
        if let Some(found) = turn(search, tries, work)? {
            return Ok(found);
        }
    }
}

/// Looks for a way to show the goal, or for bits that refute it. Room is lent slice by slice, each of which is then known to keep its length.
pub fn hunt(
    search: &mut Search,
    value: &mut [u64],
    trail: &mut [u64],
    reason: &mut [u64],
    work: &mut Work,
) -> Result<Found, Lack>
    requires begins { (search.old.at ≡ search.old.used) × (search.old.given ≡ search.old.count) }
    ensures learned { Learned search.old search.new }
    ensures less { work.new.left ≤ work.old.left }
    ensures lack { IfErr result (λ lack. ShortOf search.new work.new.left lack) }
{
    // The lemmas' number is written at the end: till then the room is as it was lent.
    search.skip()?;
    let found = turns(search, &mut Tries::new(value, trail, reason), work);
    search.numbers[search.at] = (search.count - search.given) as u64;
    found
}
