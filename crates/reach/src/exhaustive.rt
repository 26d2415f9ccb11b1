// The whole sweep: the starts, all that they lead to, and if that is bad the message that leads there.
ghost use Rattle.std.specs.Prelude.{◌≡◌, ◌+◌, ◌*◌, ◌^◌, ◌<◌, ◌≤◌, length};
ghost use Rattle.reach.specs.Ended.{Ended, sets_words, table_words};
ghost use Rattle.reach.specs.Sought.{Sought};

use crate::explore::{explore, seed};
use crate::layout::{set_words, table_words};
use crate::system::System;
use crate::tables::Tables;
use crate::way::{spell, trace};
use budget::{Exhausted, Work};

// From this start the message that stands in the room at `at` leads to a bad configuration.
#[derive(Clone, Copy, PartialEq, Eq, Debug)]
pub struct Reached {
    pub start: u64,
    pub at: usize,
}

// Sweeps with the tables in one part of the room and the message in another. Gives the start that the message leads from.
fn search<S: System>(
    system: &S,
    count: u64,
    work: &mut Work,
    front: &mut [u64],
    message: &mut [u64],
) -> Result<Option<u64>, Exhausted>
    requires size { count ≡ (S.model system.now).count }
    requires small { count ≤ 2 ^ 60 }
    requires tables { table_words (S.model system.now).count ≤ length front.old }
    requires message { sets_words (S.model system.now).count < length message.old }
    ensures answer { Sought (S.model system.now) work.old.left work.new.left message.new result }
    ensures spent { work.new.left ≤ work.old.left }
{
    // a turn for each word of the three sets, which are cleared: where fewer turns are left, so many of the words are
    let turns = 3 * set_words(count);
    if work.left < turns {
        front[..work.left as usize].fill(0);
    }
    work.spend(turns)?;
    let mut tables = Tables::new(count, front);
    let mut bad = seed(system, &mut tables, work)?;
    let roots = tables.tail;
    if bad.is_none() {
        bad = explore(system, &mut tables, work)?;
    }
    let Some(last) = bad else {
        return Ok(None);
    };
    let root = trace(system, &mut tables, roots, last, work)?;
    spell(&tables, root, last, message, work)?;
    Ok(Some(tables.entry(root) / 2))
}

// Goes through all configurations that bits lead to from a start, with so much work and in this room: is any of them bad?
// An error says that the work is used up, or that the room is too small; then the work stays whole. The `gap` words after the tables are left
// for the caller, and the message stands behind them. Enough is 6 turns for each configuration and 8, and the words of the tables and the message.
pub fn sweep<S: System>(
    system: &S,
    work: &mut Work,
    room: &mut [u64],
    gap: u16,
) -> Result<Option<Reached>, Exhausted>
    ensures answer { Ended (S.model system.now) work.old.left work.new.left gap room.new result }
    ensures spent { work.new.left ≤ work.old.left }
{
    let count = system.count();
    let at = table_words(count) as usize + gap as usize;
    if room.len() < at + 1 + set_words(count) as usize {
        return Err(Exhausted);
    }
    let (front, message) = room.split_at_mut(at);
    // not by `map`: what that gives is read by cases, in a lemma of its own
    match search(system, count, work, front, message)? {
        None => Ok(None),
        Some(start) => Ok(Some(Reached { start, at })),
    }
}
