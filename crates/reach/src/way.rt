// The way back from a bad entry to a start, and the message that leads along it.
ghost use Rattle.std.specs.Prelude.{◌≡◌, ℕ, ◌+◌, ◌<◌, ◌≤◌, true, length};
ghost use Rattle.reach.specs.Ended.{sets_words};
ghost use Rattle.reach.specs.Tables.{odd_in, path, entry};
ghost use Rattle.reach.specs.Held.{conf, steps};
ghost use Rattle.reach.specs.Phases.{Caught};
ghost use Rattle.reach.specs.Ways.{Traced, Spelt};

use crate::system::System;
use crate::tables::Tables;
use budget::{Exhausted, Work};

// Is entry j a parent of entry k: at a depth of the other parity, and led to k by its bit?
fn is_parent<S: System>(system: &S, tables: &Tables, j: usize, k: usize) -> bool
    requires size { tables.now.count ≡ (S.model system.now).count }
    requires within { (j < tables.now.count) × (k < tables.now.count) }
    requires good { (S.model system.now).good (conf (entry tables.now) j) ≡ true }
    requires below { conf (entry tables.now) j < (S.model system.now).count }
    ensures { result ≡ steps (S.model system.now) (odd_in tables.now) (entry tables.now) j k }
{
    if tables.is_odd(j) == tables.is_odd(k) {
        return false;
    }
    let entry = tables.entry(k);
    system.after(tables.entry(j) / 2, entry % 2) == entry / 2
}

// Marks the entries on the way, going down the queue once, a turn for each entry. Gives the first of them, a start.
// No parent links, which would cost a word for each entry: the first entry below of the other parity that leads to this one is a parent.
// Depths only rise along the queue, so it is one step nearer to a start, and the message as short as can be; that is not proved.
pub fn trace<S: System>(
    system: &S,
    tables: &mut Tables,
    roots: usize,
    last: usize,
    work: &mut Work,
) -> Result<usize, Exhausted>
    requires { Caught (S.model system.now) tables.old roots last }
    ensures { Traced (S.model system.now) work.old.left work.new.left tables.new last result }
{
    tables.mark(last);
    let mut k = last;
    for j in (0..last).rev() {
        if k < roots {
            break;
        }
        work.spend(1)?;
        if is_parent(system, tables, j, k) {
            tables.mark(j);
            k = j;
        }
    }
    Ok(k)
}

// Writes the bits of the entries on the way after `root`, and before them how many they are.
// A turn goes on to the next word or takes the next entry on the way, so that no `for` counts them.
pub fn spell(
    tables: &Tables,
    root: usize,
    last: usize,
    message: &mut [u64],
    work: &mut Work,
) -> Result<(), Exhausted>
    requires inside { last < tables.now.count }
    requires fits { sets_words tables.now.count < length message.old }
    requires below { root ≤ last }
    requires top { path tables.now last ≡ true }
    ensures { Spelt work.old.left work.new.left tables.now root last message.new result }
{
    let mut next = root + 1;
    let mut len = 0;
    while next <= last {
        work.spend(1)?;
        match tables.next_on_way(next) {
            None => {
                next = 64 * (next / 64 + 1);
            }
            Some(k) => {
                let bit = tables.entry(k) % 2;
                rows::put(message, 1, len, bit == 1);
                len += 1;
                next = k + 1;
            }
        }
    }
    message[0] = len as u64;
    Ok(())
}
