// Breadth first from the starts: each configuration that is reached stands in the queue once.
// The system, the tables and the work are lent apart: in a struct of the three each method would have to say that its system stays.
ghost use Rattle.std.specs.Prelude.{◌≡◌, ℕ, ◌+◌, ◌*◌, ◌<◌, ◌≤◌, true, false};
ghost use Rattle.reach.specs.Sets.{blanks};
ghost use Rattle.reach.specs.Tables.{seen, Empty, Pushed};
ghost use Rattle.reach.specs.Phases.{Going, Seeded, Explored};

use crate::system::System;
use crate::tables::Tables;
use budget::{Exhausted, Work};

// A configuration that is not seen yet comes into the queue. Is it bad?
fn enter<S: System>(system: &S, tables: &mut Tables, q: u64, bit: u64, odd: bool) -> bool
    requires size { tables.old.count ≡ (S.model system.now).count }
    requires spare { tables.old.tail + blanks (seen tables.old) tables.old.count ≡ tables.old.count }
    requires fresh { seen tables.old q ≡ false }
    requires good { (S.model system.now).good q ≡ true }
    requires below { q < (S.model system.now).count }
    requires bit { bit < 2 }
    ensures pushed { Pushed tables.old tables.new q (2 * q + bit) odd }
    ensures bad { result ≡ (S.model system.now).bad q }
{
    tables.push(q, bit, odd);
    system.is_bad(q)
}

// The starts come into the queue, a turn each. Gives the entry that is bad, if one is.
pub fn seed<S: System>(
    system: &S,
    tables: &mut Tables,
    work: &mut Work,
) -> Result<Option<usize>, Exhausted>
    requires { Empty tables.old (S.model system.now).count }
    ensures { Seeded (S.model system.now) work.old.left work.new.left tables.new result }
{
    for i in 0..system.starts() {
        work.spend(1)?;
        let q = system.start(i);
        let tail = tables.tail;
        if !tables.is_seen(q) && enter(system, tables, q, 0, false) {
            return Ok(Some(tail));
        }
    }
    Ok(None)
}

// Each bit of each entry is tried, in the order of the queue, a turn each. Gives the entry that is bad, if one is.
// One counter for both, since the queue grows as it is gone through: turn `done` has entry done / 2 and bit done % 2.
pub fn explore<S: System>(
    system: &S,
    tables: &mut Tables,
    work: &mut Work,
) -> Result<Option<usize>, Exhausted>
    requires { Going (S.model system.now) tables.old tables.old.tail (S.model system.now).starts 0 }
    ensures { Explored (S.model system.now) work.old.left work.new.left tables.old.tail tables.new result }
{
    let mut done = 0;
    while done < 2 * tables.tail {
        work.spend(1)?;
        let bit = (done % 2) as u64;
        let q = system.after(tables.entry(done / 2) / 2, bit);
        let tail = tables.tail;
        if !tables.is_seen(q) {
            let odd = !tables.is_odd(done / 2);
            if enter(system, tables, q, bit, odd) {
                return Ok(Some(tail));
            }
        }
        done += 1;
    }
    Ok(None)
}
