// The trail by which what was assumed is undone, as plain numbers: it may be one that is shared.
ghost use Rattle.clauses.specs.Known.{TakenBack};

use crate::bits::UNKNOWN;

/// Takes back the bits that were assumed from base to depth. By a trail that is shorter nothing is.
pub fn undo(value: &mut [u64], trail: &[u64], base: usize, depth: usize)
    ensures { TakenBack value.old trail.now base depth value.new }
{
    if depth > trail.len() {
        return;
    }
    for d in (base..depth).rev() {
        let q = trail[d] as usize;
        if q < value.len() {
            value[q] = UNKNOWN;
        }
    }
}

// The same by a trail as it stands in what is known: of a slice that is lent out of it beside the bits, nothing would be known afterwards.
pub(crate) fn take_back(trail: &&mut [u64], value: &mut [u64], base: usize, depth: usize)
    ensures { TakenBack value.old trail.now.now base depth value.new }
{
    undo(value, trail, base, depth);
}
