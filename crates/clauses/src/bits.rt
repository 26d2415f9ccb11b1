// What is known of a position's bit, by its representative and by what was assumed.
ghost use Rattle.clauses.specs.Known.{Resolved};

/// In `value`, of a bit that is not known: lent room is numbers.
pub const UNKNOWN: u64 = 2;

/// What is known of a position.
#[derive(Clone, Copy, PartialEq, Eq, Debug)]
pub enum Bit {
    Known(bool),
    /// Unknown, and equal to the bit at this position.
    Open(usize),
}

#[tactic(auto, unfolding(crate::specs::Clauses::bit))]
fn valued(rep: &[u64], value: &[u64], q: usize) -> Option<Bit>
    ensures { Resolved rep.now value.now q result }
{
    match *value.get(q)? {
        0 => Some(Bit::Known(false)),
        1 => Some(Bit::Known(true)),
        UNKNOWN => Some(Bit::Open(q)),
        _ => None,
    }
}

/// What is known of position p by representatives and values, if these are as they should be.
#[tactic(auto, unfolding(crate::specs::Clauses::bit))]
pub fn resolve(rep: &[u64], value: &[u64], p: usize) -> Option<Bit>
    ensures { Resolved rep.now value.now p result }
{
    match rep.get(p) {
        None => valued(rep, value, p),
        Some(0) => Some(Bit::Known(false)),
        Some(1) => Some(Bit::Known(true)),
        Some(s) => valued(rep, value, (*s - 2) as usize),
    }
}
