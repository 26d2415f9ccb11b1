// Why a bit stands on the trail. In lent room it is a number: that of the premise that forced it, or one of three.

#[derive(Clone, Copy, PartialEq, Eq, Debug)]
pub enum Reason {
    /// The goal is false without it.
    Denied,
    Tried,
    /// A conflict does not rest on it.
    Idle,
    /// The premise of this number left no other.
    Forced(usize),
}

const DENIED: u64 = u64::MAX;

const TRIED: u64 = u64::MAX - 1;

const IDLE: u64 = u64::MAX - 2;

impl From<u64> for Reason {
    fn from(x: u64) -> Reason {
        match x {
            DENIED => Reason::Denied,
            TRIED => Reason::Tried,
            IDLE => Reason::Idle,
            c => Reason::Forced(c as usize),
        }
    }
}

impl From<Reason> for u64 {
    fn from(why: Reason) -> u64 {
        match why {
            Reason::Denied => DENIED,
            Reason::Tried => TRIED,
            Reason::Idle => IDLE,
            Reason::Forced(c) => c as u64,
        }
    }
}
