// A register of four bits that bits are shifted into, from 0000 and 1000: which contents it comes to.
ghost use Rattle.std.specs.Prelude.{◌+◌, ◌*◌, ◌%◌, true, ◌==◌};

use crate::{Reached, System, sweep};
use budget::{Exhausted, Work};

#[derive(Clone, Copy)]
struct Register {
    bad: u64,
}

impl System for Register {
    ghost model = { λ s. record { count = 16; good = λ p. true; next = λ p b. (2 * p + b) % 16; bad = λ p. (p == s.bad); starts = 2; start = λ i. 8 * i } };

    fn count(&self) -> u64 {
        16
    }

    fn starts(&self) -> u64 {
        2
    }

    fn start(&self, i: u64) -> u64 {
        8 * i
    }

    fn after(&self, p: u64, bit: u64) -> u64 {
        (2 * p + bit) % 16
    }

    fn is_bad(&self, p: u64) -> bool {
        p == self.bad
    }
}

type Ended = Result<Option<Reached>, Exhausted>;

const CLEAN: Ended = Ok(None);

const REACHED: Ended = Ok(Some(Reached { start: 8, at: 11 }));

const EXHAUSTED: Ended = Err(Exhausted);

// What is bad, the work, how it ends, what is left. The tables have 9 words, and the gap 2.
const ROWS: [(&'static str, u64, u64, Ended, u64); 7] = [
    ("nothing is bad", 16, 100, CLEAN, 63),
    ("just enough for that", 16, 37, CLEAN, 0),
    ("one turn too few", 16, 36, EXHAUSTED, 0),
    ("0101 is bad", 5, 100, REACHED, 79),
    ("just enough for that", 5, 21, REACHED, 0),
    ("one turn too few", 5, 20, EXHAUSTED, 0),
    ("a start is bad", 8, 100, REACHED, 95),
];

#[test]
fn ends(rt: HostRuntime) {
    for (what, bad, work, found, left) in ROWS {
        let mut room = [7u64; 13];
        let mut work = Work { left: work };
        let ended = sweep(&Register { bad }, &mut work, &mut room, 2);
        assert_eq!(rt; ended, found, "{}", what);
        assert_eq!(rt; work.left, left, "{}", what);
    }
}

#[test]
fn message(rt: HostRuntime) {
    let mut room = [7u64; 13];
    let mut work = Work { left: 100 };
    let _ = sweep(&Register { bad: 5 }, &mut work, &mut room, 2);
    assert_eq!(rt; room[9], 7, "the gap");
    assert_eq!(rt; room[11], 3);
    assert_eq!(rt; room[12], 0b101);
}

// Three words are to be cleared, a turn each.
#[test]
fn clears_as_far_as_the_work_goes(rt: HostRuntime) {
    for (had, cleared) in [(0u64, 0usize), (2, 2), (3, 3)] {
        let mut room = [7u64; 13];
        let mut work = Work { left: had };
        let ended = sweep(&Register { bad: 16 }, &mut work, &mut room, 2);
        assert_eq!(rt; ended, EXHAUSTED);
        assert_eq!(rt; work.left, 0);
        for (i, word) in room.iter().enumerate() {
            assert_eq!(rt; *word, if i < cleared { 0 } else { 7 }, "{}", had);
        }
    }
}

#[test]
fn one_word_too_few(rt: HostRuntime) {
    let mut room = [7u64; 12];
    let mut work = Work { left: 100 };
    let ended = sweep(&Register { bad: 5 }, &mut work, &mut room, 2);
    assert_eq!(rt; ended, EXHAUSTED);
    assert_eq!(rt; work.left, 100);
}
