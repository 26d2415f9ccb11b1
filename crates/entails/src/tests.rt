// Clauses and goals, with the outcome of each.
use crate::{Answer, Lack, Outcome, Question, Room, follows};

// Not `copy_from_slice`, which would have to be given as many: of what a test is given that is not known.
fn fill(numbers: &mut [u64], from: &[u64]) {
    for (to, x) in numbers.iter_mut().zip(from) {
        *to = *x;
    }
}

// Of clauses one after the other, the last is the goal.
fn run(clauses: &[u64], starts: &[u64], goal: usize, work: u64, value: &mut [u64]) -> Answer {
    let mut numbers = [0u64; 100];
    let mut begins = [0u64; 20];
    let mut trail = [0u64; 6];
    let mut reason = [0u64; 6];
    fill(&mut numbers, clauses);
    fill(&mut begins, starts);
    let mut question = Question {
        numbers: &mut numbers,
        used: clauses.len(),
        starts: &mut begins,
        count: starts.len(),
        goal,
    };
    let mut room = Room {
        value,
        trail: &mut trail,
        reason: &mut reason,
    };
    follows(&mut question, &mut room, work)
}

// Bits 0 and 1: one holds, but not both, and not neither.
const ALL_FOUR: [u64; 13] = [2, 0, 2, 2, 0, 3, 2, 1, 2, 2, 1, 3, 0];
// Bit 2 p + h: pigeon p of 3 sits in hole h of 2, and no two sit in one.
const PIGEONS: [u64; 28] = [
    2, 0, 2, 2, 4, 6, 2, 8, 10, 2, 1, 5, 2, 1, 9, 2, 5, 9, 2, 3, 7, 2, 3, 11, 2, 7, 11, 0,
];

#[test]
fn outcomes(rt: HostRuntime) {
    let rows: [(&str, &[u64], &[u64], usize, u64, Outcome); 8] = [
        (
            "a contradiction that needs a lemma",
            &ALL_FOUR,
            &[0, 3, 6, 9],
            12,
            1000,
            Outcome::Yes,
        ),
        (
            "three of the four",
            &ALL_FOUR,
            &[0, 3, 6],
            12,
            1000,
            Outcome::No,
        ),
        (
            "pigeons",
            &PIGEONS,
            &[0, 3, 6, 9, 12, 15, 18, 21, 24],
            27,
            1000,
            Outcome::Yes,
        ),
        (
            "pigeons, one apart less",
            &PIGEONS,
            &[0, 3, 6, 9, 12, 15, 18, 21],
            27,
            1000,
            Outcome::No,
        ),
        (
            "pigeons, with little work",
            &PIGEONS,
            &[0, 3, 6, 9, 12, 15, 18, 21, 24],
            27,
            60,
            Outcome::Exhausted(Lack::Work),
        ),
        (
            "a bit or its negation",
            &[2, 0, 1],
            &[],
            0,
            1000,
            Outcome::Yes,
        ),
        (
            "a start beyond the numbers",
            &ALL_FOUR,
            &[0, 13],
            12,
            1000,
            Outcome::Malformed,
        ),
        (
            "a seventh bit",
            &[1, 12],
            &[],
            0,
            1000,
            Outcome::Exhausted(Lack::Value),
        ),
    ];
    for (what, clauses, starts, goal, work, expected) in rows {
        let answer = run(clauses, starts, goal, work, &mut [2; 6]);
        assert_eq!(rt; answer.outcome, expected, "{}", what);
    }
}

#[test]
fn bits_that_refute(rt: HostRuntime) {
    let mut value = [2; 6];
    // 0 or 1, and 1 if 0: does 0 follow?
    let answer = run(&[2, 0, 2, 2, 1, 2, 1, 0], &[0, 3], 6, 1000, &mut value);
    assert_eq!(rt; answer.outcome, Outcome::No);
    assert_eq!(rt; value[0], 0);
    assert_eq!(rt; value[1], 1);
}

// Of a goal that holds of all bits, in numbers that are lent: behind it come the lemmas' number, the hints' length and a hint.
fn holds_of_all(numbers: &mut [u64]) -> Outcome {
    fill(numbers, &[2, 0, 1]);
    let mut question = Question {
        numbers,
        used: 3,
        starts: &mut [],
        count: 0,
        goal: 0,
    };
    let mut room = Room {
        value: &mut [2],
        trail: &mut [0],
        reason: &mut [0],
    };
    follows(&mut question, &mut room, 100).outcome
}

#[test]
fn numbers_filled_to_the_last(rt: HostRuntime) {
    assert_eq!(rt; holds_of_all(&mut [0; 7]), Outcome::Yes);
    assert_eq!(rt;
        holds_of_all(&mut [0; 6]),
        Outcome::Exhausted(Lack::Numbers)
    );
}
