//! Whether a clause follows from others for all bits, by trying: nothing that is found is believed until it was checked.
// Read survey (are premises and goal as they should be), search (a question with the lemmas that are learned), propagate (bits that are forced, and tried;
// reason says why), learn (what a conflict rests on), hunt (until the goal is shown or bits are found), evaluate and confirm (what is believed of that), and
// then `follows` here.
#![tactic(auto)]

ghost use Rattle.std.specs.Prelude.{◌≡◌, ℕ, ◌<◌, ◌≤◌, List, length, IfErr, OnOk};
ghost use Rattle.entails.specs.Answers.{Answered, Lacks, Right, SameRoom, outcome_of};
ghost use Rattle.entails.specs.Searches.{Learned};
ghost use Rattle.entails.specs.Layouts.{Laid};
ghost use Rattle.entails.specs.declared.Lack.TheVariants.{Work as NoWork};

use crate::confirm::confirm;
use crate::evaluate::refutes;
use crate::hunt::{Found, hunt};
use crate::search::Search;
use crate::survey::survey;
use budget::{Exhausted, Work};

mod confirm;
mod evaluate;
mod hunt;
mod learn;
mod propagate;
mod reason;
mod search;
mod survey;
#[cfg(test)]
mod tests;

/// What there was too little of.
#[derive(Clone, Copy, PartialEq, Eq, Debug)]
pub enum Lack {
    Work,
    Numbers,
    Starts,
    Value,
    Trail,
    Reason,
}

impl From<Exhausted> for Lack {
    ghost from_gives = { λ _ lack. lack ≡ NoWork };

    fn from(_: Exhausted) -> Lack {
        Lack::Work
    }
}

/// How it ends. Yes and no are both answers, no failures.
#[derive(Clone, Copy, PartialEq, Eq, Debug)]
pub enum Outcome {
    Yes,
    No,
    Exhausted(Lack),
    Malformed,
}

/// Whether the clause at `goal` follows from those at starts[..count]. All of these stand below `used`; what is behind is lent room, for lemmas.
#[derive(Drop)]
pub struct Question<'a> {
    pub numbers: &'a mut [u64],
    pub used: usize,
    pub starts: &'a mut [u64],
    pub count: usize,
    pub goal: usize,
}

/// Room to look for an answer: `value` has a number for each position, and the others as many or more.
#[derive(Drop)]
pub struct Room<'a> {
    pub value: &'a mut [u64],
    pub trail: &'a mut [u64],
    pub reason: &'a mut [u64],
}

/// An outcome, with what is left of work and room.
#[derive(Clone, Copy, PartialEq, Eq, Debug)]
pub struct Answer {
    pub outcome: Outcome,
    /// The index after what was learned: after a yes, the lemmas stand from the question's `used` on (their number, then each as a clause and its hints), and
    /// then the goal's hints.
    pub used: usize,
    /// How many starts there are with those of the lemmas.
    pub count: usize,
    pub left: u64,
}

/// Answers a question, which stays as it was asked.
pub fn follows(question: &mut Question, room: &mut Room, work: u64) -> Answer
    ensures { Right question.old room.old work question.new room.new result }
{
    let mut work = Work { left: work };
    if let Err(unfit) = survey(question, room.value.len(), &mut work) {
        return Answer {
            outcome: Outcome::from(unfit),
            used: question.used,
            count: question.count,
            left: work.left,
        };
    }
    let mut search = Search {
        numbers: question.numbers,
        used: question.used,
        starts: question.starts,
        count: question.count,
        at: question.used,
        given: question.count,
        goal: question.goal,
    };
    let outcome = match seek(&mut search, room, &mut work) {
        Ok(Found::Shown) => Outcome::Yes,
        Ok(Found::Model) => Outcome::No,
        Err(lack) => Outcome::Exhausted(lack),
    };
    Answer {
        outcome,
        used: search.used,
        count: search.count,
        left: work.left,
    }
}

// Whether there is room to begin.
fn enough(search: &Search, room: &Room) -> Result<(), Lack>
    ensures enough { OnOk result (search.now.used < length search.now.numbers.now) }
    ensures lack { IfErr result (λ lack. (count' left : ℕ) → Lacks search.now.numbers.now search.now.starts.now search.now.count search.now.goal room.now.value.now room.now.trail.now room.now.reason.now search.now.used count' left lack) }
{
    if search.used == search.numbers.len() {
        Err(Lack::Numbers)
    } else if room.trail.len() < room.value.len() {
        Err(Lack::Trail)
    } else if room.reason.len() < room.value.len() {
        Err(Lack::Reason)
    } else {
        Ok(())
    }
}

// Hunts, and checks what is found. What is not confirmed counts as all work used.
fn seek(search: &mut Search, room: &mut Room, work: &mut Work) -> Result<Found, Lack>
    requires laid { Laid search.old.numbers.now search.old.used search.old.starts.now search.old.count search.old.goal }
    requires begins { (search.old.at ≡ search.old.used) × (search.old.given ≡ search.old.count) }
    ensures right { Answered search.old.numbers.now search.old.used search.old.starts.now search.old.count search.old.goal room.old.value.now room.old.trail.now room.old.reason.now room.new.value.now search.new.used search.new.count work.new.left (outcome_of result) }
    ensures learned { Learned search.old search.new }
    ensures back { SameRoom room.old room.new }
    ensures less { work.new.left ≤ work.old.left }
{
    enough(search, room)?;
    let found = hunt(search, room.value, room.trail, room.reason, work)?;
    let believed = match found {
        Found::Shown => confirm(search, room.value, room.trail, work),
        Found::Model => refutes(search, room),
    };
    if !believed {
        work.left = 0;
        return Err(Lack::Work);
    }
    Ok(found)
}
