// Whether premises and goal stand below a limit, and are of positions that there are.
ghost use Rattle.std.specs.Prelude.{◌≡◌, ℕ, ◌≤◌, List, length, Err};
ghost use Rattle.entails.specs.Answers.{Answered};
ghost use Rattle.entails.specs.Surveys.{Scanned, Surveyed};
ghost use Rattle.entails.specs.declared.Question.{Question as Asked};
ghost use Rattle.entails.specs.declared.survey.Unfit.TheVariants.{Worn};

use crate::{Lack, Outcome, Question};
use budget::{Exhausted, Work};
use clauses::lists::list_at;
use clauses::literal::Literal;

/// Why a question is not looked into.
#[derive(Clone, Copy, PartialEq, Eq, Debug)]
pub enum Unfit {
    Malformed,
    /// Of more positions than there are.
    Wide,
    /// The work is used up.
    Worn,
}

impl From<Exhausted> for Unfit {
    ghost from_gives = { λ _ e. e ≡ Worn };

    fn from(_: Exhausted) -> Unfit {
        Unfit::Worn
    }
}

impl From<Unfit> for Outcome {
    ghost from_gives = { λ unfit outcome. (q : Asked) (value trail reason value' : List ℕ) (used' count' left : ℕ) → Surveyed q (length value) left (Err unfit) → Answered q.numbers.now q.used q.starts.now q.count q.goal value trail reason value' used' count' left outcome };

    fn from(unfit: Unfit) -> Outcome {
        match unfit {
            Unfit::Malformed => Outcome::Malformed,
            Unfit::Wide => Outcome::Exhausted(Lack::Value),
            Unfit::Worn => Outcome::Exhausted(Lack::Work),
        }
    }
}

// Looks over the clause at s.
fn scan(numbers: &[u64], s: usize, positions: usize, work: &mut Work) -> Result<(), Unfit>
    ensures layout { Scanned numbers.now s positions work.new.left result }
    ensures less { work.new.left ≤ work.old.left }
{
    let Some(clause) = list_at(numbers, s) else {
        return Err(Unfit::Malformed);
    };
    work.spend(clause.len() as u64 + 1)?;
    if clause
        .iter()
        .any(|l| Literal::from(*l).position >= positions)
    {
        return Err(Unfit::Wide);
    }
    Ok(())
}

/// Looks over premises and goal.
pub fn survey(question: &Question, positions: usize, work: &mut Work) -> Result<(), Unfit>
    ensures layout { Surveyed question.now positions work.new.left result }
    ensures less { work.new.left ≤ work.old.left }
{
    let Some(numbers) = question.numbers.get(..question.used) else {
        return Err(Unfit::Malformed);
    };
    let Some(starts) = question.starts.get(..question.count) else {
        return Err(Unfit::Malformed);
    };
    for s in starts {
        scan(numbers, *s as usize, positions, work)?;
    }
    scan(numbers, question.goal, positions, work)
}
