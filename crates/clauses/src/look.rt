// What a clause says beyond what is known.
ghost use Rattle.std.specs.Prelude.{◌≡◌, ℕ, ◌/◌, ◌%◌, List, [], ◌∷◌, ◌++◌, Some};
ghost use Rattle.clauses.specs.Clauses.{bit};
ghost use Rattle.clauses.specs.Known.{Resolved, Looked};
ghost use Rattle.clauses.specs.declared.known.Known.{Known as Knowledge};

use crate::bits::Bit;
use crate::known::Known;
use crate::literal::Literal;

#[derive(Clone, Copy, PartialEq, Eq, Debug)]
pub enum Look {
    /// Every literal is false.
    Dead,
    /// Every literal but one is false, so that this one holds.
    One { position: usize, value: bool },
    Other,
}

impl Look {
    // What a clause says with one more literal, of which this is known.
    #[tactic(auto, unfolding(crate::specs::Clauses::bit))]
    fn or(self, found: Bit, negated: bool) -> Look
        ensures { (k : Knowledge) (ls : List ℕ) (l : ℕ) → l % 2 ≡ bit negated → Resolved k.rep.now k.value.now (l / 2) (Some found) → Looked k ls self → Looked k (ls ++ (l ∷ [])) result }
    {
        match found {
            Bit::Known(b) if b == negated => self,
            Bit::Known(_) => Look::Other,
            Bit::Open(q) => match self {
                Look::Dead => Look::One {
                    position: q,
                    value: !negated,
                },
                Look::One { position, value } if position == q && value != negated => self,
                _ => Look::Other,
            },
        }
    }

    /// What the clause says.
    pub(crate) fn of(known: &Known, clause: &[u64]) -> Look
        ensures { Looked known.now clause.now result }
    {
        let mut says = Look::Dead;
        for l in clause {
            let l = Literal::from(*l);
            let Some(found) = known.resolve(l.position) else {
                return Look::Other;
            };
            says = says.or(found, l.negated);
        }
        says
    }
}
