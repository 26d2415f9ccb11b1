// The premises: clauses that are found by where they start.
ghost use Rattle.std.specs.Prelude.{◌≡◌, ℕ, ◌<◌, length, slice_index, MatchOption};
ghost use Rattle.clauses.specs.Clauses.{Stands, clause_at};

use crate::lists::list_at;

/// As `most`, where no clause is too long.
pub const NO_LIMIT: u64 = u64::MAX;

/// Clauses in lent numbers. One of `most` literals or more is not looked at; where `most` is 0, none is.
#[derive(Clone, Copy)]
pub struct Premises<'a> {
    pub numbers: &'a [u64],
    pub starts: &'a [u64],
    pub most: u64,
}

impl<'a> Premises<'a> {
    /// The clause at s, if it stands and is short enough to be looked at.
    pub fn clause(&self, s: usize) -> Option<&'a [u64]>
        ensures { MatchOption result (Stands self.now.numbers.now s → length (clause_at self.now.numbers.now s) < self.now.most → ⊥) (λ clause. (Stands self.now.numbers.now s) × ((clause.now ≡ clause_at self.now.numbers.now s) × (length clause.now < self.now.most))) }
    {
        let clause = list_at(self.numbers, s)?;
        // Not `filter`: what it keeps was not proved.
        if (clause.len() as u64) < self.most {
            Some(clause)
        } else {
            None
        }
    }

    /// Premise c, likewise.
    pub fn get(&self, c: usize) -> Option<&'a [u64]>
        ensures { MatchOption result (c < length self.now.starts.now → Stands self.now.numbers.now (slice_index self.now.starts.now c) → length (clause_at self.now.numbers.now (slice_index self.now.starts.now c)) < self.now.most → ⊥) (λ clause. (c < length self.now.starts.now) × ((clause.now ≡ clause_at self.now.numbers.now (slice_index self.now.starts.now c)) × (length clause.now < self.now.most))) }
    {
        self.clause(*self.starts.get(c)? as usize)
    }
}
