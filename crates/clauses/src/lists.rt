// Lists in lent numbers: a length, and then so many numbers.
ghost use Rattle.std.specs.Prelude.{◌≡◌, ℕ, ◌+◌, ◌-◌, ◌<◌, ◌≤◌, length, slice_index, MatchOption};
ghost use Rattle.clauses.specs.Clauses.{Stands, clause_at};

/// The list at s, if its length and all that it counts stand in the numbers.
pub fn list_at(numbers: &[u64], s: usize) -> Option<&[u64]>
    ensures { MatchOption result (Stands numbers.now s → ⊥) (λ list. (Stands numbers.now s) × (list.now ≡ clause_at numbers.now s)) }
{
    let n = *numbers.get(s)?;
    numbers[s + 1..].get(..n as usize)
}

/// Lists that stand one after the other, read from `at` on. All numbers are kept, and no rest, since a lemma is known by where it stands.
#[derive(Clone, Copy)]
pub struct Lists<'a> {
    pub numbers: &'a [u64],
    pub at: usize,
}

impl<'a> Lists<'a> {
    /// The next list. Where none stands nothing is read.
    pub fn next(&mut self) -> Option<&'a [u64]>
        ensures same { self.new.numbers ≡ self.old.numbers }
        ensures read { MatchOption result ((Stands self.old.numbers.now self.old.at → ⊥) × (self.new.at ≡ self.old.at)) (λ list. (Stands self.old.numbers.now self.old.at) × ((list.now ≡ clause_at self.old.numbers.now self.old.at) × (self.new.at ≡ self.old.at + 1 + length list.now))) }
    {
        let list = list_at(self.numbers, self.at)?;
        self.at += 1 + list.len();
        Some(list)
    }

    /// The next number, if there is one.
    pub fn number(&mut self) -> Option<u64>
        ensures same { self.new.numbers ≡ self.old.numbers }
        ensures read { MatchOption result ((length self.old.numbers.now ≤ self.old.at) × (self.new.at ≡ self.old.at)) (λ n. (n ≡ slice_index self.old.numbers.now self.old.at) × ((self.old.at < length self.old.numbers.now) × (self.new.at ≡ self.old.at + 1))) }
    {
        let n = *self.numbers.get(self.at)?;
        self.at += 1;
        Some(n)
    }
}
