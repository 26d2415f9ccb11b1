// A question while an answer is looked for: lemmas are written behind what stands.
ghost use Rattle.std.specs.Prelude.{◌≡◌, ℕ, ◌+◌, ◌<◌, ◌≤◌, length, take, slice_index, OnOk, OnErr, IfErr};
ghost use Rattle.std.specs.Iterator.{IsFinite};
ghost use Rattle.entails.specs.Layouts.{Below};

use crate::Lack;
use clauses::premises::{NO_LIMIT, Premises};

/// The numbers in which all stands, and the starts of premises and lemmas. Flat, not two stacks: of lent room in a struct in a struct one would not know what it
/// holds afterwards.
#[derive(Drop)]
pub struct Search<'a> {
    pub numbers: &'a mut [u64],
    pub used: usize,
    pub starts: &'a mut [u64],
    pub count: usize,
    /// The lemmas stand here: their number, and then each as a clause and its hints; if the goal is shown, its hints follow.
    pub at: usize,
    /// How many of the starts are those of premises.
    pub given: usize,
    pub goal: usize,
    pub ghost written: { used ≤ length numbers.now },
    pub ghost started: { count ≤ length starts.now },
    pub ghost few: { given ≤ count },
    pub ghost stands: { Below numbers.now used goal },
}

impl<'a> Search<'a> {
    ghost use Rattle.entails.specs.Searches.{Learned};

    /// The clauses at the first n starts: of premises and lemmas, and behind these what was lent.
    pub fn first(&self, n: usize) -> Premises
        requires { n ≤ length self.now.starts.now }
        ensures numbers { result.numbers.now ≡ self.now.numbers.now }
        ensures starts { result.starts.now ≡ take n self.now.starts.now }
        ensures most { result.most ≡ u64.MAX }
    {
        Premises {
            numbers: self.numbers,
            starts: &self.starts[..n],
            most: NO_LIMIT,
        }
    }

    /// Goes past one number, which stays as it was lent.
    pub fn skip(&mut self) -> Result<(), Lack>
        ensures learned { Learned self.old self.new }
        ensures same { self.new.numbers ≡ self.old.numbers }
        ensures more { OnOk result (self.new.used ≡ self.old.used + 1) }
        ensures stays { OnErr result (self.new ≡ self.old) }
        ensures full { IfErr result (λ lack. (lack ≡ Lack.Numbers) × (self.new.used ≡ length self.new.numbers.now)) }
        ensures lemmas { self.new.count ≡ self.old.count }
    {
        if self.used >= self.numbers.len() {
            return Err(Lack::Numbers);
        }
        self.used += 1;
        Ok(())
    }

    /// One more number.
    pub fn push(&mut self, x: u64) -> Result<(), Lack>
        ensures learned { Learned self.old self.new }
        ensures more { OnOk result (self.new.used ≡ self.old.used + 1) }
        ensures stays { OnErr result (self.new ≡ self.old) }
        ensures full { IfErr result (λ lack. (lack ≡ Lack.Numbers) × (self.new.used ≡ length self.new.numbers.now)) }
        ensures lemmas { self.new.count ≡ self.old.count }
    {
        let at = self.used;
        self.skip()?;
        self.numbers[at] = x;
        Ok(())
    }

    // One number after the other, as far as there is room.
    fn push_all<I: Iterator<Item = u64> + Drop>(&mut self, items: I) -> Result<(), Lack>
        requires { I.can_next items × IsFinite (I.remaining items) }
        ensures learned { Learned self.old self.new }
        ensures full { IfErr result (λ lack. (lack ≡ Lack.Numbers) × (self.new.used ≡ length self.new.numbers.now)) }
        ensures lemmas { self.new.count ≡ self.old.count }
    {
        for x in items {
            self.push(x)?;
        }
        Ok(())
    }

    /// A list: its length, and then so many numbers. Where the room ends before all are in, those that are in are counted. Room that ends with the last is too
    /// little, too.
    pub fn push_list<I: Iterator<Item = u64> + Drop>(&mut self, items: I) -> Result<(), Lack>
        requires { I.can_next items × IsFinite (I.remaining items) }
        ensures learned { Learned self.old self.new }
        ensures counted { self.old.used < length self.old.numbers.now → self.new.used ≡ self.old.used + 1 + slice_index self.new.numbers.now self.old.used }
        ensures left { OnOk result (self.new.used < length self.new.numbers.now) }
        ensures full { IfErr result (λ lack. (lack ≡ Lack.Numbers) × (self.new.used ≡ length self.new.numbers.now)) }
        ensures lemmas { self.new.count ≡ self.old.count }
    {
        let at = self.used;
        self.push(0)?;
        let end = self.push_all(items);
        self.numbers[at] = (self.used - at - 1) as u64;
        if self.used == self.numbers.len() {
            return Err(Lack::Numbers);
        }
        end
    }

    /// One more lemma, which stands at s.
    pub fn add(&mut self, s: usize)
        requires { self.old.count < length self.old.starts.now }
        ensures learned { Learned self.old self.new }
        ensures used { self.new.used ≡ self.old.used }
    {
        self.starts[self.count] = s as u64;
        self.count += 1;
    }
}
