// What is known of the bits: by representatives, and by what was assumed, on a trail by which that is undone.
ghost use Rattle.std.specs.Prelude.{◌≤◌, length};

use crate::bits::{Bit, UNKNOWN, resolve};
use crate::literal::Literal;
use crate::stack::Full;
use crate::stop::Stop;
use crate::trail::take_back;

/// What is known of the bits.
#[derive(Drop)]
pub struct Known<'a> {
    /// For each position 0, 1, or 2 + a position with the same bit. It may be short: a position beyond it stands for itself.
    pub rep: &'a [u64],
    /// 0, 1 or UNKNOWN.
    pub value: &'a mut [u64],
    /// The positions that were assumed, up to `depth`. Not a `Stack`: of lent room in a struct in a struct a caller would not know what it holds afterwards.
    pub trail: &'a mut [u64],
    pub depth: usize,
    pub ghost within: { depth ≤ length trail.now },
}

impl<'a> Known<'a> {
    ghost use Rattle.std.specs.Prelude.{◌≡◌, ℕ, ◌<◌, ◌≤◌, Bool, ◌⊎◌, List, length, min, take, replicate, slice_index, IsErrOf};
    ghost use Rattle.clauses.specs.Clauses.{bit, Sat};
    ghost use Rattle.clauses.specs.Known.{Allows, Resolved, Kept, Undone};
    ghost use Rattle.clauses.specs.Steps.{After};

    /// What is known with the first `depth` numbers on the trail, or all.
    pub fn new(
        rep: &'a [u64],
        value: &'a mut [u64],
        trail: &'a mut [u64],
        depth: usize,
    ) -> Known<'a>
        ensures same_value { result.value.ghost_name ≡ value.entry.ghost_name }
        ensures same_trail { result.trail.ghost_name ≡ trail.entry.ghost_name }
        ensures room { (result.rep.now ≡ rep.now) × ((result.value.now ≡ value.old) × (result.trail.now ≡ trail.old)) }
        ensures depth { result.depth ≡ min depth (length trail.old) }
    {
        let n = depth.min(trail.len());
        Known {
            rep,
            value,
            trail,
            depth: n,
        }
    }

    /// The positions that were assumed, in order.
    pub fn assumed(&self) -> &[u64]
        ensures { result.now ≡ take self.now.depth self.now.trail.now }
    {
        &self.trail[..self.depth]
    }

    /// What is known of position p, if its numbers are as they should be.
    pub fn resolve(&self, p: usize) -> Option<Bit>
        ensures { Resolved self.now.rep.now self.now.value.now p result }
    {
        resolve(self.rep, self.value, p)
    }

    /// Position q, which is unknown, has the bit b from now on.
    #[tactic(auto, unfolding(crate::specs::Clauses::bit))]
    pub(crate) fn push(&mut self, q: usize, b: bool) -> Result<(), Full>
        requires { (q < length self.old.value.now) × (slice_index self.old.value.now q ≡ 2) }
        ensures kept { Kept self.old self.new }
        ensures after { (v : ℕ → Bool) → Allows self.old v → bit (v q) ≡ bit b → Allows self.new v }
    {
        if self.depth >= self.trail.len() {
            return Err(Full);
        }
        self.trail[self.depth] = q as u64;
        self.value[q] = b as u64;
        self.depth += 1;
        Ok(())
    }

    /// Position p has the bit b from now on. There is a conflict if it has the other.
    #[tactic(auto, unfolding(crate::specs::Clauses::bit))]
    pub fn assume(&mut self, p: usize, b: bool) -> Result<(), Stop>
        ensures kept { Kept self.old self.new }
        ensures after { (v : ℕ → Bool) → Allows self.old v → bit (v p) ≡ bit b → After self.new v result }
        ensures free { IsErrOf result Stop.Exhausted → ⊥ }
    {
        match self.resolve(p) {
            Some(Bit::Known(c)) => { if c == b { Ok(()) } else { Err(Stop::Conflict) } }
            Some(Bit::Open(q)) => Ok(self.push(q, b)?),
            None => Err(Stop::Refused),
        }
    }

    /// The literals of the clause are false from now on.
    pub fn deny(&mut self, clause: &[u64]) -> Result<(), Stop>
        ensures kept { Kept self.old self.new }
        ensures after { (v : ℕ → Bool) → Allows self.old v → Sat v clause.now ⊎ After self.new v result }
        ensures free { IsErrOf result Stop.Exhausted → ⊥ }
    {
        for l in clause {
            let l = Literal::from(*l);
            self.assume(l.position, l.negated)?;
        }
        Ok(())
    }

    /// Takes back what was assumed from base on.
    pub fn undo(&mut self, base: usize)
        ensures { Undone self.old base self.new }
    {
        take_back(&self.trail, self.value, base, self.depth);
        self.depth = self.depth.min(base);
    }

    /// All bits are unknown from now on, and none was assumed.
    pub fn forget(&mut self)
        ensures rep { self.new.rep ≡ self.old.rep }
        ensures value { self.new.value.ghost_name ≡ self.old.value.ghost_name }
        ensures trail { self.new.trail ≡ self.old.trail }
        ensures bits { self.new.value.now ≡ replicate (length self.old.value.now) 2 }
        ensures depth { self.new.depth ≡ 0 }
    {
        self.value.fill(UNKNOWN);
        self.depth = 0;
    }
}
