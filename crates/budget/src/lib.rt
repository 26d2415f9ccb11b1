// Work that is counted down, a turn at a time.
#![tactic(auto)]

ghost use Rattle.std.specs.Prelude.{◌≡◌, ◌+◌, ◌<◌, OnOk, OnErr};

// What was given is used up.
#[derive(Clone, Copy, PartialEq, Eq, Debug)]
pub struct Exhausted;

// How many turns are left. It is no Copy, since a copy would be the same work twice.
#[derive(Drop)]
pub struct Work {
    pub left: u64,
}

impl Work {
    // So many turns are taken. Where fewer are left, they are all used up.
    pub fn spend(&mut self, turns: u64) -> Result<(), Exhausted>
        ensures spent { OnOk result (self.new.left + turns ≡ self.old.left) }
        ensures short { OnErr result ((self.new.left ≡ 0) × (self.old.left < turns)) }
    {
        let Some(left) = self.left.checked_sub(turns) else {
            self.left = 0;
            return Err(Exhausted);
        };
        self.left = left;
        Ok(())
    }
}
