// A stack in lent room.
ghost use Rattle.std.specs.Prelude.{◌≡◌, ℕ, ◌+◌, ◌-◌, ◌<◌, ◌≤◌, [], ◌∷◌, ◌++◌, length, min, take, slice_set, slice_index, OnOk, OnErr, MatchOption};

/// There is no room left.
#[derive(Clone, Copy, PartialEq, Eq, Debug)]
pub struct Full;

/// Numbers that were put one after the other into lent room.
#[derive(Drop)]
pub struct Stack<'a> {
    pub room: &'a mut [u64],
    pub len: usize,
    pub ghost within: { len ≤ length room.now },
}

impl<'a> Stack<'a> {
    /// The first `len` numbers in the room, or all.
    pub fn new(room: &'a mut [u64], len: usize) -> Stack<'a>
        ensures same { result.room.ghost_name ≡ room.entry.ghost_name }
        ensures room { result.room.now ≡ room.old }
        ensures len { result.len ≡ min len (length room.old) }
    {
        let n = len.min(room.len());
        Stack { room, len: n }
    }

    pub fn as_slice(&self) -> &[u64]
        ensures { result.now ≡ take self.now.len self.now.room.now }
    {
        &self.room[..self.len]
    }

    /// One more number.
    pub fn push(&mut self, x: u64) -> Result<(), Full>
        ensures same { self.new.room.ghost_name ≡ self.old.room.ghost_name }
        ensures ok { OnOk result ((self.new.room.now ≡ slice_set self.old.room.now self.old.len x) × (self.new.len ≡ self.old.len + 1)) }
        ensures full { OnErr result ((self.new ≡ self.old) × (self.old.len ≡ length self.old.room.now)) }
    {
        if self.len >= self.room.len() {
            return Err(Full);
        }
        self.room[self.len] = x;
        self.len += 1;
        Ok(())
    }

    /// The number at d is x from now on.
    pub fn set(&mut self, d: usize, x: u64)
        requires { d < self.old.len }
        ensures same { self.new.room.ghost_name ≡ self.old.room.ghost_name }
        ensures room { self.new.room.now ≡ slice_set self.old.room.now d x }
        ensures len { self.new.len ≡ self.old.len }
    {
        self.room[d] = x;
    }

    /// Takes all of them off.
    pub fn clear(&mut self)
        ensures room { self.new.room ≡ self.old.room }
        ensures len { self.new.len ≡ 0 }
    {
        self.len = 0;
    }
}
