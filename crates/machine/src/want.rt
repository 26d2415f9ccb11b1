// What of a row is wanted.
ghost use Rattle.std.specs.Prelude.{◌≡◌, ◌-◌, ◌≤◌, min};

// The first `skip` are passed over, and of those that follow `most` are used at most.
#[derive(Clone, Copy)]
pub struct Want {
    pub skip: usize,
    pub most: usize,
}

impl Want {
    // the first of a row, so many at most
    pub fn first(most: usize) -> Want
        ensures skip { result.skip ≡ 0 }
        ensures most { result.most ≡ most }
    {
        Want { skip: 0, most }
    }

    // of a part of this size: how many are passed over, and how many used of those that follow
    pub(crate) fn of(self, size: usize) -> (usize, usize)
        ensures passed { result.0 ≡ min self.skip size }
        ensures used { result.1 ≡ min self.most (size - result.0) }
    {
        let from = self.skip.min(size);
        (from, self.most.min(size - from))
    }

    // what is wanted of what comes after it
    pub(crate) fn after(self, from: usize, n: usize) -> Want
        requires passed { from ≤ self.skip }
        requires used { n ≤ self.most }
        ensures skip { result.skip ≡ self.skip - from }
        ensures most { result.most ≡ self.most - n }
    {
        Want {
            skip: self.skip - from,
            most: self.most - n,
        }
    }
}
