// Room to lend.
ghost use Rattle.std.specs.Prelude.{◌≤◌, length, vec_len};

use std::alloc::Global;

// What was lent before is lent again: to fill new room takes longer than most requests.
#[derive(Drop)]
pub(crate) struct Room {
    numbers: Vec<u64>,
}

impl Room {
    pub(crate) fn new(heap: Global) -> Room {
        Room {
            numbers: Vec::new(heap),
        }
    }

    // As many numbers as are wanted, or as can be had.
    pub(crate) fn lend(&mut self, heap: Global, wanted: u64) -> &mut [u64]
        ensures { length result.now ≤ wanted }
    {
        if (self.numbers.len() as u64) < wanted {
            self.numbers = Vec::new(heap);
            self.numbers = fill(heap, wanted);
        }
        let lent = self.numbers.len().min(wanted as usize);
        &mut self.numbers[..lent]
    }
}

// As many numbers as are wanted, or as can be had: half of them, a quarter, ..
fn fill(heap: Global, wanted: u64) -> Vec<u64>
    ensures { vec_len result ≤ wanted }
{
    for halvings in 0..u64::BITS {
        if let Ok(numbers) = vec![in heap; 0; (wanted >> halvings) as usize] {
            return numbers;
        }
    }
    Vec::new(heap)
}
