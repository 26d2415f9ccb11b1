// The tables of a sweep, each in a part of the room: which configurations were seen, and the queue of those whose bits are to be tried.
ghost use Rattle.std.specs.Prelude.{◌≡◌, ℕ, ◌+◌, ◌*◌, ◌^◌, ◌<◌, ◌≤◌, length};
ghost use Rattle.rows.specs.Lowest.{Lowest};
ghost use Rattle.reach.specs.Ended.{table_words};
ghost use Rattle.reach.specs.Layouts.{cap_of, width_of};

use crate::layout::{Layout, set_words};

// An entry of the queue is twice a configuration, and the bit that it was reached by.
#[derive(Drop)]
pub struct Tables<'a> {
    // room for so many configurations, and for so many entries
    pub count: u64,
    // so many entries are in the queue
    pub tail: usize,
    pub layout: Layout,
    // the configurations that were seen
    pub seen: &'a mut [u64],
    // the entries at an odd depth
    pub odd: &'a mut [u64],
    // the entries on the way to a bad one
    pub way: &'a mut [u64],
    pub queue: &'a mut [u64],
    ghost few: { count ≤ 2 ^ 60 },
    ghost within: { tail ≤ count },
    ghost narrow: { 2 * count ≤ width_of layout },
    ghost sets: { (count ≤ 64 * length seen.now) × (count ≤ 64 * length odd.now) × (count ≤ 64 * length way.now) },
    ghost deep: { count ≤ cap_of layout (length queue.now) },
}

impl<'a> Tables<'a> {
    ghost use Rattle.reach.specs.Tables.{seen, odd_in, entry, Empty, Pushed, Marked};

    // Nothing is seen yet, and nothing is in the queue.
    pub fn new(count: u64, room: &'a mut [u64]) -> Tables<'a>
        requires few { count ≤ 2 ^ 60 }
        requires room { table_words count ≤ length room.old }
        ensures { Empty result count }
    {
        let words = set_words(count) as usize;
        let (seen, rest) = room.split_at_mut(words);
        let (odd, rest) = rest.split_at_mut(words);
        let (way, queue) = rest.split_at_mut(words);
        seen.fill(0);
        odd.fill(0);
        way.fill(0);
        Tables {
            count,
            tail: 0,
            layout: Layout::of(count),
            seen,
            odd,
            way,
            queue,
        }
    }

    pub fn is_seen(&self, q: u64) -> bool
        requires { q < self.now.count }
        ensures { result ≡ seen self.now q }
    {
        rows::get(self.seen, 0, q as usize)
    }

    pub fn is_odd(&self, k: usize) -> bool
        requires { k < self.now.count }
        ensures { result ≡ odd_in self.now k }
    {
        rows::get(self.odd, 0, k)
    }

    pub fn entry(&self, k: usize) -> u64
        requires { k < self.now.count }
        ensures { result ≡ entry self.now k }
    {
        self.layout.get(self.queue, k)
    }

    // A configuration is seen, and stands at the end of the queue, reached by this bit at a depth of this parity.
    pub fn push(&mut self, q: u64, bit: u64, odd: bool)
        requires spare { self.old.tail < self.old.count }
        requires below { q < self.old.count }
        requires bit { bit < 2 }
        ensures { Pushed self.old self.new q (2 * q + bit) odd }
    {
        rows::put(self.seen, 0, q as usize, true);
        rows::put(self.odd, 0, self.tail, odd);
        let v = 2 * q + bit;
        self.layout.put(self.queue, self.tail, v);
        self.tail += 1;
    }

    // Entry k is on the way.
    pub fn mark(&mut self, k: usize)
        requires { k < self.old.count }
        ensures { Marked self.old self.new k }
    {
        rows::put(self.way, 0, k, true);
    }

    // The lowest entry on the way from entry k on, in the word where its bit stands.
    pub fn next_on_way(&self, k: usize) -> Option<usize>
        requires { k < self.now.count }
        ensures { Lowest self.now.way.now 0 k result }
    {
        rows::lowest(self.way, 0, k)
    }
}
