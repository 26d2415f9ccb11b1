// How the tables of a sweep stand in words: three sets of a bit each, and after them a queue.
ghost use Rattle.std.specs.Prelude.{◌≡◌, ℕ, ◌+◌, ◌*◌, ◌^◌, ◌<◌, ◌≤◌, length, ◌≢◌};
ghost use Rattle.reach.specs.Ended.{sets_words, table_words};
ghost use Rattle.reach.specs.Layouts.{slot, entry_in, cap_of, width_of, layout_for};

// How the entries of the queue stand in words: three to a word where they are small.
#[derive(Clone, Copy)]
pub enum Layout {
    Packed,
    Plain,
}

// Up to here an entry, a configuration and a bit, has 21 bits.
const PACKED: u64 = 1048576;

const SLOT: u64 = 2097152;

// Entry i of the three in a word. By cases: the places come one after the other, and a shift by a number that is known is the quicker one.
fn get_slot(word: u64, i: usize) -> u64
    requires { i < 3 }
    ensures { result ≡ slot word i }
{
    match i {
        0 => word % SLOT,
        1 => (word >> 21) % SLOT,
        _ => (word >> 42) % SLOT,
    }
}

// The word with this as entry i.
fn put_slot(word: u64, i: usize, v: u64) -> u64
    requires { (i < 3) × (v < 2097152) }
    ensures here { slot result i ≡ v }
    ensures others { (j : ℕ) → j < 3 → (j ≢ i) → slot result j ≡ slot word j }
{
    let old = get_slot(word, i);
    match i {
        0 => word - old + v,
        1 => word - (old << 21) + (v << 21),
        _ => word - (old << 42) + (v << 42),
    }
}

impl Layout {
    // The layout of a queue for so many configurations.
    pub fn of(count: u64) -> Layout
        ensures { result ≡ layout_for count }
    {
        if count <= PACKED {
            Layout::Packed
        } else {
            Layout::Plain
        }
    }

    // Entry k of a queue.
    pub fn get(self, queue: &[u64], k: usize) -> u64
        requires { k < cap_of self (length queue.now) }
        ensures { result ≡ entry_in self queue.now k }
    {
        match self {
            Layout::Packed => get_slot(queue[k / 3], k % 3),
            Layout::Plain => queue[k],
        }
    }

    // Entry k of a queue becomes this.
    pub fn put(self, queue: &mut [u64], k: usize, v: u64)
        requires { (k < cap_of self (length queue.old)) × (v < width_of self) }
        ensures here { entry_in self queue.new k ≡ v }
        ensures others { (x : ℕ) → (x ≢ k) → entry_in self queue.new x ≡ entry_in self queue.old x }
    {
        match self {
            Layout::Packed => {
                let word = put_slot(queue[k / 3], k % 3, v);
                queue[k / 3] = word;
            }
            Layout::Plain => {
                queue[k] = v;
            }
        }
    }
}

// How many words a set of the numbers below n takes.
pub fn set_words(n: u64) -> u64
    ensures { result ≡ sets_words n }
{
    n.div_ceil(64)
}

// How many words the tables of a sweep among so many configurations take.
pub fn table_words(count: u64) -> u64
    requires { count ≤ 2 ^ 60 }
    ensures { result ≡ table_words count }
{
    let queue = match Layout::of(count) {
        Layout::Packed => count.div_ceil(3),
        Layout::Plain => count,
    };
    3 * set_words(count) + queue
}
