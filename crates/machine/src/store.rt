// What is in the headers: a row of bits, in words.
ghost use Rattle.std.specs.Prelude.{◌≡◌, ℕ, ◌+◌, ◌<◌, ◌≤◌, true, length, if◌then◌else◌, ◌≢◌, slice_index};
ghost use Rattle.model.specs.Parser.{same_bits};
ghost use Rattle.model.specs.Refusal.{are_bits};
ghost use Rattle.rows.specs.Row.{bit_in};
ghost use Rattle.machine.specs.Row.{part};
ghost use Rattle.machine.specs.Window.{Written};

// As many bits as all headers of a parser have at most: 4,096.
#[derive(Clone, Copy)]
pub struct Store {
    words: [u64; 64],
}

impl Store {
    pub fn empty() -> Store
        ensures { (k : ℕ) → bit_in result.words k ≡ 0 }
    {
        Store { words: [0; 64] }
    }

    // its first 64 bits are those of a word, the others 0
    pub fn from_word(word: u64) -> Store
        ensures first { slice_index result.words 0 ≡ word }
        ensures rest { (k : ℕ) → 64 ≤ k → bit_in result.words k ≡ 0 }
    {
        let mut words = [0; 64];
        words[0] = word;
        Store { words }
    }

    // its first 64 bits
    pub fn word(&self) -> u64
        ensures { result ≡ slice_index self.now.words 0 }
    {
        self.words[0]
    }

    pub fn get(&self, k: usize) -> u8
        requires { k < 4096 }
        ensures { result ≡ bit_in self.now.words k }
    {
        rows::get(&self.words, 0, k) as u8
    }

    pub fn set(&mut self, k: usize, on: bool)
        requires { k < 4096 }
        ensures here { bit_in self.new.words k ≡ (if on then 1 else 0) }
        ensures others { (j : ℕ) → (j ≢ k) → bit_in self.new.words j ≡ bit_in self.old.words j }
    {
        rows::put(&mut self.words, 0, k, on);
    }

    // Are these its bits from bit k on. A loop, since the check does not see that `all` over the enumerated bits
    // says so.
    pub(crate) fn holds(&self, k: usize, bits: &[u8]) -> bool
        requires { k + length bits.now ≤ 4096 }
        ensures { result ≡ same_bits (part (bit_in self.now.words) k (length bits.now)) bits.now }
    {
        for (i, bit) in bits.iter().enumerate() {
            if self.get(k + i) != *bit {
                return false;
            }
        }
        true
    }

    // Its bits from bit k on become these. Bit by bit, by number: bits are cut out of words.
    pub(crate) fn write(&mut self, k: usize, bits: &[u8])
        requires bits { are_bits bits.now ≡ true }
        requires room { k + length bits.now ≤ 4096 }
        ensures { Written (bit_in self.old.words) (bit_in self.new.words) bits.now k (length bits.now) }
    {
        for (i, bit) in bits.iter().enumerate() {
            self.set(k + i, *bit == 1);
        }
    }

    // N of its bits from bit k on become those of another from bit `start` on, bit by bit too.
    pub(crate) fn copy(&mut self, k: usize, other: &Store, start: usize, n: usize)
        requires there { start + n ≤ 4096 }
        requires room { k + n ≤ 4096 }
        ensures { Written (bit_in self.old.words) (bit_in self.new.words) (part (bit_in other.now.words) start n) k n }
    {
        for i in 0..n {
            self.set(k + i, other.get(start + i) == 1);
        }
    }
}
