// A row of bits in the room. Bits are asked for by number, as they are cut out of words.
ghost use Rattle.std.specs.Prelude.{◌≡◌};
ghost use Rattle.rows.specs.Row.{bit_in};

// How many bits there are, and numbers with these, the lowest of the first being bit 0. Past the room's end all are 0.
#[derive(Clone, Copy)]
pub(crate) struct Row<'a> {
    pub(crate) len: u64,
    pub(crate) words: &'a [u64],
}

impl Row<'_> {
    // Not `rows::get`, which wants the bit to be there.
    pub(crate) fn bit(&self, k: u64) -> u8
        ensures { result ≡ bit_in self.now.words.now k }
    {
        let word = self.words.get((k / 64) as usize).copied().unwrap_or(0);
        (word >> (k % 64) & 1) as u8
    }
}
