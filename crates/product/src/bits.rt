// Bits of a number, the lowest first.
ghost use Rattle.std.specs.Prelude.{◌≡◌, ℕ, ◌+◌, ◌*◌, ◌%◌, ◌^◌, ◌<◌, ◌≤◌, length, take};
ghost use Rattle.theory.specs.Number.{number_bits};

// The lowest bits of a number.
pub(crate) fn low(k: u64, bits: u16) -> u64
    requires { bits < 64 }
    ensures { result ≡ k % 2 ^ bits }
{
    k & ((1 << bits) - 1)
}

// One bit more in a buffer that holds so many.
pub(crate) fn push(buffer: u64, held: u32, bit: u64) -> u64
    requires small { buffer < 2 ^ 60 }
    requires within { held < 60 }
    requires bit { bit < 2 }
    ensures { result ≡ buffer + (1 + bit) * 2 ^ held }
{
    buffer + ((1 + bit) << held)
}

// The lowest n bits of a number, one to a byte: room for 64, since the search has no heap.
pub(crate) fn spread(bits: u64, n: usize) -> [u8; 64]
    requires { n ≤ 64 }
    ensures bits { take n result ≡ number_bits n bits }
    ensures long { length result ≡ 64 }
{
    let mut part = [0; 64];
    for (i, bit) in part[..n].iter_mut().enumerate() {
        *bit = (bits >> i & 1) as u8;
    }
    part
}
