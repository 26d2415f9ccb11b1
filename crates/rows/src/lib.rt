// Rows of bits in lent numbers. How they stand there is specs/Row.antt.
// A bit is told by the word where its row begins and its place in the row, since the bits of all lent numbers could be too many for one number.
#![tactic(auto)]

ghost use Rattle.std.specs.Prelude.{◌≡◌, ℕ, ◌+◌, ◌*◌, ◌/◌, ◌^◌, ◌<◌, length, if◌then◌else◌, ◌==◌, ◌≢◌, slice_index};
ghost use Rattle.rows.specs.Row.{bit_in};
ghost use Rattle.rows.specs.Lowest.{Lowest};

// Bit k of the words from `base` on.
pub fn get(room: &[u64], base: usize, k: usize) -> bool
    requires { base + k / 64 < length room.now }
    ensures { result ≡ (bit_in room.now (64 * base + k) == 1) }
{
    (room[base + k / 64] >> (k % 64)) & 1 == 1
}

// Bit k of the words from `base` on becomes this, and no other bit changes.
pub fn put(room: &mut [u64], base: usize, k: usize, on: bool)
    requires { base + k / 64 < length room.old }
    ensures here { bit_in room.new (64 * base + k) ≡ (if on then 1 else 0) }
    ensures others { (j : ℕ) → (j ≢ 64 * base + k) → bit_in room.new j ≡ bit_in room.old j }
    ensures rest { (i : ℕ) → (i ≢ base + k / 64) → slice_index room.new i ≡ slice_index room.old i }
{
    let i = base + k / 64;
    let mask = 1u64 << (k % 64);
    if on {
        room[i] |= mask;
    } else {
        room[i] &= !mask;
    }
}

// The lowest one at bit k or above it, in the word where bit k stands.
pub fn lowest(room: &[u64], base: usize, k: usize) -> Option<usize>
    requires within { base + k / 64 < length room.now }
    requires small { k < 2 ^ 63 }
    ensures { Lowest room.now base k result }
{
    let word = room[base + k / 64] >> (k % 64);
    if word == 0 {
        None
    } else {
        Some(k + word.trailing_zeros() as usize)
    }
}
