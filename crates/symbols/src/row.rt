// Writing into rows of symbols.
ghost use Rattle.std.specs.Prelude.{ℕ, ◌+◌, ◌≤◌, length};
ghost use Rattle.machine.specs.Row.{part};
ghost use Rattle.symbols.specs.View.{in_row};
ghost use Rattle.symbols.specs.Symbol.{symbol};
ghost use Rattle.machine.specs.Window.{Written};

// N places from `at` on get the symbols of the positions from `first` on. Lent room is numbers: 0 and 1 are
// bits, 2 + p is position p.
pub(crate) fn number(row: &mut [u64], at: usize, n: usize, first: u32)
    requires { at + n ≤ length row.old }
    ensures { Written (in_row row.old) (in_row row.new) (part symbol first n) at n }
{
    for (i, symbol) in row[at..at + n].iter_mut().enumerate() {
        *symbol = 2 + (first as u64 + i as u64);
    }
}

// Places from `at` on get n symbols of another row, from `start` on.
pub(crate) fn copy(row: &mut [u64], at: usize, other: &[u64], start: usize, n: usize)
    requires there { start + n ≤ length other.now }
    requires room { at + n ≤ length row.old }
    ensures { Written (in_row row.old) (in_row row.new) (part (in_row other.now) start n) at n }
{
    row[at..at + n].copy_from_slice(&other[start..start + n]);
}

// Places from `at` on get these bits.
pub(crate) fn write(row: &mut [u64], at: usize, bits: &[u8])
    requires { at + length bits.now ≤ length row.old }
    ensures { Written (in_row row.old) (in_row row.new) bits.now at (length bits.now) }
{
    for (i, place) in row[at..at + bits.len()].iter_mut().enumerate() {
        *place = bits[i] as u64;
    }
}
