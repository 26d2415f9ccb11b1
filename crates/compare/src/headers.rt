// What is in the headers at first, written into the room in the form that an answer points to.
// Functions and no methods, since sides and products are of another crate.
ghost use Rattle.std.specs.Prelude.{◌≡◌, ℕ, ◌+◌, ◌≤◌, length};
ghost use Rattle.model.specs.Refusal.{sum};
ghost use Rattle.rows.specs.Row.{store_in, store_end};
ghost use Rattle.theory.specs.Number.{number_bits, parted};
ghost use Rattle.machine.specs.View.{sizes_in};
ghost use Rattle.compare.specs.Pieces.{Narrow, Outside, store_words};
ghost use Rattle.compare.specs.Headed.{Headed, header_room};

use product::{Product, Side};

// How many numbers the headers of a parser take there.
pub(crate) fn header_words(side: &Side) -> u16
    ensures value { result ≡ store_words (sizes_in side.now.machine) }
    ensures few { result ≤ 129 }
{
    1 + 2 * side.machine.checked.parser.sizes.len() as u16
}

// Writes what is in the headers of both parsers at a pair of configurations, the first's before the second's.
pub(crate) fn write_headers(product: &Product, pair: u64, room: &mut [u64], at: usize)
    requires { at + header_room product.now ≤ length room.old }
    ensures { Headed product.now pair at room.old room.new }
{
    let (first, second) = product.headers(pair);
    let next = at + header_words(&product.first.side) as usize;
    // the second's first: what is written before it leaves it as it is
    write_store(
        room,
        next,
        &product.second.side.machine.checked.parser.sizes,
        second,
    );
    write_store(
        room,
        at,
        &product.first.side.machine.checked.parser.sizes,
        first,
    );
}

// Writes header contents that are given as one number, the first bit lowest: how many headers there
// are, and for each its size and its bits, which fit one number.
fn write_store(room: &mut [u64], at: usize, sizes: &[u16], contents: u64)
    requires narrow { Narrow sizes.now }
    requires room { at + store_words sizes.now ≤ length room.old }
    ensures store { store_in room.new at ≡ parted sizes.now (number_bits (sum sizes.now) contents) }
    ensures end { store_end room.new at ≡ at + store_words sizes.now }
    ensures others { Outside sizes.now at room.old room.new }
{
    room[at] = sizes.len() as u64;
    let mut rest = contents;
    // The mask is product's `low` again: one term, which is not worth a public function.
    // by index, since a proof knows nothing of what was written through the parts of `chunks_mut`
    for (i, size) in sizes.iter().enumerate() {
        let next = at + 1 + 2 * i;
        room[next] = *size as u64;
        room[next + 1] = rest & ((1 << *size) - 1);
        rest >>= *size;
    }
}
