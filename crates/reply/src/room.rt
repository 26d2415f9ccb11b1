// The room of an answer, read from an offset on. Past its end all numbers are 0.
ghost use Rattle.std.specs.Prelude.{◌≡◌, ℕ, drop, slice_index};
ghost use Rattle.rows.specs.Row.{bit_in};
ghost use Rattle.reply.specs.Front.{front_row, past_row, row_of};

use crate::row::Row;
use std::marker::Model;

// A clause sees the numbers that are still to be read.
#[derive(Drop)]
pub(crate) struct Reader<'a> {
    rest: &'a [u64],
}

impl<'a> Model for Reader<'a> {
    ghost use Rattle.std.specs.Prelude.{ℕ, List};

    ghost Value = { List ℕ };

    ghost view = { λ r. r.rest.now };
}

impl<'a> Reader<'a> {
    pub(crate) fn new(room: &'a [u64], at: usize) -> Reader<'a>
        ensures { result ≡ drop at room.now }
    {
        let end = room.len();
        Reader {
            rest: room.split_at(at.min(end)).1,
        }
    }

    // The number at the front: how many things come next.
    pub(crate) fn number(&mut self) -> u64
        ensures value { result ≡ slice_index self.old 0 }
        ensures rest { self.new ≡ drop 1 self.old }
    {
        match self.rest.split_first() {
            Some((number, rest)) => {
                self.rest = rest;
                *number
            }
            None => 0,
        }
    }

    // The row at the front.
    pub(crate) fn row(&mut self) -> Row<'a>
        ensures row { row_of result ≡ front_row self.old }
        ensures rest { self.new ≡ past_row self.old }
    {
        let len = self.number();
        let words = self.rest;
        self.skip(len.div_ceil(64));
        Row { len, words }
    }

    fn skip(&mut self, numbers: u64)
        ensures { self.new ≡ drop numbers self.old }
    {
        let end = self.rest.len() as u64;
        self.rest = self.rest.split_at(numbers.min(end) as usize).1;
    }
}
