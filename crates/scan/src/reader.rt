// Bytes that are read from an offset on: numbers, tags, rows of bits.
ghost use Rattle.std.specs.Prelude.{◌≡◌, ◌+◌, ◌^◌, ◌<◌, ◌≤◌, true, length, is_ok, IfOk, MatchResult, vec_items};
ghost use Rattle.format.specs.Read.{read_bytes, read_number, read_row};
ghost use Rattle.scan.specs.Reads.{Reads, Is};
ghost use Rattle.scan.specs.Skim.{read_tag};

mod expr;

use crate::fault::Fault;
use std::alloc::Global;
use std::marker::Model;

// Where a fault is told, the reader stands somewhere in the same bytes.
#[derive(Drop)]
pub struct Reader<'a> {
    bytes: &'a [u8],
    at: usize,
}

impl<'a> Model for Reader<'a> {
    ghost use Rattle.std.specs.Prelude.{◌≤◌, length};
    ghost use Rattle.scan.specs.Reads.{Place};

    ghost Value = { Place };

    ghost view = { λ r. record { bytes = r.bytes.now; at = r.at } };

    ghost invariant = { λ r. r.at ≤ length r.bytes.now };
}

impl<'a> Reader<'a> {
    // At the beginning of the bytes.
    pub fn new(bytes: &'a [u8]) -> Reader<'a>
        ensures { result ≡ record { bytes = bytes.now; at = 0 } }
    {
        Reader { bytes, at: 0 }
    }

    // At an offset of the bytes.
    pub fn begin_at(bytes: &'a [u8], at: usize) -> Reader<'a>
        requires { at ≤ length bytes.now }
        ensures { result ≡ record { bytes = bytes.now; at = at } }
    {
        Reader { bytes, at }
    }

    // The offset of what comes next.
    pub fn offset(&self) -> usize
        ensures at { result ≡ self.now.at }
        ensures within { self.now.at ≤ length self.now.bytes }
    {
        self.at
    }

    // Nothing more may come.
    pub fn end(&self) -> Result<(), Fault>
        ensures { MatchResult result (λ _. self.now.at ≡ length self.now.bytes) (λ e. (e ≡ Fault.Garbled self.now.at) × (self.now.at < length self.now.bytes)) }
    {
        if self.at < self.bytes.len() {
            return Err(Fault::Garbled(self.at));
        }
        Ok(())
    }

    // So many bytes.
    fn take(&mut self, count: u64) -> Result<&'a [u8], Fault>
        ensures reads { Reads (read_bytes count) (Is (λ s. s.now)) self.old self.new result }
        ensures sized { IfOk result (λ s. length s.now ≡ count) }
        ensures moved { IfOk result (λ _. self.new.at ≡ self.old.at + count) }
        ensures succeeds { self.old.at + count ≤ length self.old.bytes → is_ok result ≡ true }
    {
        let left = &self.bytes[self.at..];
        if (left.len() as u64) < count {
            return Err(Fault::Garbled(self.bytes.len()));
        }
        self.at += count as usize;
        Ok(&left[..count as usize])
    }

    // A number of so many bytes, the highest first: at most eight, since a u64 holds no more.
    pub fn number(&mut self, width: u64) -> Result<u64, Fault>
        requires narrow { width ≤ 8 }
        ensures reads { Reads (read_number width) (Is (λ n. n)) self.old self.new result }
        ensures bound { IfOk result (λ n. n < 256 ^ width) }
        ensures moved { IfOk result (λ _. self.new.at ≡ self.old.at + width) }
        ensures succeeds { self.old.at + width ≤ length self.old.bytes → is_ok result ≡ true }
    {
        // a loop: what a fold comes to has no bound that is found
        let mut n = 0;
        for digit in self.take(width)? {
            n = n * 256 + *digit as u64;
        }
        Ok(n)
    }

    pub fn u8(&mut self) -> Result<u8, Fault>
        ensures reads { Reads (read_number 1) (Is (λ n. n)) self.old self.new result }
        ensures moved { IfOk result (λ _. self.new.at ≡ self.old.at + 1) }
    {
        Ok(self.number(1)? as u8)
    }

    pub fn u16(&mut self) -> Result<u16, Fault>
        ensures reads { Reads (read_number 2) (Is (λ n. n)) self.old self.new result }
        ensures moved { IfOk result (λ _. self.new.at ≡ self.old.at + 2) }
    {
        Ok(self.number(2)? as u16)
    }

    // Which of so many kinds the next thing is, as the format numbers them; each type matches its own, so that no second enum stands beside it.
    pub fn tag(&mut self, kinds: u8) -> Result<u8, Fault>
        ensures reads { Reads (read_tag kinds) (Is (λ n. n)) self.old self.new result }
        ensures below { IfOk result (λ tag. tag < kinds) }
        ensures moved { IfOk result (λ _. self.new.at ≡ self.old.at + 1) }
    {
        let at = self.offset();
        let tag = self.u8()?;
        if tag >= kinds {
            return Err(Fault::Garbled(at));
        }
        Ok(tag)
    }

    // A row of bits, one to a byte, after how many there are as a number of so many bytes.
    pub fn row(&mut self, width: u64) -> Result<&'a [u8], Fault>
        requires narrow { width ≤ 8 }
        ensures reads { Reads (read_row width) (Is (λ s. s.now)) self.old self.new result }
        ensures forward { IfOk result (λ _. self.old.at + width ≤ self.new.at) }
    {
        let count = self.number(width)?;
        self.take(count)
    }

    // The same, kept.
    pub fn kept_row(&mut self, heap: Global, width: u64) -> Result<Vec<u8>, Fault>
        requires narrow { width ≤ 8 }
        ensures { Reads (read_row width) (Is vec_items) self.old self.new result }
    {
        let bits = self.row(width)?;
        Ok(Vec::from_slice(heap, bits)?)
    }
}
