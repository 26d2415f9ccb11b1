// The records of a file, one after the other.
ghost use Rattle.std.specs.Prelude.{◌≡◌, ◌≤◌, [], drop, length, MatchOption};
ghost use Rattle.std.specs.Iterator.{at_most};
ghost use Rattle.records.specs.Record.{first_request, after_record, Found};

use std::marker::Model;

// The bytes of one request, and the offset of its record in the file.
#[derive(Clone, Copy)]
pub struct Record<'a> {
    pub at: usize,
    pub request: &'a [u8],
}

// The records that are left in a file.
#[derive(Drop)]
pub struct Records<'a> {
    rest: &'a [u8],
    at: usize,
}

impl<'a> Model for Records<'a> {
    ghost use Rattle.std.specs.Prelude.{◌+◌, ◌^◌, ◌<◌, length};
    ghost use Rattle.records.specs.Rest.{Rest};

    ghost Value = { Rest };

    ghost view = { λ r. record { bytes = r.rest.now; at = r.at } };

    ghost invariant = { λ r. r.at + length r.rest.now < 2 ^ 63 };
}

impl<'a> Records<'a> {
    // All of a file.
    pub fn new(file: &'a [u8]) -> Records<'a>
        ensures { result ≡ record { bytes = file.now; at = 0 } }
    {
        Records { rest: file, at: 0 }
    }

    // The offset of what comes next in the file.
    pub fn offset(&self) -> usize
        ensures { result ≡ self.now.at }
    {
        self.at
    }

    // What a file has from an offset on.
    pub fn begin_at(file: &'a [u8], at: usize) -> Records<'a>
        requires { at ≤ length file.now }
        ensures { result ≡ record { bytes = drop at file.now; at = at } }
    {
        let rest = &file[at..];
        Records { rest, at }
    }
}

// The request of the first record, and what comes after it.
fn split_first(bytes: &[u8]) -> (&[u8], &[u8])
    ensures request { result.0.now ≡ first_request bytes.now }
    ensures rest { result.1.now ≡ after_record bytes.now }
{
    let Some((length, body)) = bytes.split_first_chunk::<4>() else {
        return (&[], &[]);
    };
    let length = u32::from_be_bytes(*length) as usize;
    body.split_at(length.min(body.len()))
}

impl<'a> Iterator for Records<'a> {
    type Item = Record<'a>;

    ghost next_gives = { λ old r new. MatchOption r ((old.bytes ≡ []) × (new ≡ old)) (λ x. Found old x new) };

    ghost remaining = { λ s. at_most (length s.bytes) };

    fn next(&mut self) -> Option<Record<'a>> {
        if self.rest.is_empty() {
            return None;
        }
        let at = self.at;
        let (request, rest) = split_first(self.rest);
        self.at += self.rest.len() - rest.len();
        self.rest = rest;
        Some(Record { at, request })
    }
}
