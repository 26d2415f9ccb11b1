// What bytes ask.
ghost use Rattle.std.specs.Prelude.{◌≡◌, length, MatchResult};
ghost use Rattle.model.specs.Request as M;
ghost use Rattle.format.specs.Format.{read_parse, read_compare, read_request, asked_from};
ghost use Rattle.format.specs.Format.{whole as all_read};
ghost use Rattle.wire.specs.Asked.{Parses, Compares, Stands, Unasked};

use crate::list::{FromBytes, read_list};
use scan::{Fault, Reader};
use std::alloc::Global;
use syntax::Parser;

// A request has at most this many bytes.
const LIMIT: usize = 1_048_576;

// Does a parser, with this in its headers and from this state, accept an input?
// It is none where an expression in it is nested too deep to be kept.
#[derive(Drop)]
pub struct Parse {
    pub parser: Option<Parser>,
    pub headers: Vec<Vec<u8>>,
    pub start: u16,
    pub input: Vec<u8>,
}

// Do two parsers accept the same, each from a state? With work and room for it.
#[derive(Drop)]
pub struct Compare {
    pub first: Option<Parser>,
    pub second: Option<Parser>,
    pub first_start: u16,
    pub second_start: u16,
    pub work: u64,
    pub room: u64,
}

#[derive(Drop)]
pub enum Request {
    Parse(Parse),
    Compare(Compare),
}

impl FromBytes for Parse {
    type Kept = Parse;

    ghost Meaning = { M.Request };

    ghost read_by = { read_parse };

    ghost means = { Parses };

    fn read(heap: Global, reader: &mut Reader) -> Result<Parse, Fault> {
        let parser = Parser::read(heap, reader)?;
        let headers = read_list(heap, reader)?;
        let start = reader.u16()?;
        let input = reader.kept_row(heap, 4)?;
        Ok(Parse {
            parser,
            headers,
            start,
            input,
        })
    }
}

impl FromBytes for Compare {
    type Kept = Compare;

    ghost Meaning = { M.Request };

    ghost read_by = { read_compare };

    ghost means = { Compares };

    fn read(heap: Global, reader: &mut Reader) -> Result<Compare, Fault> {
        let first = Parser::read(heap, reader)?;
        let second = Parser::read(heap, reader)?;
        let first_start = reader.u16()?;
        let second_start = reader.u16()?;
        let work = reader.number(8)?;
        let room = reader.number(8)?;
        Ok(Compare {
            first,
            second,
            first_start,
            second_start,
            work,
            room,
        })
    }
}

impl FromBytes for Request {
    type Kept = Request;

    ghost Meaning = { M.Request };

    ghost read_by = { read_request };

    ghost means = { Stands };

    fn read(heap: Global, reader: &mut Reader) -> Result<Request, Fault> {
        match reader.tag(2)? {
            0 => Ok(Request::Parse(Parse::read(heap, reader)?)),
            _ => Ok(Request::Compare(Compare::read(heap, reader)?)),
        }
    }
}

// A request that takes all the bytes.
fn read_whole(heap: Global, bytes: &[u8]) -> Result<Request, Fault>
    ensures { MatchResult result (λ q. Stands q (all_read (length bytes.now) (read_request bytes.now))) (Unasked (all_read (length bytes.now) (read_request bytes.now))) }
{
    let mut reader = Reader::new(bytes);
    let request = Request::read(heap, &mut reader)?;
    reader.end()?;
    Ok(request)
}

// What the bytes ask, or where they cease to be a request.
pub fn read_request(heap: Global, bytes: &[u8]) -> Result<Request, Fault>
    ensures { MatchResult result (λ q. Stands q (asked_from bytes.now)) (Unasked (asked_from bytes.now)) }
{
    if bytes.len() <= LIMIT {
        return read_whole(heap, bytes);
    }
    let _ = read_whole(heap, &bytes[0..LIMIT])?;
    Err(Fault::Garbled(LIMIT))
}
