// An answer as bytes.
ghost use Rattle.std.specs.Prelude.{◌≡◌, ℕ, ◌≤◌, ◌++◌, IfOk, OnOk};
ghost use Rattle.format.specs.Written.{number as number_bytes, row as row_bytes, store as store_bytes, answer as answer_bytes};
ghost use Rattle.reply.specs.View.{answer_of};
ghost use Rattle.reply.specs.Front.{front_store, past_store, row_of};
ghost use Rattle.reply.specs.Appends.{Appends, difference, budget};

use crate::answer::Answer;
use crate::room::Reader;
use crate::row::Row;
use std::alloc::{AllocError, Global};

// The bytes of an answer that was given with this room.
pub fn write_answer(heap: Global, answer: &Answer, room: &[u64]) -> Result<Vec<u8>, AllocError>
    ensures { IfOk result (λ v. v.items ≡ answer_bytes (answer_of room.now answer.now)) }
{
    let mut out = Vec::new(heap);
    put_answer(&mut out, answer, room)?;
    Ok(out)
}

// Its number, and then its values: said together for each case, as the definition of an answer's bytes has them.
fn put_answer(out: &mut Vec<u8>, answer: &Answer, room: &[u64]) -> Result<(), AllocError>
    ensures { OnOk result (out.new.items ≡ out.old.items ++ answer_bytes (answer_of room.now answer.now)) }
{
    match *answer {
        Answer::Refused { number, offset } => {
            put_number(out, 1, 0)?;
            put_number(out, 1, number as u64)?;
            put_number(out, 8, offset)
        }
        Answer::Verdict(accepted) => {
            put_number(out, 1, 1)?;
            put_number(out, 1, accepted as u64)
        }
        Answer::Alike { work, room: left } => {
            put_number(out, 1, 2)?;
            put_budget(out, work, left)
        }
        Answer::Unlike {
            at,
            work,
            room: left,
        } => {
            put_number(out, 1, 3)?;
            put_difference(out, Reader::new(room, at))?;
            put_budget(out, work, left)
        }
        Answer::Neither { work, room: left } => {
            put_number(out, 1, 4)?;
            put_budget(out, work, left)
        }
    }
}

// What is left of work and room.
fn put_budget(out: &mut Vec<u8>, work: u64, left: u64) -> Result<(), AllocError>
    ensures { OnOk result (Appends (budget work left) out.old.items out.new.items) }
{
    put_number(out, 8, work)?;
    put_number(out, 8, left)
}

// The headers' contents of both, and the message, which stand there one after the other.
fn put_difference(out: &mut Vec<u8>, mut reader: Reader) -> Result<(), AllocError>
    ensures { OnOk result (Appends (difference reader.entry) out.old.items out.new.items) }
{
    put_store(out, &mut reader)?; // of the first
    put_store(out, &mut reader)?; // of the second
    put_row(out, 8, &reader.row())
}

// Headers' contents: how many headers there are, and then a row for each. What a line shows has other heads, commas
// and digits, so that one walk for both would be longer than the two.
fn put_store(out: &mut Vec<u8>, reader: &mut Reader) -> Result<(), AllocError>
    ensures rest { OnOk result (reader.new ≡ past_store reader.old) }
    ensures bytes { OnOk result (Appends (store_bytes (front_store reader.old)) out.old.items out.new.items) }
{
    let n = reader.number();
    put_number(out, 2, n)?;
    for _ in 0..n {
        put_row(out, 2, &reader.row())?;
    }
    Ok(())
}

// A row of bits, one to a byte, after how many there are as a number of so many bytes.
fn put_row(out: &mut Vec<u8>, width: usize, row: &Row) -> Result<(), AllocError>
    requires { width ≤ 8 }
    ensures { OnOk result (Appends (row_bytes width (row_of row.now)) out.old.items out.new.items) }
{
    put_number(out, width, row.len)?;
    for k in 0..row.len {
        out.push(row.bit(k))?;
    }
    Ok(())
}

// A number of so many bytes, the highest first.
fn put_number(out: &mut Vec<u8>, width: usize, value: u64) -> Result<(), AllocError>
    requires { width ≤ 8 }
    ensures { OnOk result (Appends (number_bytes width value) out.old.items out.new.items) }
{
    out.extend_from_slice(&value.to_be_bytes()[8 - width..])
}
