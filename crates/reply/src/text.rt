// An answer as a line of text.
ghost use Rattle.std.specs.Prelude.{◌≡◌, ◌++◌, IfOk, string_bytes, OnOk};
ghost use Rattle.reply.specs.View.{answer_of};
ghost use Rattle.reply.specs.Front.{front_store, past_store, row_of};
ghost use Rattle.reply.specs.Printed.{digits, message_text, store_text, line_of};

use crate::answer::Answer;
use crate::room::Reader;
use crate::row::Row;
use std::alloc::{AllocError, Global};

// What is printed for an answer that was given with this room, without the line's end.
pub fn line(heap: Global, answer: &Answer, room: &[u64]) -> Result<String, AllocError>
    ensures { IfOk result (λ s. string_bytes s ≡ line_of (answer_of room.now answer.now)) }
{
    match *answer {
        Answer::Refused { number, offset } => format!(in heap; "refused {number} at {offset}"),
        Answer::Verdict(true) => String::from_str(heap, "yes"),
        Answer::Verdict(false) => String::from_str(heap, "no"),
        Answer::Alike { work, room: left } => format!(in heap; "alike work={work} room={left}"),
        Answer::Unlike {
            at,
            work,
            room: left,
        } => {
            let mut reader = Reader::new(room, at);
            let first = store_text(heap, &mut reader)?;
            let second = store_text(heap, &mut reader)?;
            let message = message_text(heap, &reader.row())?;
            format!(in heap;
                "unlike first={first} second={second} message={message} work={work} room={left}"
            )
        }
        Answer::Neither { work, room: left } => format!(in heap; "neither work={work} room={left}"),
    }
}

// The headers' contents at the front, with commas between headers.
fn store_text(heap: Global, reader: &mut Reader) -> Result<String, AllocError>
    ensures text { IfOk result (λ s. string_bytes s ≡ store_text (front_store reader.old)) }
    ensures rest { OnOk result (reader.new ≡ past_store reader.old) }
{
    let n = reader.number();
    if n == 0 {
        return String::from_str(heap, "-");
    }
    let mut text = String::new(heap);
    push_bits(&mut text, &reader.row())?;
    for _ in 1..n {
        text.push(',')?;
        push_bits(&mut text, &reader.row())?;
    }
    Ok(text)
}

fn message_text(heap: Global, row: &Row) -> Result<String, AllocError>
    ensures { IfOk result (λ s. string_bytes s ≡ message_text (row_of row.now)) }
{
    if row.len == 0 {
        return String::from_str(heap, "-");
    }
    let mut text = String::new(heap);
    push_bits(&mut text, row)?;
    Ok(text)
}

fn push_bits(text: &mut String, row: &Row) -> Result<(), AllocError>
    ensures { OnOk result (string_bytes text.new ≡ string_bytes text.old ++ digits (row_of row.now)) }
{
    for k in 0..row.len {
        text.push((b'0' + row.bit(k)) as char)?;
    }
    Ok(())
}
