// Answers, with the line and the bytes of each.
use crate::{Answer, line, write_answer};
use std::alloc::Global;
use std::process::Abort;
use std::test::Fail;

// One header of 4 bits, 0100; two of 2 bits, 00 and 01; the message 1000.
const ROOM: [u64; 10] = [1, 4, 0b0010, 2, 2, 0b00, 2, 0b10, 4, 0b0001];

fn shows(
    rt: &impl Abort,
    heap: Global,
    answer: Answer,
    text: &str,
    bytes: &[u8],
) -> Result<(), Fail> {
    let shown = line(heap, &answer, &ROOM)?;
    assert_eq!(rt; shown.as_str(), text);
    let written = write_answer(heap, &answer, &ROOM)?;
    assert_eq!(rt; written.as_slice(), bytes, "{}", text);
    Ok(())
}

#[test]
fn short_answers(rt: HostRuntime) -> Result<(), Fail> {
    let heap = rt.alloc();
    shows(
        &rt,
        heap,
        Answer::Refused {
            number: 3,
            offset: 0,
        },
        "refused 3 at 0",
        b"\0\x03\0\0\0\0\0\0\0\0",
    )?;
    shows(&rt, heap, Answer::Verdict(true), "yes", b"\x01\x01")?;
    shows(&rt, heap, Answer::Verdict(false), "no", b"\x01\0")?;
    shows(
        &rt,
        heap,
        Answer::Alike { work: 258, room: 7 },
        "alike work=258 room=7",
        b"\x02\0\0\0\0\0\0\x01\x02\0\0\0\0\0\0\0\x07",
    )?;
    shows(
        &rt,
        heap,
        Answer::Neither { work: 0, room: 7 },
        "neither work=0 room=7",
        b"\x04\0\0\0\0\0\0\0\0\0\0\0\0\0\0\0\x07",
    )
}

#[test]
fn unlike(rt: HostRuntime) -> Result<(), Fail> {
    let heap = rt.alloc();
    let both =
        b"\x03\0\x01\0\x04\0\x01\0\0\0\x02\0\x02\0\0\0\x02\0\x01\0\0\0\0\0\0\0\x04\x01\0\0\0\0\0\0\0\0\0\0\x05\0\0\0\0\0\0\0\x06";
    shows(
        &rt,
        heap,
        Answer::Unlike {
            at: 0,
            work: 5,
            room: 6,
        },
        "unlike first=0100 second=00,01 message=1000 work=5 room=6",
        both,
    )?;
    // past the room's end all is empty
    let none = b"\x03\0\0\0\0\0\0\0\0\0\0\0\0\0\0\0\0\0\0\0\x05\0\0\0\0\0\0\0\x06";
    shows(
        &rt,
        heap,
        Answer::Unlike {
            at: usize::MAX,
            work: 5,
            room: 6,
        },
        "unlike first=- second=- message=- work=5 room=6",
        none,
    )
}
