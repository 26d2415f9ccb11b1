// Small requests to parse and to compare, and what each is answered.
use crate::answer;
use reply::Answer;
use std::alloc::Global;
use std::test::Fail;

// One header of one bit, taken from the input: a 0 is accepted by the first, a 1 by the second.
const ZERO: &'static [u8] =
    b"\0\x01\0\x01\0\x01\0\x01\0\0\0\0\x01\0\0\0\0\x01\0\x01\0\0\x01\0\x01\x02";

const ONE: &'static [u8] =
    b"\0\x01\0\x01\0\x01\0\x01\0\0\0\0\x01\0\0\0\0\x01\0\x01\0\0\x01\x01\x01\x02";

// Work of 2^24, and room of 2^19.
const ENOUGH: &'static [u8] = b"\0\0\0\0\x01\0\0\0\0\0\0\0\0\x08\0\0";

fn answered(heap: Global, parts: &[&[u8]]) -> Result<Answer, Fail> {
    let mut request = Vec::new(heap);
    for part in parts {
        request.extend_from_slice(part)?;
    }
    let mut room = vec![in heap; 0; 524_288]?;
    Ok(answer(heap, &request, &mut room)?)
}

#[test]
fn compares(rt: HostRuntime) -> Result<(), Fail> {
    let heap = rt.alloc();
    let alike = answered(heap, &[&[1], ZERO, ZERO, &[0; 4], ENOUGH])?;
    assert!(rt; matches!(alike, Answer::Alike { .. }));
    let unlike = answered(heap, &[&[1], ZERO, ONE, &[0; 4], ENOUGH])?;
    assert!(rt; matches!(unlike, Answer::Unlike { .. }));
    let unfit = answered(heap, &[&[1], ZERO, ONE, &[0, 0, 0, 1], ENOUGH])?;
    assert_eq!(rt;
        unfit,
        Answer::Refused {
            number: 7,
            offset: 0
        }
    );
    Ok(())
}
