// What is answered. What each case means, with its number and values, is specs/View.antt.

#[derive(Clone, Copy, PartialEq, Eq, Debug)]
pub enum Answer {
    // 0: by which number, and where the bytes cease to be a request
    Refused { number: u8, offset: u64 },
    // 1: whether the input is accepted
    Verdict(bool),
    // 2: the two accept the same; what is left of work and room
    Alike { work: u64, room: u64 },
    // 3: they don't; where in the room both headers' contents and the message stand; what is left
    Unlike { at: usize, work: u64, room: u64 },
    // 4: neither was found; what is left
    Neither { work: u64, room: u64 },
}
