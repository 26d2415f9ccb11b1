// Why a request is not answered, in the order in which it is looked for.
ghost use Rattle.std.specs.Prelude.{◌≡◌};
ghost use Rattle.settling.specs.Refusing.{number_of, offset_of, refused_by};

use checks::Fault;
use reply::Answer;

#[derive(Clone, Copy, PartialEq, Eq, Debug)]
pub enum Refusal {
    // the bytes cease to be a request
    Garbled(usize),
    // what is wrong with a parser
    Wrong(Fault),
    // a state to begin from, an input or headers' contents that aren't there or aren't right, or what can't be done yet
    Unfit,
}

impl Refusal {
    // By which number it is told. A method, since the number is what users are told, not a form of the refusal.
    pub fn number(self) -> u8
        ensures { result ≡ number_of self }
    {
        match self {
            Refusal::Garbled(_) => 1,
            Refusal::Wrong(fault) => fault.number(),
            Refusal::Unfit => 7,
        }
    }

    // Where the bytes cease to be a request.
    pub fn offset(self) -> u64
        ensures { result ≡ offset_of self }
    {
        match self {
            Refusal::Garbled(at) => at as u64,
            Refusal::Wrong(_) | Refusal::Unfit => 0,
        }
    }
}

impl From<Refusal> for Answer {
    ghost from_gives = { λ refusal a. a ≡ refused_by refusal };

    fn from(refusal: Refusal) -> Answer {
        Answer::Refused {
            number: refusal.number(),
            offset: refusal.offset(),
        }
    }
}
