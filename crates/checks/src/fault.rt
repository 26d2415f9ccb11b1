// What can be wrong with a parser, in the order in which it is looked for.
ghost use Rattle.std.specs.Prelude.{◌≡◌};
ghost use Rattle.checks.specs.Number.{number_of};

use thiserror::Error;

#[derive(Clone, Copy, PartialEq, Eq, Debug, Error)]
pub enum Fault {
    #[error("the parser is beyond its limits")]
    Limits,
    #[error("a header or a state that is named is not there")]
    Names,
    #[error("a slice, an assigned value or a pattern has a wrong width")]
    Widths,
    #[error("a state takes no bits")]
    TakesNothing,
    #[error("a state takes too many bits")]
    TakesTooMuch,
}

impl Fault {
    // By which number it is told. A method, since the number is what users are told, not a form of the fault.
    pub fn number(self) -> u8
        ensures { result ≡ number_of self }
    {
        match self {
            Fault::Limits => 2,
            Fault::Names => 3,
            Fault::Widths => 4,
            Fault::TakesNothing => 5,
            Fault::TakesTooMuch => 6,
        }
    }
}
