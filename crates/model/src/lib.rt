// Theorems about parsers, each on the contract of a function that does nothing. The definitions stand in specs/.
#![tactic(auto)]

ghost use Rattle.model.specs.Promise.{PromisedIsRight};
ghost use Rattle.model.specs.Theory.{RightOrRefused};

// A parser is right, or refused by one of 2 to 6.
pub fn right_or_refused()
    ensures { RightOrRefused }
{}

// A function that keeps the promise on every request is a right program.
pub fn promised_is_right()
    ensures { PromisedIsRight }
{}
