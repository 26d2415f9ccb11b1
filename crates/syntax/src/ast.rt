// The parts of a parser. What each type means in the model is specs/View.antt.

// At most 16 expressions in one another are kept and right: 15 below the first.
pub const DEPTH: u8 = 15;

// Bits that are copied: of a header, of a constant (one bit to a byte), from one bit of an
// expression up to and with a later one, or of two expressions joined.
#[derive(PartialEq, Eq, Debug, Drop)]
pub enum Expr {
    Header(u16),
    Bits(Vec<u8>),
    Slice(Box<Expr>, u16, u16),
    Join(Box<Expr>, Box<Expr>),
}

// A header gets the next bits of the input, or the value of an expression.
#[derive(PartialEq, Eq, Debug, Drop)]
pub enum Op {
    Extract(u16),
    Assign(u16, Expr),
}

// Where a state leads.
#[derive(Clone, Copy, PartialEq, Eq, Debug)]
pub enum Target {
    State(u16),
    Accept,
    Reject,
}

// What a select key is held to.
#[derive(PartialEq, Eq, Debug, Drop)]
pub enum Pattern {
    Exactly(Vec<u8>),
    Any,
}

// A pattern for each select key, and where the case leads.
#[derive(PartialEq, Eq, Debug, Drop)]
pub struct Case {
    pub patterns: Vec<Pattern>,
    pub target: Target,
}

// Ops are done in order; then the first case that matches the keys leads on, else `otherwise`.
#[derive(PartialEq, Eq, Debug, Drop)]
pub struct State {
    pub ops: Vec<Op>,
    pub keys: Vec<Expr>,
    pub cases: Vec<Case>,
    pub otherwise: Target,
}

// How many bits each header has, and the states.
#[derive(PartialEq, Eq, Debug, Drop)]
pub struct Parser {
    pub sizes: Vec<u16>,
    pub states: Vec<State>,
}
