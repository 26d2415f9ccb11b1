// Literals: a bit, or its negation.
ghost use Rattle.std.specs.Prelude.{◌≡◌, ◌+◌, ◌*◌, ◌/◌, ◌%◌, ◌^◌};
ghost use Rattle.clauses.specs.Clauses.{bit};

#[derive(Clone, Copy, PartialEq, Eq, Debug)]
pub struct Literal {
    pub position: usize,
    pub negated: bool,
}

/// To 2 * position, + 1 if negated.
impl From<Literal> for u64 {
    ghost from_gives = { λ l x. x ≡ (2 * l.position) % 2 ^ 64 + bit l.negated };

    fn from(l: Literal) -> u64 {
        (l.position as u64) << 1 | l.negated as u64
    }
}

/// From 2 * position, + 1 if negated.
impl From<u64> for Literal {
    ghost from_gives = { λ l r. (r.position ≡ l / 2) × (bit r.negated ≡ l % 2) };

    #[tactic(auto, using(crate::proofs::Signs::bit_odd))]
    fn from(l: u64) -> Literal {
        Literal {
            position: (l / 2) as usize,
            negated: l % 2 == 1,
        }
    }
}
