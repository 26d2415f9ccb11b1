// Has each part of a parser its width: slices lie within, what is assigned fills its header, and a pattern is as wide as its key.
ghost use Rattle.std.specs.Prelude.{◌≡◌, true, map, slice_index};
ghost use Rattle.std.specs.List.{list_all, zip};
ghost use Rattle.model.specs.Refusal.{expr_width, sized_expr, sized_op, sized_patterns, sized_state};
ghost use Rattle.model.specs.Refusal.{sized as all_sized};
ghost use Rattle.syntax.specs.View.{expr_of, op_of, parser_of, pattern_of, state_of};
ghost use Rattle.checks.specs.Measured.{Measured};
ghost use Rattle.checks.specs.Paired.{sized_pattern};

use crate::contents::are_bits;
use syntax::{Case, Expr, Op, Parser, Pattern, State};

// Nothing is wider.
const WIDEST: usize = 4096;

// Has each part of each state its width?
pub(crate) fn sized(parser: &Parser) -> bool
    ensures { result ≡ all_sized (parser_of parser.now) }
{
    Widths::new(&parser.sizes).states(&parser.states)
}

// How wide the headers are. A chain has a function of its own, where the check proves it alone.
#[derive(Clone, Copy)]
pub(crate) struct Widths<'a> {
    pub(crate) sizes: &'a [u16],
}

impl<'a> Widths<'a> {
    pub(crate) fn new(sizes: &'a [u16]) -> Widths<'a>
        ensures { result.sizes.now ≡ sizes.now }
    {
        Widths { sizes }
    }

    // How many bits a header has: none where there is no such header.
    pub(crate) fn header(&self, h: u16) -> usize
        ensures { result ≡ slice_index self.now.sizes.now h }
    {
        self.sizes.get(h as usize).map_or(0, |size| *size as usize)
    }

    fn states(&self, states: &[State]) -> bool
        ensures { result ≡ list_all (λ q. sized_state self.now.sizes.now (state_of q)) states.now }
    {
        states.iter().all(|state| self.state(state))
    }

    fn state(&self, state: &State) -> bool
        ensures { result ≡ sized_state self.now.sizes.now (state_of state.now) }
    {
        self.ops(&state.ops) && self.exprs(&state.keys) && self.cases(&state.keys, &state.cases)
    }

    fn ops(&self, ops: &[Op]) -> bool
        ensures { result ≡ list_all (λ o. sized_op self.now.sizes.now (op_of o)) ops.now }
    {
        ops.iter().all(|op| self.op(op))
    }

    fn exprs(&self, exprs: &[Expr]) -> bool
        ensures { result ≡ list_all (λ e. sized_expr self.now.sizes.now (expr_of e)) exprs.now }
    {
        exprs.iter().all(|e| self.expr(e).is_some())
    }

    fn cases(&self, keys: &[Expr], cases: &[Case]) -> bool
        ensures { list_all (λ e. sized_expr self.now.sizes.now (expr_of e)) keys.now ≡ true → result ≡ list_all (λ k. sized_patterns self.now.sizes.now (map expr_of keys.now) (map pattern_of k.patterns.items)) cases.now }
    {
        cases.iter().all(|case| self.patterns(keys, &case.patterns))
    }

    // A pattern for each key, each of its key's width.
    fn patterns(&self, keys: &[Expr], patterns: &[Pattern]) -> bool
        ensures { list_all (λ e. sized_expr self.now.sizes.now (expr_of e)) keys.now ≡ true → result ≡ sized_patterns self.now.sizes.now (map expr_of keys.now) (map pattern_of patterns.now) }
    {
        keys.len() == patterns.len() && self.each_pattern(keys, patterns)
    }

    fn each_pattern(&self, keys: &[Expr], patterns: &[Pattern]) -> bool
        ensures { result ≡ list_all (λ p. sized_pattern self.now.sizes.now (expr_of p.0) (pattern_of p.1)) (zip keys.now patterns.now) }
    {
        keys.iter()
            .zip(patterns)
            .all(|(key, pattern)| self.pattern(key, pattern))
    }

    fn pattern(&self, key: &Expr, pattern: &Pattern) -> bool
        ensures { result ≡ sized_pattern self.now.sizes.now (expr_of key.now) (pattern_of pattern.now) }
    {
        match pattern {
            Pattern::Exactly(bits) => self.expr(key) == Some(bits.len()) && are_bits(bits),
            Pattern::Any => true,
        }
    }

    fn op(&self, op: &Op) -> bool
        ensures { result ≡ sized_op self.now.sizes.now (op_of op.now) }
    {
        match op {
            Op::Extract(_) => true,
            Op::Assign(h, e) => self.expr(e) == Some(self.header(*h)),
        }
    }

    // How many bits an expression has, if those of its parts are right. Tests by `if`, which is plainer here than `then_some`.
    fn expr(&self, e: &Expr) -> Option<usize>
        ensures { Measured (sized_expr self.now.sizes.now (expr_of e.now)) (expr_width self.now.sizes.now (expr_of e.now)) result }
    {
        match e {
            Expr::Header(h) => Some(self.header(*h)),
            Expr::Bits(bits) => {
                if are_bits(bits) && bits.len() <= WIDEST {
                    Some(bits.len())
                } else {
                    None
                }
            }
            Expr::Slice(inner, lo, hi) => {
                let n = self.expr(inner)?;
                if lo <= hi && (*hi as usize) < n {
                    Some(*hi as usize + 1 - *lo as usize)
                } else {
                    None
                }
            }
            Expr::Join(first, second) => {
                let n = self.expr(first)?.saturating_add(self.expr(second)?);
                if n <= WIDEST { Some(n) } else { None }
            }
        }
    }
}
