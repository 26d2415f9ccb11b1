// Is a parser within its limits: how many headers, bits, states and parts it has, and how deep its expressions are.
ghost use Rattle.std.specs.Prelude.{◌≡◌, ◌≤◌, length, map, nat_lt, sum};
ghost use Rattle.std.specs.List.{list_all};
ghost use Rattle.model.specs.Refusal.{parts_case, parts_expr, parts_op, parts_pattern, parts_state};
ghost use Rattle.model.specs.Refusal.{shallow_expr, shallow_op, shallow_state, within_limits};
ghost use Rattle.model.specs.Refusal.{shallow as within_depth};
ghost use Rattle.syntax.specs.View.{case_of, expr_of, op_of, parser_of, pattern_of, state_of};
ghost use Rattle.checks.specs.Measured.{Spent, headers_within, states_within};

use crate::pay::{Parts, pay_all};
use syntax::{Case, DEPTH, Expr, Op, Parser, Pattern, State};

// What a parser may have at most.
const HEADERS: usize = 64;

const HEADER_BITS: usize = 4096;

const STATES: usize = 64;

const PARTS: usize = 16384;

// Depth is looked at before what else recurses.
pub(crate) fn within_limits(parser: &Parser) -> bool
    ensures { result ≡ within_limits (parser_of parser.now) }
{
    headers_within(&parser.sizes) && are_shallow(&parser.states) && states_within(&parser.states)
}

// Are the headers few, with a bit each at least, and not too many together?
fn headers_within(sizes: &[u16]) -> bool
    ensures { result ≡ headers_within sizes.now }
{
    sizes.len() <= HEADERS && have_bits(sizes) && total_bits(sizes) <= HEADER_BITS
}

fn have_bits(sizes: &[u16]) -> bool
    ensures { result ≡ list_all (nat_lt 0) sizes.now }
{
    sizes.iter().all(|size| *size > 0)
}

// As machine's measure has it: one chain.
fn total_bits(sizes: &[u16]) -> usize
    requires { length sizes.now ≤ 64 }
    ensures { result ≡ sum sizes.now }
{
    sizes.iter().map(|size| *size as usize).sum()
}

// Are the states few, and their parts?
fn states_within(states: &[State]) -> bool
    ensures { result ≡ states_within (map state_of states.now) }
{
    states.len() <= STATES && pay_all(states, PARTS).is_some()
}

impl Parts for State {
    ghost parts = { λ q. parts_state (state_of q) };

    fn pay(&self, left: usize) -> Option<usize> {
        let left = left.checked_sub(1)?;
        let left = pay_all(&self.ops, left)?;
        let left = pay_all(&self.keys, left)?;
        pay_all(&self.cases, left)
    }
}

impl Parts for Op {
    ghost parts = { λ o. parts_op (op_of o) };

    fn pay(&self, left: usize) -> Option<usize> {
        let left = left.checked_sub(1)?;
        match self {
            Op::Extract(_) => Some(left),
            Op::Assign(_, e) => e.pay(left),
        }
    }
}

impl Parts for Expr {
    ghost parts = { λ e. parts_expr (expr_of e) };

    fn pay(&self, left: usize) -> Option<usize> {
        pay_expr(self, left)
    }
}

impl Parts for Case {
    ghost parts = { λ k. parts_case (case_of k) };

    fn pay(&self, left: usize) -> Option<usize> {
        pay_all(&self.patterns, left.checked_sub(1)?)
    }
}

impl Parts for Pattern {
    ghost parts = { λ p. parts_pattern (pattern_of p) };

    fn pay(&self, left: usize) -> Option<usize> {
        let left = left.checked_sub(1)?;
        match self {
            Pattern::Exactly(bits) => left.checked_sub(bits.len()),
            Pattern::Any => Some(left),
        }
    }
}

fn pay_expr(e: &Expr, left: usize) -> Option<usize>
    ensures { Spent (parts_expr (expr_of e.now)) left result }
{
    let left = left.checked_sub(1)?;
    match e {
        Expr::Header(_) => Some(left),
        Expr::Bits(bits) => left.checked_sub(bits.len()),
        Expr::Slice(inner, _, _) => pay_expr(inner, left),
        Expr::Join(first, second) => {
            let left = pay_expr(first, left)?;
            pay_expr(second, left)
        }
    }
}

fn are_shallow(states: &[State]) -> bool
    ensures { result ≡ list_all (λ q. shallow_state (state_of q)) states.now }
{
    states.iter().all(|state| is_shallow_state(state))
}

fn is_shallow_state(state: &State) -> bool
    ensures { result ≡ shallow_state (state_of state.now) }
{
    are_shallow_ops(&state.ops) && are_shallow_keys(&state.keys)
}

fn are_shallow_ops(ops: &[Op]) -> bool
    ensures { result ≡ list_all (λ o. shallow_op (op_of o)) ops.now }
{
    ops.iter().all(|op| match op {
        Op::Extract(_) => true,
        Op::Assign(_, e) => is_shallow(e, DEPTH),
    })
}

fn are_shallow_keys(keys: &[Expr]) -> bool
    ensures { result ≡ list_all (λ e. within_depth (expr_of e)) keys.now }
{
    keys.iter().all(|e| is_shallow(e, DEPTH))
}

fn is_shallow(e: &Expr, depth: u8) -> bool
    ensures { result ≡ shallow_expr (expr_of e.now) depth }
{
    match e {
        Expr::Header(_) | Expr::Bits(_) => true,
        Expr::Slice(inner, _, _) => depth > 0 && is_shallow(inner, depth - 1),
        Expr::Join(first, second) => depth > 0
            && is_shallow(first, depth - 1)
            && is_shallow(second, depth - 1),
    }
}
