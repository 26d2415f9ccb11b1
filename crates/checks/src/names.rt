// Is each header and each state there that is named.
ghost use Rattle.std.specs.Prelude.{◌≡◌, length, nat_lt};
ghost use Rattle.std.specs.List.{list_all};
ghost use Rattle.model.specs.Refusal.{named_expr, named_op, named_state, named_target};
ghost use Rattle.model.specs.Refusal.{named as all_named};
ghost use Rattle.syntax.specs.View.{case_of, expr_of, op_of, parser_of, state_of, target_of};

use syntax::{Case, Expr, Op, Parser, State, Target};

// Is each header and each state there that the parser names?
pub(crate) fn named(parser: &Parser) -> bool
    ensures { result ≡ all_named (parser_of parser.now) }
{
    let names = Names {
        sizes: &parser.sizes,
        states: parser.states.len(),
    };
    names.states(&parser.states)
}

// The headers that are there, by their sizes, and how many states. A chain has a function of its own, where the check proves it alone.
#[derive(Clone, Copy)]
struct Names<'a> {
    sizes: &'a [u16],
    states: usize,
}

impl Names<'_> {
    fn states(&self, states: &[State]) -> bool
        ensures { result ≡ list_all (λ q. named_state self.now.sizes.now self.now.states (state_of q)) states.now }
    {
        states.iter().all(|state| self.state(state))
    }

    fn state(&self, state: &State) -> bool
        ensures { result ≡ named_state self.now.sizes.now self.now.states (state_of state.now) }
    {
        self.ops(&state.ops)
            && self.exprs(&state.keys)
            && self.cases(&state.cases)
            && self.target(state.otherwise)
    }

    fn ops(&self, ops: &[Op]) -> bool
        ensures { result ≡ list_all (λ o. named_op self.now.sizes.now (op_of o)) ops.now }
    {
        ops.iter().all(|op| self.op(op))
    }

    fn exprs(&self, exprs: &[Expr]) -> bool
        ensures { result ≡ list_all (λ e. named_expr self.now.sizes.now (expr_of e)) exprs.now }
    {
        exprs.iter().all(|e| self.expr(e))
    }

    fn cases(&self, cases: &[Case]) -> bool
        ensures { result ≡ list_all (λ k. named_target self.now.states (case_of k).target) cases.now }
    {
        cases.iter().all(|case| self.target(case.target))
    }

    fn op(&self, op: &Op) -> bool
        ensures { result ≡ named_op self.now.sizes.now (op_of op.now) }
    {
        match op {
            Op::Extract(h) => self.header(*h),
            Op::Assign(h, e) => self.header(*h) && self.expr(e),
        }
    }

    fn expr(&self, e: &Expr) -> bool
        ensures { result ≡ named_expr self.now.sizes.now (expr_of e.now) }
    {
        match e {
            Expr::Header(h) => self.header(*h),
            Expr::Bits(_) => true,
            Expr::Slice(inner, _, _) => self.expr(inner),
            Expr::Join(left, right) => self.expr(left) && self.expr(right),
        }
    }

    fn header(&self, h: u16) -> bool
        ensures { result ≡ nat_lt h (length self.now.sizes.now) }
    {
        (h as usize) < self.sizes.len()
    }

    // An end is always there.
    fn target(&self, target: Target) -> bool
        ensures { result ≡ named_target self.now.states (target_of target) }
    {
        match target {
            Target::State(q) => (q as usize) < self.states,
            Target::Accept | Target::Reject => true,
        }
    }
}
