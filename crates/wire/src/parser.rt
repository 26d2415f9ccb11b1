// A parser and its parts, in the order of the format.
ghost use Rattle.std.specs.Prelude.{◌≡◌, ℕ, List, map, vec_items};
ghost use Rattle.model.specs.Parser as M;
ghost use Rattle.model.specs.Refusal.{every, shallow, shallow_op, shallow_state};
ghost use Rattle.syntax.specs.View.{expr_of, op_of, target_of, pattern_of, case_of, state_of, parser_of};
ghost use Rattle.format.specs.Read.{read_number, read_row};
ghost use Rattle.format.specs.Format.{read_expr, read_op, read_target, read_pattern, read_case, read_state, read_parser};
ghost use Rattle.scan.specs.Reads.{Is, Within};
ghost use Rattle.wire.specs.Kept.{shallow_parser};

use crate::list::{FromBytes, read_kept, read_list};
use scan::{Fault, Reader};
use std::alloc::Global;
use syntax::{Case, DEPTH, Expr, Op, Parser, Pattern, State, Target};

// How many bits a header has.
impl FromBytes for u16 {
    type Kept = u16;

    ghost Meaning = { ℕ };

    ghost read_by = { read_number 2 };

    ghost means = { Is (λ n. n) };

    fn read(_: Global, reader: &mut Reader) -> Result<u16, Fault> {
        reader.u16()
    }
}

// What is in a header.
impl FromBytes for Vec<u8> {
    type Kept = Vec<u8>;

    ghost Meaning = { List ℕ };

    ghost read_by = { read_row 2 };

    ghost means = { Is vec_items };

    fn read(heap: Global, reader: &mut Reader) -> Result<Vec<u8>, Fault> {
        reader.kept_row(heap, 2)
    }
}

// Where a state or a case leads.
impl FromBytes for Target {
    type Kept = Target;

    ghost Meaning = { M.Target };

    ghost read_by = { read_target };

    ghost means = { Is target_of };

    fn read(_: Global, reader: &mut Reader) -> Result<Target, Fault> {
        match reader.tag(3)? {
            0 => Ok(Target::State(reader.u16()?)),
            1 => Ok(Target::Accept),
            _ => Ok(Target::Reject),
        }
    }
}

impl FromBytes for Pattern {
    type Kept = Pattern;

    ghost Meaning = { M.Pattern };

    ghost read_by = { read_pattern };

    ghost means = { Is pattern_of };

    fn read(heap: Global, reader: &mut Reader) -> Result<Pattern, Fault> {
        match reader.tag(2)? {
            0 => Ok(Pattern::Exactly(reader.kept_row(heap, 2)?)),
            _ => Ok(Pattern::Any),
        }
    }
}

impl FromBytes for Case {
    type Kept = Case;

    ghost Meaning = { M.Case };

    ghost read_by = { read_case };

    ghost means = { Is case_of };

    fn read(heap: Global, reader: &mut Reader) -> Result<Case, Fault> {
        let patterns = read_list(heap, reader)?;
        let target = Target::read(heap, reader)?;
        Ok(Case { patterns, target })
    }
}

// A select key, or an expression that is assigned.
impl FromBytes for Expr {
    type Kept = Option<Expr>;

    ghost Meaning = { M.Expr };

    ghost read_by = { read_expr };

    ghost means = { Within expr_of shallow };

    fn read(heap: Global, reader: &mut Reader) -> Result<Option<Expr>, Fault> {
        reader.expr(heap, DEPTH)
    }
}

// An assignment of an expression that was kept.
fn assign(header: u16, value: Option<Expr>) -> Option<Op>
    ensures { (e : M.Expr) → Within expr_of shallow value e → Within op_of shallow_op result (M.assign header e) }
{
    Some(Op::Assign(header, value?))
}

impl FromBytes for Op {
    type Kept = Option<Op>;

    ghost Meaning = { M.Op };

    ghost read_by = { read_op };

    ghost means = { Within op_of shallow_op };

    fn read(heap: Global, reader: &mut Reader) -> Result<Option<Op>, Fault> {
        match reader.tag(2)? {
            0 => Ok(Some(Op::Extract(reader.u16()?))),
            _ => {
                let header = reader.u16()?;
                let value = Expr::read(heap, reader)?;
                Ok(assign(header, value))
            }
        }
    }
}

// A state of which all was kept.
fn state(
    ops: Option<Vec<Op>>,
    keys: Option<Vec<Expr>>,
    cases: Vec<Case>,
    otherwise: Target,
) -> Option<State>
    ensures { (os : List M.Op) (es : List M.Expr) → Within (λ v. map op_of v.items) (every shallow_op) ops os → Within (λ v. map expr_of v.items) (every shallow) keys es → Within state_of shallow_state result (record { ops = os; keys = es; cases = map case_of cases.items; otherwise = target_of otherwise }) }
{
    let (ops, keys) = (ops?, keys?);
    Some(State {
        ops,
        keys,
        cases,
        otherwise,
    })
}

impl FromBytes for State {
    type Kept = Option<State>;

    ghost Meaning = { M.State };

    ghost read_by = { read_state };

    ghost means = { Within state_of shallow_state };

    fn read(heap: Global, reader: &mut Reader) -> Result<Option<State>, Fault> {
        let ops = read_kept(heap, reader)?;
        let keys = read_kept(heap, reader)?;
        let cases = read_list(heap, reader)?;
        let otherwise = Target::read(heap, reader)?;
        Ok(state(ops, keys, cases, otherwise))
    }
}

// A parser of which all was kept.
fn parser(sizes: Vec<u16>, states: Option<Vec<State>>) -> Option<Parser>
    ensures { (qs : List M.State) → Within (λ v. map state_of v.items) (every shallow_state) states qs → Within parser_of shallow_parser result (record { sizes = sizes.items; states = qs }) }
{
    Some(Parser {
        sizes,
        states: states?,
    })
}

// None is kept where an expression in it is nested too deep.
impl FromBytes for Parser {
    type Kept = Option<Parser>;

    ghost Meaning = { M.Parser };

    ghost read_by = { read_parser };

    ghost means = { Within parser_of shallow_parser };

    fn read(heap: Global, reader: &mut Reader) -> Result<Option<Parser>, Fault> {
        let sizes = read_list(heap, reader)?;
        let states = read_kept(heap, reader)?;
        Ok(parser(sizes, states))
    }
}
