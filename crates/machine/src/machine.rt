// A parser that was found right, made ready to run.
ghost use Rattle.std.specs.Prelude.{◌≡◌, ℕ, ◌+◌, ◌<◌, ◌≤◌, true, map, length, IfOk, slice_index};
ghost use Rattle.model.specs.Parser.{ops_width};
ghost use Rattle.model.specs.Refusal.{every, named_op, sum};
ghost use Rattle.syntax.specs.View.{op_of, parser_of};
ghost use Rattle.machine.specs.Ready.{starts_from, widths_of};

use std::alloc::{AllocError, Global};
use syntax::{Checked, Op};

// `starts` has the first bit of each header in a store, `widths` how many bits each state takes:
// both are asked for at every bit or state that is walked.
#[derive(Drop)]
pub struct Machine {
    pub checked: Checked,
    starts: Vec<u16>,
    pub(crate) widths: Vec<u16>,
    ghost follow: { starts.items ≡ starts_from 0 checked.parser.sizes.items },
    ghost counted: { widths.items ≡ widths_of (parser_of checked.parser) },
}

impl Machine {
    pub fn new(heap: Global, checked: Checked) -> Result<Machine, AllocError>
        ensures { IfOk result (λ m. m.checked ≡ checked) }
    {
        let starts = lay_out(heap, &checked)?;
        let widths = count(heap, &checked)?;
        Ok(Machine {
            checked,
            starts,
            widths,
        })
    }

    // the first bit of a header
    pub fn start(&self, h: u16) -> usize
        requires { h < length self.now.checked.parser.sizes.items }
        ensures value { result ≡ slice_index (starts_from 0 self.now.checked.parser.sizes.items) h }
        ensures room { result + slice_index self.now.checked.parser.sizes.items h ≤ 4096 }
    {
        self.starts[h as usize] as usize
    }

    // how many bits a header has
    pub fn size(&self, h: u16) -> usize
        requires { h < length self.now.checked.parser.sizes.items }
        ensures { result ≡ slice_index self.now.checked.parser.sizes.items h }
    {
        self.checked.parser.sizes[h as usize] as usize
    }
}

// Where each header begins, one after the other. A loop is as plain as `scan` with the sum that it keeps.
fn lay_out(heap: Global, checked: &Checked) -> Result<Vec<u16>, AllocError>
    ensures { IfOk result (λ v. v.items ≡ starts_from 0 checked.now.parser.sizes.items) }
{
    let mut starts = Vec::new(heap);
    let mut next = 0;
    for size in &checked.parser.sizes {
        starts.push(next)?;
        next += *size;
    }
    Ok(starts)
}

// How many bits each state takes. A loop, since a closure in a chain would not know that a state is right.
fn count(heap: Global, checked: &Checked) -> Result<Vec<u16>, AllocError>
    ensures { IfOk result (λ v. v.items ≡ widths_of (parser_of checked.now.parser)) }
{
    let mut widths = Vec::new(heap);
    for state in &checked.parser.states {
        widths.push(count_ops(&state.ops, &checked.parser.sizes))?;
    }
    Ok(widths)
}

// How many bits ops take. A loop, since a closure in a chain would not know that a header is there.
fn count_ops(ops: &[Op], sizes: &[u16]) -> u16
    requires named { every (named_op sizes.now) (map op_of ops.now) ≡ true }
    requires few { ops_width sizes.now (map op_of ops.now) ≤ 4096 }
    ensures { result ≡ ops_width sizes.now (map op_of ops.now) }
{
    let mut total = 0;
    for op in ops {
        if let Op::Extract(h) = op {
            total += sizes[*h as usize];
        }
    }
    total
}
