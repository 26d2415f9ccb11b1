// What the ops of a state do to rows of symbols.
ghost use Rattle.std.specs.Prelude.{◌≡◌, ℕ, ◌<◌, ◌≤◌, length, take, slice_index, slice_set};
ghost use Rattle.model.specs.Parser.{ops_width, run_ops, value};
ghost use Rattle.model.specs.Refusal.{expr_width};
ghost use Rattle.syntax.specs.View.{expr_of, state_of};
ghost use Rattle.machine.specs.Sound.{Proper, Sound};
ghost use Rattle.machine.specs.View.{sizes_in, state_count};
ghost use Rattle.symbols.specs.View.{header_bits, symbols_in};

use crate::heads::Heads;
use crate::row;
use machine::Machine;
use syntax::{Expr, Op, State};

// All ops of a state, one after the other. `heads` and `scratch` stand beside the machine here and below: a
// struct that held them to be written would have each method promise that they are still the same rows.
// machine has the same loop over bits in a store: a trait of both, with laws of put and assign, would be longer than the loop.
pub(crate) fn perform(
    machine: &Machine,
    state: &State,
    heads: &mut [u64],
    part: &[u64],
    scratch: &mut [u64],
)
    requires sound { Sound (sizes_in machine.now) (state_count machine.now) (state_of state.now) }
    requires wide { length part.now ≡ ops_width (sizes_in machine.now) (state_of state.now).ops }
    requires there { header_bits machine.now ≤ length heads.old }
    requires aside { header_bits machine.now ≤ length scratch.old }
    ensures { symbols_in machine.now heads.new ≡ run_ops (sizes_in machine.now) (state_of state.now).ops part.now (symbols_in machine.now heads.old) }
{
    let mut rest = part;
    for op in &state.ops {
        match op {
            Op::Extract(h) => {
                let (symbols, after) = rest.split_at(machine.size(*h));
                put(machine, *h, heads, symbols);
                rest = after;
            }
            Op::Assign(h, e) => assign(machine, *h, heads, e, scratch),
        }
    }
}

// a header gets the first of these symbols
fn put(machine: &Machine, h: u16, heads: &mut [u64], symbols: &[u64])
    requires known { h < length (sizes_in machine.now) }
    requires there { header_bits machine.now ≤ length heads.old }
    requires long { slice_index (sizes_in machine.now) h ≤ length symbols.now }
    ensures { symbols_in machine.now heads.new ≡ slice_set (symbols_in machine.now heads.old) h (take (slice_index (sizes_in machine.now) h) symbols.now) }
{
    row::copy(heads, machine.start(h), symbols, 0, machine.size(h));
}

// A header gets the symbols of an expression, which may read that header: so they are written aside first.
fn assign(machine: &Machine, h: u16, heads: &mut [u64], e: &Expr, scratch: &mut [u64])
    requires known { h < length (sizes_in machine.now) }
    requires proper { Proper (sizes_in machine.now) (expr_of e.now) }
    requires wide { expr_width (sizes_in machine.now) (expr_of e.now) ≡ slice_index (sizes_in machine.now) h }
    requires there { header_bits machine.now ≤ length heads.old }
    requires aside { header_bits machine.now ≤ length scratch.old }
    ensures { symbols_in machine.now heads.new ≡ slice_set (symbols_in machine.now heads.old) h (value (symbols_in machine.now heads.old) (expr_of e.now)) }
{
    let before = Heads {
        machine,
        symbols: heads,
    };
    before.fill(e, machine.size(h), scratch, 0);
    put(machine, h, heads, scratch);
}
