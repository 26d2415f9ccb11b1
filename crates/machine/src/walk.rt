// One walk through a state: its ops, then where it leads.
ghost use Rattle.std.specs.Prelude.{◌≡◌, ℕ, ◌<◌, ◌≤◌, true, length, take, slice_index, slice_set};
ghost use Rattle.model.specs.Parser.{value, run_ops, ops_width};
ghost use Rattle.model.specs.Refusal.{are_bits, expr_width};
ghost use Rattle.syntax.specs.View.{expr_of, state_of, target_of};
ghost use Rattle.machine.specs.Sound.{Proper, Sound};
ghost use Rattle.machine.specs.View.{contents, selected, sizes_in, state_count, state_in, width_in};

use crate::eval::Filling;
use crate::machine::Machine;
use crate::store::Store;
use crate::want::Want;
use syntax::{Expr, Op, Pattern, State, Target};

impl Machine {
    // how many bits a state takes
    pub fn width(&self, q: u16) -> usize
        requires { q < state_count self.now }
        ensures { result ≡ width_in self.now q }
    {
        self.widths[q as usize] as usize
    }

    // Walks through a state on exactly the bits that it takes.
    pub fn walk(&self, q: u16, store: &mut Store, part: &[u8]) -> Target
        requires known { q < state_count self.now }
        requires bits { are_bits part.now ≡ true }
        requires wide { length part.now ≡ width_in self.now q }
        ensures done { contents self.now store.new ≡ run_ops (sizes_in self.now) (state_in self.now q).ops part.now (contents self.now store.old) }
        ensures leads { target_of result ≡ selected (contents self.now store.new) (state_in self.now q) }
    {
        let state = &self.checked.parser.states[q as usize];
        self.perform(state, store, part);
        self.select(state, store)
    }

    // all ops of a state, one after the other
    fn perform(&self, state: &State, store: &mut Store, part: &[u8])
        requires sound { Sound (sizes_in self.now) (state_count self.now) (state_of state.now) }
        requires bits { are_bits part.now ≡ true }
        requires wide { length part.now ≡ ops_width (sizes_in self.now) (state_of state.now).ops }
        ensures { contents self.now store.new ≡ run_ops (sizes_in self.now) (state_of state.now).ops part.now (contents self.now store.old) }
    {
        let mut rest = part;
        for op in &state.ops {
            match op {
                Op::Extract(h) => {
                    let (bits, after) = rest.split_at(self.size(*h));
                    self.put(*h, store, bits);
                    rest = after;
                }
                Op::Assign(h, e) => self.assign(*h, store, e),
            }
        }
    }

    // a header gets the first of these bits
    pub(crate) fn put(&self, h: u16, store: &mut Store, bits: &[u8])
        requires known { h < length (sizes_in self.now) }
        requires bits { are_bits bits.now ≡ true }
        requires long { slice_index (sizes_in self.now) h ≤ length bits.now }
        ensures { contents self.now store.new ≡ slice_set (contents self.now store.old) h (take (slice_index (sizes_in self.now) h) bits.now) }
    {
        store.write(self.start(h), &bits[..self.size(h)]);
    }

    // A header gets the value of an expression, which may read that header: so it reads a copy.
    fn assign(&self, h: u16, store: &mut Store, e: &Expr)
        requires known { h < length (sizes_in self.now) }
        requires proper { Proper (sizes_in self.now) (expr_of e.now) }
        requires wide { expr_width (sizes_in self.now) (expr_of e.now) ≡ slice_index (sizes_in self.now) h }
        ensures { contents self.now store.new ≡ slice_set (contents self.now store.old) h (value (contents self.now store.old) (expr_of e.now)) }
    {
        let before = *store;
        let mut filling = Filling {
            before: &before,
            store,
            at: self.start(h),
        };
        let _ = self.hand(e, Want::first(self.size(h)), &mut filling);
    }

    // where the first case leads of which each pattern matches, else where `otherwise` does
    fn select(&self, state: &State, store: &Store) -> Target
        requires { Sound (sizes_in self.now) (state_count self.now) (state_of state.now) }
        ensures { target_of result ≡ selected (contents self.now store.now) (state_of state.now) }
    {
        'cases: for case in &state.cases {
            for (key, pattern) in state.keys.iter().zip(&case.patterns) {
                if let Pattern::Exactly(bits) = pattern
                    && !self.equals(key, store, bits)
                {
                    continue 'cases;
                }
            }
            return case.target;
        }
        state.otherwise
    }
}
