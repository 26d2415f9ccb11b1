// A machine that runs from what is in its headers: is an input accepted.
ghost use Rattle.std.specs.Prelude.{◌≡◌, ℕ, ◌<◌, true, map, vec_items};
ghost use Rattle.model.specs.Parser.{accepts};
ghost use Rattle.model.specs.Refusal.{are_bits, store_fits};
ghost use Rattle.machine.specs.View.{contents, parser_in, sizes_in, state_count};

use crate::machine::Machine;
use crate::store::Store;
use syntax::Target;

impl Machine {
    // what is in the headers, put into words
    pub fn load(&self, headers: &[Vec<u8>]) -> Store
        requires { store_fits (sizes_in self.now) (map vec_items headers.now) ≡ true }
        ensures { contents self.now result ≡ map vec_items headers.now }
    {
        let mut store = Store::empty();
        for (h, bits) in headers.iter().enumerate() {
            self.put(h as u16, &mut store, bits);
        }
        store
    }

    // is an input accepted, from a state and with what is in the headers
    pub fn accepts(&self, store: &mut Store, start: u16, input: &[u8]) -> bool
        requires begins { start < state_count self.now }
        requires bits { are_bits input.now ≡ true }
        ensures { result ≡ accepts (parser_in self.now) (contents self.now store.old) start input.now }
    {
        let mut target = Target::State(start);
        let mut rest = input;
        loop {
            match target {
                Target::State(q) => {
                    let Some((part, after)) = rest.split_at_checked(self.width(q)) else {
                        return false;
                    };
                    target = self.walk(q, store, part);
                    rest = after;
                }
                Target::Accept => return rest.is_empty(),
                Target::Reject => return false,
            }
        }
    }
}
