// How many bits a machine can hold: in its headers, and in wait for its widest state.
ghost use Rattle.std.specs.Prelude.{◌≡◌, ℕ, ◌≤◌, max, sum as sum_of};
ghost use Rattle.std.specs.List.{fold};
ghost use Rattle.model.specs.Refusal.{sum, widest as widest_of};
ghost use Rattle.machine.specs.View.{parser_in, sizes_in};

use crate::machine::Machine;

impl Machine {
    // how many bits all headers have
    pub fn header_bits(&self) -> usize
        ensures value { result ≡ sum (sizes_in self.now) }
        ensures few { result ≤ 4096 }
    {
        total(&self.checked.parser.sizes)
    }

    // how many bits the widest state takes
    pub fn widest(&self) -> usize
        ensures value { result ≡ widest_of (sizes_in self.now) (parser_in self.now).states }
        ensures few { result ≤ 4096 }
    {
        greatest(&self.widths) as usize
    }
}

fn total(sizes: &[u16]) -> usize
    requires { sum_of sizes.now ≤ 4096 }
    ensures { result ≡ sum_of sizes.now }
{
    sizes.iter().map(|size| *size as usize).sum()
}

// the greatest, or 0 where there is none
fn greatest(widths: &[u16]) -> u16
    ensures { result ≡ fold max 0 widths.now }
{
    widths.iter().fold(0, |most, width| most.max(*width))
}
