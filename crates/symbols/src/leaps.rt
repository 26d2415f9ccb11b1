// One side of a leap.
ghost use Rattle.std.specs.Prelude.{◌≡◌, ℕ, ◌+◌, ◌<◌, ◌≤◌, length};
ghost use Rattle.symbols.specs.View.{in_row, header_bits};
ghost use Rattle.symbols.specs.Symbol.{Below};
ghost use Rattle.symbols.specs.Side.{Stands, Told, When, Within, WithinTop};

use crate::point::{Leapt, Places, Point};
use crate::row::number;
use crate::walk::perform;
use machine::Machine;
use syntax::Target;

// k bits at a point. The header bits' symbols after them are left in `heads`, and while a state waits
// those of what it has taken in `buffer`. They are the same for every outcome, since ops come before the select.
// Why these stand beside the machine is said in walk.rt.
pub fn leap(
    machine: &Machine,
    point: Point,
    places: Places,
    k: usize,
    heads: &mut [u64],
    buffer: &mut [u64],
    scratch: &mut [u64],
) -> Leapt
    requires stands { Stands machine.now point }
    requires some { 0 < k }
    requires within { Within machine.now point k }
    requires there { header_bits machine.now ≤ length heads.old }
    requires room { point.taken + k ≤ length buffer.old }
    requires aside { header_bits machine.now ≤ length scratch.old }
    ensures when { When machine.now point k result }
    ensures told { Told machine.now point places k result heads.new buffer.new }
    ensures heads { (top : ℕ) → WithinTop machine.now point places k top → Below top (in_row heads.new) (header_bits machine.now) }
    ensures buffer { result ≡ Leapt.Waits → (top : ℕ) → WithinTop machine.now point places k top → Below top (in_row buffer.new) (point.taken + k) }
{
    number(heads, 0, heads.len(), places.head);
    match point.target {
        Target::State(q) => {
            number(buffer, 0, point.taken, places.sofar);
            number(buffer, point.taken, k, places.fresh);
            if point.taken + k < machine.width(q) {
                return Leapt::Waits;
            }
            let state = &machine.checked.parser.states[q as usize];
            perform(machine, state, heads, &buffer[..point.taken + k], scratch);
            Leapt::Walked(q)
        }
        Target::Accept | Target::Reject => Leapt::Ended,
    }
}
