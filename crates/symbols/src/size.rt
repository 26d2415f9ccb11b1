// How many bits a leap has.
ghost use Rattle.std.specs.Prelude.{◌≡◌, ℕ, ◌<◌};
ghost use Rattle.syntax.specs.View.{target_of};
ghost use Rattle.theory.specs.Leap.{fewest, is_reject};
ghost use Rattle.symbols.specs.Side.{Stands, Within, missing};

use crate::point::Point;
use machine::Machine;
use syntax::Target;

// The fewer of what two points still need; reject needs none ever.
pub fn leap_size(first: &Machine, second: &Machine, a: Point, b: Point) -> usize
    requires first { Stands first.now a }
    requires second { Stands second.now b }
    ensures size { result ≡ fewest (target_of a.target) (target_of b.target) (missing first.now a) (missing second.now b) }
    ensures some { 0 < result }
    ensures first { Within first.now a result }
    ensures second { Within second.now b result }
{
    let m = still_needs(first, a);
    let n = still_needs(second, b);
    if is_reject(a.target) {
        return n;
    }
    if is_reject(b.target) {
        return m;
    }
    m.min(n)
}

fn still_needs(machine: &Machine, point: Point) -> usize
    requires { Stands machine.now point }
    ensures { result ≡ missing machine.now point }
{
    match point.target {
        Target::State(q) => machine.width(q) - point.taken,
        Target::Accept | Target::Reject => 1 - point.taken,
    }
}

fn is_reject(target: Target) -> bool
    ensures { result ≡ is_reject (target_of target) }
{
    matches!(target, Target::Reject)
}
