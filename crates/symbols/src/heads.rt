// The symbols of a machine's header bits.
ghost use Rattle.std.specs.Prelude.{◌≤◌, length};
ghost use Rattle.symbols.specs.View.{header_bits};

use machine::Machine;

// They stand in a row, each header after the other.
#[derive(Clone, Copy)]
pub struct Heads<'a> {
    pub machine: &'a Machine,
    pub symbols: &'a [u64],
    ghost there: { header_bits machine.now ≤ length symbols.now },
}
