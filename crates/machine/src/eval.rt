// The value of an expression, held to bits or written into a store.
ghost use Rattle.std.specs.Prelude.{◌≡◌, ◌≢◌, ◌+◌, ◌≤◌, ◌++◌, length, take};
ghost use Rattle.model.specs.Parser.{value, same_bits};
ghost use Rattle.model.specs.Refusal.{expr_width};
ghost use Rattle.syntax.specs.View.{expr_of};
ghost use Rattle.machine.specs.Row.{bit_in};
ghost use Rattle.machine.specs.Sound.{Proper};
ghost use Rattle.machine.specs.View.{contents, sizes_in};
ghost use Rattle.machine.specs.Window.{Wrote};
ghost use Rattle.machine.specs.Sinks.{held_laws, filling_laws};

use crate::machine::Machine;
use crate::sink::Sink;
use crate::store::Store;
use crate::want::Want;
use syntax::Expr;

// the bits that a value is still held to
#[derive(Clone, Copy)]
pub(crate) struct Held<'a> {
    store: &'a Store,
    bits: &'a [u8],
}

impl<'a> Sink for Held<'a> {
    ghost source = { λ s. bit_in s.store.now.words };

    ghost places = { λ s. 4096 };

    ghost Fits = { λ s n. n ≤ length s.bits.now };

    ghost Took = { λ s t xs. (t.store.now ≡ s.store.now) × (s.bits.now ≡ xs ++ t.bits.now) };

    ghost Refuses = { λ s xs. take (length xs) s.bits.now ≢ xs };

    fn header(&mut self, start: usize, n: usize) -> Option<()> {
        let (bits, rest) = self.bits.split_at(n);
        if !self.store.holds(start, bits) {
            return None;
        }
        self.bits = rest;
        Some(())
    }

    fn constant(&mut self, bits: &[u8]) -> Option<()> {
        let (first, rest) = self.bits.split_at(bits.len());
        if first != bits {
            return None;
        }
        self.bits = rest;
        Some(())
    }

    ghost laws = { held_laws };
}

// a store that a value is written into, from bit `at` on; headers are read as they were before
#[derive(Drop)]
pub(crate) struct Filling<'a> {
    pub(crate) before: &'a Store,
    pub(crate) store: &'a mut Store,
    pub(crate) at: usize,
}

impl<'a> Sink for Filling<'a> {
    ghost source = { λ s. bit_in s.before.now.words };

    ghost places = { λ s. 4096 };

    ghost Fits = { λ s n. s.at + n ≤ 4096 };

    ghost Took = { λ s t xs. (t.before.now ≡ s.before.now) × (t.store.ghost_name ≡ s.store.ghost_name) × Wrote (bit_in s.store.now.words) (bit_in t.store.now.words) s.at t.at xs };

    ghost Refuses = { λ s xs. ⊥ };

    fn header(&mut self, start: usize, n: usize) -> Option<()> {
        self.store.copy(self.at, self.before, start, n);
        self.at += n;
        Some(())
    }

    fn constant(&mut self, bits: &[u8]) -> Option<()> {
        self.store.write(self.at, bits);
        self.at += bits.len();
        Some(())
    }

    ghost laws = { filling_laws };
}

impl Machine {
    // does an expression have exactly these bits
    pub(crate) fn equals(&self, e: &Expr, store: &Store, bits: &[u8]) -> bool
        requires proper { Proper (sizes_in self.now) (expr_of e.now) }
        requires wide { length bits.now ≡ expr_width (sizes_in self.now) (expr_of e.now) }
        ensures { result ≡ same_bits (value (contents self.now store.now) (expr_of e.now)) bits.now }
    {
        let mut held = Held { store, bits };
        self.hand(e, Want::first(bits.len()), &mut held).is_some()
    }
}
