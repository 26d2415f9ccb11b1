// The symbols of an expression, written into a row.
ghost use Rattle.std.specs.Prelude.{◌≡◌, ◌+◌, ◌≤◌, length};
ghost use Rattle.model.specs.Parser.{value};
ghost use Rattle.model.specs.Refusal.{expr_width};
ghost use Rattle.syntax.specs.View.{expr_of};
ghost use Rattle.machine.specs.Sound.{Proper};
ghost use Rattle.machine.specs.View.{sizes_in};
ghost use Rattle.machine.specs.Window.{Written, Wrote};
ghost use Rattle.symbols.specs.Filling.{filling_laws};
ghost use Rattle.symbols.specs.View.{in_row, symbols_in};

use crate::heads::Heads;
use crate::row;
use machine::{Sink, Want};
use syntax::Expr;

// a row that symbols are written into, from place `at` on; those of the headers are in `heads`
#[derive(Drop)]
pub(crate) struct Filling<'a> {
    heads: &'a [u64],
    out: &'a mut [u64],
    at: usize,
}

impl<'a> Sink for Filling<'a> {
    ghost source = { λ s. in_row s.heads.now };

    ghost places = { λ s. length s.heads.now };

    ghost Fits = { λ s n. s.at + n ≤ length s.out.now };

    ghost Took = { λ s t xs. (t.heads.now ≡ s.heads.now) × (t.out.ghost_name ≡ s.out.ghost_name) × (length t.out.now ≡ length s.out.now) × Wrote (in_row s.out.now) (in_row t.out.now) s.at t.at xs };

    ghost Refuses = { λ s xs. ⊥ };

    fn header(&mut self, start: usize, n: usize) -> Option<()> {
        row::copy(self.out, self.at, self.heads, start, n);
        self.at += n;
        Some(())
    }

    fn constant(&mut self, bits: &[u8]) -> Option<()> {
        row::write(self.out, self.at, bits);
        self.at += bits.len();
        Some(())
    }

    ghost laws = { filling_laws };
}

impl Heads<'_> {
    // Writes the symbols of an expression into `out` from `at` on, all n of them.
    pub(crate) fn fill(&self, e: &Expr, n: usize, out: &mut [u64], at: usize)
        requires proper { Proper (sizes_in self.now.machine.now) (expr_of e.now) }
        requires wide { n ≡ expr_width (sizes_in self.now.machine.now) (expr_of e.now) }
        requires room { at + n ≤ length out.old }
        ensures { Written (in_row out.old) (in_row out.new) (value (symbols_in self.now.machine.now self.now.symbols.now) (expr_of e.now)) at n }
    {
        let mut filling = Filling {
            heads: self.symbols,
            out,
            at,
        };
        let _ = self.machine.hand(e, Want::first(n), &mut filling);
    }
}
