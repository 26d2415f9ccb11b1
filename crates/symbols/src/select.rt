// What must hold of symbols for a case to match.
ghost use Rattle.std.specs.Prelude.{◌≡◌, ℕ, ◌+◌, ◌-◌, ◌*◌, ◌<◌, ◌≤◌, true, ◌++◌, map, length, take, drop, IfSome};
ghost use Rattle.model.specs.Parser.{matches, value};
ghost use Rattle.model.specs.Refusal.{every, expr_width, named_expr, sized_expr, sized_patterns};
ghost use Rattle.syntax.specs.View.{expr_of, pattern_of};
ghost use Rattle.machine.specs.Sound.{Proper};
ghost use Rattle.machine.specs.View.{sizes_in, state_count, state_in};
ghost use Rattle.symbols.specs.Choice.{case_at};
ghost use Rattle.machine.specs.Row.{part};
ghost use Rattle.symbols.specs.View.{in_row, header_bits, symbols_in};
ghost use Rattle.symbols.specs.Symbol.{Below, are_pairs, condition_of, holds, paired, store_sense};

use crate::heads::Heads;
use syntax::{Expr, Pattern};

impl Heads<'_> {
    // For each bit of the patterns of a case the symbol that is held to it, then the bit, from `at` on. None
    // where there is no room, else the place after them. Whatever bits there are at the positions, all pairs
    // hold just if the case matches. A formula is written into lent numbers from their middle on.
    pub fn condition(&self, q: u16, case: usize, out: &mut [u64], at: usize) -> Option<usize>
        requires known { q < state_count self.now.machine.now }
        requires there { case < length (state_in self.now.machine.now q).cases }
        requires within { at ≤ length out.old }
        ensures end { IfSome result (λ n. (at ≤ n) × (n ≤ length out.new)) }
        ensures below { take at out.new ≡ take at out.old }
        ensures told { IfSome result (λ n. (ν : ℕ → ℕ) → holds ν (take (n - at) (drop at out.new)) ≡ matches (store_sense ν (symbols_in self.now.machine.now self.now.symbols.now)) (state_in self.now.machine.now q).keys (case_at (state_in self.now.machine.now q) case).patterns) }
        ensures pairs { IfSome result (λ n. (top : ℕ) → Below top (in_row self.now.symbols.now) (header_bits self.now.machine.now) → are_pairs top (take (n - at) (drop at out.new)) ≡ true) }
    {
        let state = &self.machine.checked.parser.states[q as usize];
        self.hold(&state.keys, &state.cases[case].patterns, out, at)
    }

    // The same for keys and their patterns. machine's select stops where this writes, so each has its loop.
    fn hold(&self, keys: &[Expr], patterns: &[Pattern], out: &mut [u64], at: usize) -> Option<usize>
        requires named { every (named_expr (sizes_in self.now.machine.now)) (map expr_of keys.now) ≡ true }
        requires sized { every (sized_expr (sizes_in self.now.machine.now)) (map expr_of keys.now) ≡ true }
        requires wide { sized_patterns (sizes_in self.now.machine.now) (map expr_of keys.now) (map pattern_of patterns.now) ≡ true }
        requires within { at ≤ length out.old }
        ensures below { take at out.new ≡ take at out.old }
        ensures end { IfSome result (λ n. (at ≤ n) × (n ≤ length out.new)) }
        ensures wrote { IfSome result (λ n. take n out.new ≡ take at out.old ++ condition_of (symbols_in self.now.machine.now self.now.symbols.now) (map expr_of keys.now) (map pattern_of patterns.now)) }
    {
        let mut next = at;
        for (key, pattern) in keys.iter().zip(patterns) {
            if let Pattern::Exactly(bits) = pattern {
                if (out.len() - next) / 2 < bits.len() {
                    return None;
                }
                next = self.write_pairs(key, bits, out, next);
            }
        }
        Some(next)
    }

    // The symbols of a key, each followed by the bit that it is held to. They are written behind the place of
    // the pairs' first half, so that the key is gone over once and no more room is needed than for the pairs.
    fn write_pairs(&self, key: &Expr, bits: &[u8], out: &mut [u64], at: usize) -> usize
        requires proper { Proper (sizes_in self.now.machine.now) (expr_of key.now) }
        requires wide { length bits.now ≡ expr_width (sizes_in self.now.machine.now) (expr_of key.now) }
        requires room { at + 2 * length bits.now ≤ length out.old }
        ensures end { result ≡ at + 2 * length bits.now }
        ensures wrote { take result out.new ≡ take at out.old ++ paired (value (symbols_in self.now.machine.now self.now.symbols.now) (expr_of key.now)) bits.now }
    {
        let n = bits.len();
        self.fill(key, n, out, at + n);
        pair_up(bits, out, at);
        at + 2 * n
    }
}

// As many symbols as bits, which stand that many places after `at`, become pairs from `at` on. The
// pairs never come up to a symbol that is still to be moved. By index, since it reads further up the row that it writes.
fn pair_up(bits: &[u8], out: &mut [u64], at: usize)
    requires { at + 2 * length bits.now ≤ length out.old }
    ensures { take (at + 2 * length bits.now) out.new ≡ take at out.old ++ paired (part (in_row out.old) (at + length bits.now) (length bits.now)) bits.now }
{
    let n = bits.len();
    for (i, bit) in bits.iter().enumerate() {
        let next = at + 2 * i;
        out[next] = out[at + n + i];
        out[next + 1] = *bit as u64;
    }
}
