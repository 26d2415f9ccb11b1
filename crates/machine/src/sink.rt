// What an expression's value is handed to.
ghost use Rattle.std.specs.Prelude.{◌≡◌, ℕ, ◌+◌, ◌≤◌, true, List, length, MatchOption};
ghost use Rattle.model.specs.Refusal.{are_bits};
ghost use Rattle.machine.specs.Row.{part};
ghost use Rattle.machine.specs.Sink.{SinkLaws};

// It reads headers in a row, and is handed parts of that row and constants, one after the other, as far
// as it has room. It takes each, or refuses it and is handed no more.
pub trait Sink {
    // the row, and how many places that has
    ghost source: { Self → ℕ → ℕ };

    ghost places: { Self → ℕ };

    // it can take so many
    ghost Fits: { Self → ℕ → Type 0 };

    // it took these and became another; it refuses them
    ghost Took: { Self → Self → List ℕ → Type 0 };

    ghost Refuses: { Self → List ℕ → Type 0 };

    // n of the row from `start` on
    fn header(&mut self, start: usize, n: usize) -> Option<()>
        requires there { start + n ≤ places self.old }
        requires room { Fits self.old n }
        ensures { MatchOption result (Refuses self.old (part (source self.old) start n)) (λ _. Took self.old self.new (part (source self.old) start n)) };

    fn constant(&mut self, bits: &[u8]) -> Option<()>
        requires bits { are_bits bits.now ≡ true }
        requires room { Fits self.old (length bits.now) }
        ensures { MatchOption result (Refuses self.old bits.now) (λ _. Took self.old self.new bits.now) };

    ghost laws: { SinkLaws source places Fits Took Refuses };
}
