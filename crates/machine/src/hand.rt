// The value of an expression, handed on.
ghost use Rattle.std.specs.Prelude.{◌≤◌};
ghost use Rattle.model.specs.Parser.{value};
ghost use Rattle.model.specs.Refusal.{sum};
ghost use Rattle.syntax.specs.View.{expr_of};
ghost use Rattle.machine.specs.Row.{headers};
ghost use Rattle.machine.specs.Sink.{Handed, Poured};
ghost use Rattle.machine.specs.Sound.{Proper};
ghost use Rattle.machine.specs.View.{sizes_in};

use crate::machine::Machine;
use crate::sink::Sink;
use crate::want::Want;
use syntax::Expr;

impl Machine {
    // Hands on what is wanted of an expression. An expression may have thousands of parts, so it is taken as
    // a stream: each part is come to once, and no widths are worked out beforehand. None where it is refused,
    // else what is wanted of what comes after it.
    pub fn hand<S: Sink>(&self, e: &Expr, want: Want, sink: &mut S) -> Option<Want>
        requires proper { Proper (sizes_in self.now) (expr_of e.now) }
        requires there { sum (sizes_in self.now) ≤ S.places sink.old }
        requires room { S.Fits sink.old want.most }
        ensures { Handed S.Took S.Refuses (value (headers (S.source sink.old) 0 (sizes_in self.now)) (expr_of e.now)) want sink.old sink.new result }
    {
        let mut left = want;
        self.pour(e, &mut left, sink)?;
        Some(left)
    }

    // The same, with what is wanted counted down where it stands: handed back by each part, it takes more time than
    // the bits of a short one.
    fn pour<S: Sink>(&self, e: &Expr, want: &mut Want, sink: &mut S) -> Option<()>
        requires proper { Proper (sizes_in self.now) (expr_of e.now) }
        requires there { sum (sizes_in self.now) ≤ S.places sink.old }
        requires room { S.Fits sink.old want.old.most }
        ensures { Poured S.Took S.Refuses (value (headers (S.source sink.old) 0 (sizes_in self.now)) (expr_of e.now)) want.old want.new sink.old sink.new result }
    {
        match e {
            Expr::Header(h) => {
                let (from, n) = want.of(self.size(*h));
                sink.header(self.start(*h) + from, n)?;
                *want = want.after(from, n);
                Some(())
            }
            Expr::Bits(constant) => {
                let (from, n) = want.of(constant.len());
                sink.constant(&constant[from..from + n])?;
                *want = want.after(from, n);
                Some(())
            }
            Expr::Slice(inner, lo, hi) => {
                let (from, n) = want.of(*hi as usize + 1 - *lo as usize);
                let mut part = Want {
                    skip: *lo as usize + from,
                    most: n,
                };
                self.pour(inner, &mut part, sink)?;
                *want = want.after(from, n);
                Some(())
            }
            Expr::Join(left, right) => {
                self.pour(left, want, sink)?;
                self.pour(right, want, sink)
            }
        }
    }
}
