// Expressions: kept to a depth, and gone over beyond it.
ghost use Rattle.std.specs.Prelude.{◌≡◌, ℕ, ◌<◌, ◌≤◌, IfOk};
ghost use Rattle.model.specs.Parser as M;
ghost use Rattle.model.specs.Parser.{Expr as Model};
ghost use Rattle.model.specs.Refusal.{shallow_expr};
ghost use Rattle.syntax.specs.View.{expr_of};
ghost use Rattle.format.specs.Format.{read_expr};
ghost use Rattle.scan.specs.Reads.{Reads, Is, Within};
ghost use Rattle.scan.specs.Skim.{read_head, shallow_part};

use super::Reader;
use crate::fault::Fault;
use std::alloc::{AllocError, Global};
use syntax::Expr;

// A slice of an expression that was kept.
fn slice(heap: Global, inner: Option<Expr>, lo: u16, hi: u16) -> Result<Option<Expr>, AllocError>
    ensures { IfOk result (λ o. (e : Model) (k : ℕ) → Within expr_of (λ x. shallow_part x k) inner e → Within expr_of (λ x. shallow_expr x k) o (M.slice e lo hi)) }
{
    let Some(inner) = inner else {
        return Ok(None);
    };
    Ok(Some(Expr::Slice(Box::new(heap, inner)?, lo, hi)))
}

// Two expressions that were both kept, joined.
fn join(heap: Global, left: Option<Expr>, right: Option<Expr>) -> Result<Option<Expr>, AllocError>
    ensures { IfOk result (λ o. (d e : Model) (k : ℕ) → Within expr_of (λ x. shallow_part x k) left d → Within expr_of (λ x. shallow_part x k) right e → Within expr_of (λ x. shallow_expr x k) o (M.join d e)) }
{
    let (Some(left), Some(right)) = (left, right) else {
        return Ok(None);
    };
    let left = Box::new(heap, left)?;
    Ok(Some(Expr::Join(left, Box::new(heap, right)?)))
}

impl<'a> Reader<'a> {
    // What stands before an expression's parts, and how many parts come.
    fn head(&mut self) -> Result<usize, Fault>
        ensures reads { Reads read_head (Is (λ n. n)) self.old self.new result }
        ensures further { IfOk result (λ n. (self.old.at < self.new.at) × (n ≤ 2)) }
    {
        match self.tag(4)? {
            0 => {
                self.u16()?;
                Ok(0)
            }
            1 => {
                self.row(2)?;
                Ok(0)
            }
            2 => {
                self.u16()?;
                self.u16()?;
                Ok(1)
            }
            _ => Ok(2),
        }
    }

    // Goes over an expression of any depth. By a loop: 2^20 bytes can nest 200,000 deep.
    fn skim(&mut self) -> Result<(), Fault>
        ensures { Reads read_expr (λ _ _. Unit {0}) self.old self.new result }
    {
        // there are fewer bytes than 2^63, and no more expressions are owed than bytes were gone over
        let _ = &self.bytes;
        // how many expressions are still to come
        let mut owed = 1;
        while owed > 0 {
            owed = owed - 1 + self.head()?;
        }
        Ok(())
    }

    // A part of an expression below which at most `depth` may be in one another, this part among them; at 0 none is kept.
    #[cycle(expr)]
    #[tactic(auto, using(crate::proofs::Trees::expr_exits))]
    fn part(&mut self, heap: Global, depth: u8) -> Result<Option<Expr>, Fault>
        ensures { Reads read_expr (Within expr_of (λ e. shallow_part e depth)) self.old self.new result }
    {
        if depth == 0 {
            self.skim()?;
            return Ok(None);
        }
        self.expr(heap, depth - 1)
    }

    // An expression with at most `depth` more below it in one another; none is kept where there are more.
    #[cycle(expr)]
    #[tactic(auto, using(crate::proofs::Trees::expr_exits))]
    pub fn expr(&mut self, heap: Global, depth: u8) -> Result<Option<Expr>, Fault>
        ensures { Reads read_expr (Within expr_of (λ e. shallow_expr e depth)) self.old self.new result }
    {
        match self.tag(4)? {
            0 => Ok(Some(Expr::Header(self.u16()?))),
            1 => Ok(Some(Expr::Bits(self.kept_row(heap, 2)?))),
            2 => {
                let lo = self.u16()?;
                let hi = self.u16()?;
                let inner = self.part(heap, depth)?;
                Ok(slice(heap, inner, lo, hi)?)
            }
            _ => {
                let left = self.part(heap, depth)?;
                let right = self.part(heap, depth)?;
                Ok(join(heap, left, right)?)
            }
        }
    }
}
