// Bits that are forced, and bits that are tried, until a clause is false or nothing is open.
ghost use Rattle.std.specs.Prelude.{◌≡◌, ℕ, ◌<◌, ◌≤◌, length};
ghost use Rattle.clauses.specs.Clauses.{Stands};

use crate::reason::Reason;
use budget::{Exhausted, Work};
use clauses::bits::Bit;
use clauses::hints::hint;
use clauses::known::Known;
use clauses::lists::list_at;
use clauses::literal::Literal;
use clauses::premises::Premises;
use clauses::stack::Stack;
use clauses::stop::Stop;

/// What is known while bits are tried, and why each bit on the trail is.
#[derive(Drop)]
pub struct Tries<'a> {
    pub known: Known<'a>,
    // Beside the trail, by depth: room is lent as plain numbers, so that they are two rows.
    pub reason: Stack<'a>,
}

impl<'a> Tries<'a> {
    /// Nothing is on the trail yet; the rooms are as they were lent.
    pub fn new(value: &'a mut [u64], trail: &'a mut [u64], reason: &'a mut [u64]) -> Tries<'a>
        ensures known { (result.known.value.now ≡ value.old) × (result.known.trail.now ≡ trail.old) }
        ensures reason { result.reason.room.now ≡ reason.old }
        ensures empty { (result.known.depth ≡ 0) × (result.reason.len ≡ 0) }
    {
        Tries {
            known: Known::new(&[], value, trail, 0),
            reason: Stack::new(reason, 0),
        }
    }

    // What is new on the trail stands there for this reason. Past the end of the room nothing is noted.
    fn note(&mut self, why: Reason) {
        for _ in self.reason.len..self.known.depth {
            let _ = self.reason.push(why.into());
        }
    }

    // Goes once over the premises: the one that is false, if one is.
    fn pass(&mut self, premises: &Premises, work: &mut Work) -> Result<Option<usize>, Stop>
        requires { 0 < premises.now.most }
        ensures premise { (c : ℕ) → result ≡ Ok (Some c) → c < length premises.now.starts.now }
        ensures less { work.new.left ≤ work.old.left }
    {
        // By number: the reason names the premise.
        for c in 0..premises.starts.len() {
            match hint(premises, &mut self.known, c, work) {
                Err(Stop::Conflict) => return Ok(Some(c)),
                end => end?,
            }
            self.note(Reason::Forced(c));
        }
        Ok(None)
    }

    // A literal of the clause that is unknown, if none holds.
    fn open_literal(&self, clause: &[u64]) -> Option<Literal> {
        let mut open = None;
        for l in clause {
            let l = Literal::from(*l);
            match self.known.resolve(l.position)? {
                Bit::Open(_) => open = Some(l),
                Bit::Known(b) if b == l.negated => {}
                Bit::Known(_) => return None,
            }
        }
        open
    }

    // A literal of the first premise that is open: none if none is.
    fn open(&self, premises: &Premises, work: &mut Work) -> Result<Option<Literal>, Exhausted>
        ensures { work.new.left ≤ work.old.left }
    {
        for s in premises.starts {
            let Some(clause) = premises.clause(*s as usize) else {
                continue;
            };
            work.spend(clause.len() as u64 + 1)?;
            let open = self.open_literal(clause);
            if open.is_some() {
                return Ok(open);
            }
        }
        Ok(None)
    }

    // From what is known on: the premise that is false, or none if no premise is open.
    fn go_on(&mut self, premises: &Premises, work: &mut Work) -> Result<Option<usize>, Stop>
        requires { 0 < premises.now.most }
        ensures premise { (c : ℕ) → result ≡ Ok (Some c) → c < length premises.now.starts.now }
        ensures less { work.new.left ≤ work.old.left }
    {
        loop {
            work.spend(1)?;
            let depth = self.known.depth;
            let clash = self.pass(premises, work)?;
            if clash.is_some() {
                return Ok(clash);
            }
            if self.known.depth == depth {
                let Some(l) = self.open(premises, work)? else {
                    return Ok(None);
                };
                self.known.assume(l.position, !l.negated)?;
                self.note(Reason::Tried);
            }
        }
    }

    /// Assumes that the goal is false, and goes on from there: the premise that is false then, or none if no premise is open.
    pub fn attempt(
        &mut self,
        premises: &Premises,
        goal: usize,
        work: &mut Work,
    ) -> Result<Option<usize>, Stop>
        requires { (Stands premises.now.numbers.now goal) × (0 < premises.now.most) }
        ensures bare { result ≡ Ok (Some (length premises.now.starts.now)) → self.new.reason.len ≡ 0 }
        ensures less { work.new.left ≤ work.old.left }
    {
        self.known.forget();
        self.reason.clear();
        let denied = self.known.deny(list_at(premises.numbers, goal).unwrap());
        self.note(Reason::Denied);
        match denied {
            // The goal holds of all bits. No premise is needed, and one that is not there has no effect as a hint. No bit is, either, so that no reason is left.
            Err(Stop::Conflict) => {
                self.reason.clear();
                Ok(Some(premises.starts.len()))
            }
            Err(stop) => Err(stop),
            Ok(()) => self.go_on(premises, work),
        }
    }
}
