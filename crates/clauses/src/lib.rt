//! Clauses over bits in lent numbers, what is known of the bits, and the one rule by which a clause follows from others by hints.
// Read lists (lists in lent numbers), literal, premises, stack (a stack in lent room), stop (how a step ends early), bits (what is known of a position), trail
// (what was assumed, taken back), known (assume and undo), look (what a clause says), hints (the rule), lemmas (premises added by it).
//
// A use: the premises stand at starts[..count]. Assume what is known, add the lemmas that stand at `at`, then show each goal by the hints that follow:
//
//     let mut known = Known::new(rep, value, trail, 0);
//     let mut starts = Stack::new(starts, count);
//     let mut lists = Lists { numbers, at };
//     let mut work = Work { left };
//     known.assume(p, true)?;
//     add_lemmas(&mut lists, &mut starts, most, &mut known, &mut work)?;
//     let premises = Premises { numbers, starts: starts.as_slice(), most };
//     let yes = follows_by(&premises, &mut known, goal, &mut lists, &mut work)?;
//     known.undo(0);
#![tactic(auto)]

pub mod bits;
pub mod hints;
pub mod known;
pub mod lemmas;
pub mod lists;
pub mod literal;
pub mod look;
pub mod premises;
pub mod stack;
pub mod stop;
pub mod trail;
