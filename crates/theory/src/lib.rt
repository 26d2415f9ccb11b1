// The theory of parsers as machines: theorems, each on the contract of a function that does nothing.
#![tactic(auto)]

ghost use Rattle.model.specs.Config.{Config};
ghost use Rattle.model.specs.Theory.{BitByBit, StoresStay, TakenAtOnce, BothWays, TimeIsNothing, ShortIsEnough};
ghost use Rattle.theory.specs.Leap.{LeapsAreEquivalentOf};
ghost use Rattle.theory.specs.Numbering.{NumberingBelow, NumberingInjective, NumberingInverse};
ghost use Rattle.theory.specs.Statement.{BisimilarIsEquivalentOf, AcceptingAlikeIsKept};
ghost use Rattle.theory.specs.Walk.{Walks, AcceptanceSplits};

// Any relation of configurations, by a type that names it: a contract can't speak of all relations at once.
pub trait Relation {
    ghost related: { Self → Config → Config → Type 0 };
}

// A bisimulation that holds at the beginning shows that two parsers are equivalent.
pub fn bisimilar_is_equivalent<R: Relation + Copy>(r: R)
    ensures { BisimilarIsEquivalentOf (R.Relation.related r) }
{}

// Bit by bit comes to the same as state by state.
pub fn bit_by_bit()
    ensures { BitByBit }
{}

// Stores keep their sizes.
pub fn stores_stay()
    ensures { StoresStay }
{}

// Until a state has all its bits, nothing happens but that they are kept.
pub fn taken_at_once()
    ensures { TakenAtOnce }
{}

// Equivalence is so both ways, and of three.
pub fn both_ways()
    ensures { BothWays }
{}

// More time changes nothing of what is accepted.
pub fn time_is_nothing()
    ensures { TimeIsNothing }
{}

// What is distinguished is so by a message no longer than there are pairs of configurations.
pub fn short_is_enough()
    ensures { ShortIsEnough }
{}

// Of two that are equivalent there is a bisimulation that holds at the beginning: accepting alike.
pub fn equivalent_is_bisimilar()
    ensures { AcceptingAlikeIsKept }
{}

// Fewer bits than a configuration needs are kept, exactly as many lead on, more go on from there.
pub fn walks()
    ensures { Walks }
{}

// Acceptance can be split at any point of the input.
pub fn acceptance_splits()
    ensures { AcceptanceSplits }
{}

// A relation that leaps keep, and that holds at the beginning, shows that two parsers are equivalent.
pub fn leaps_are_equivalent<R: Relation + Copy>(r: R)
    ensures { LeapsAreEquivalentOf (R.Relation.related r) }
{}

// The number of a configuration is below their count.
pub fn numbers_are_below()
    ensures { NumberingBelow }
{}

// The number of a configuration leads back to it.
pub fn numbers_lead_back()
    ensures { NumberingInverse }
{}

// Two configurations have two numbers.
pub fn numbers_are_apart()
    ensures { NumberingInjective }
{}
