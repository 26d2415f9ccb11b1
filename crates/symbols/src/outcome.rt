// The outcomes of a select: each case, and `otherwise` last.
ghost use Rattle.std.specs.Prelude.{◌≡◌, ℕ, ◌+◌, ◌<◌, length};
ghost use Rattle.syntax.specs.View.{target_of};
ghost use Rattle.machine.specs.View.{state_count, state_in};
ghost use Rattle.symbols.specs.Choice.{OutcomeIsTaken, outcome_target};

use machine::Machine;
use syntax::Target;

// how many there are
pub fn outcomes(machine: &Machine, q: u16) -> usize
    requires { q < state_count machine.now }
    ensures { result ≡ length (state_in machine.now q).cases + 1 }
{
    machine.checked.parser.states[q as usize].cases.len() + 1
}

// where an outcome leads
pub fn outcome_target(machine: &Machine, q: u16, o: usize) -> Target
    requires { q < state_count machine.now }
    ensures { target_of result ≡ outcome_target (state_in machine.now q) o }
{
    let state = &machine.checked.parser.states[q as usize];
    match state.cases.get(o) {
        Some(case) => case.target,
        None => state.otherwise,
    }
}

// theorem: some outcome is taken always, and where a select leads is the target of the one that is taken
pub fn outcome_is_taken()
    ensures { OutcomeIsTaken }
{}
