// The signal definition and the laws of runs. What is believed stands in specs; these few functions own the theorems.

#![tactic(auto)]

ghost use Rattle.std.specs.Prelude.{◌≡◌, ℕ, ◌==◌};
ghost use Rattle.netlist.specs.Board.{Board};
ghost use Rattle.signal.specs.Calls.{State, most_ticks};
ghost use Rattle.signal.specs.Handled.{AnyRun, AnyTwoRuns};
ghost use Rattle.signal.specs.Inputs.{InputsLast};
ghost use Rattle.signal.specs.Laws.{ThreeLaws};
ghost use Rattle.signal.specs.Refusals.{RefusalsExact, run_layer};
ghost use Rattle.signal.specs.Signal.{SignalDefinition};
ghost use Rattle.signal.specs.Traces.{TracesTold};
ghost use Rattle.signal.specs.Waiting.{WaitingExactly, WaitingOrdered};

use logic::family::Family;

// What every port and every gate has until it is told otherwise.
// N and D are the one solution of their equations, and P and S are the values last accepted.
pub fn opening_level<F: Family>() -> F::Value
    ensures level { result ≡ F.Family.logic.unset }
    ensures signals { SignalDefinition F.Family.logic }
    ensures inputs { InputsLast F.Family.logic }
{
    F::unset()
}

// How many ticks ahead a change can wait; and which changes do.
pub fn horizon<F: Family>() -> u32
    ensures ticks { result ≡ 64 }
    ensures waiting { WaitingExactly F.Family.logic }
    ensures order { WaitingOrdered F.Family.logic }
{
    64
}

// The bytes of a trace record; and which records a trace has.
pub fn record_size<F: Family>() -> usize
    ensures bytes { result ≡ 8 }
    ensures told { TracesTold F.Family.logic }
{
    8
}

// The layer of a run's faults; and which calls are refused.
pub fn fault_layer<F: Family>() -> char
    ensures letter { result ≡ run_layer }
    ensures refusals { RefusalsExact F.Family.logic }
{
    'r'
}

// The ticks that a run can complete; and the laws of any two runs by their calls.
pub fn most_ticks<F: Family>() -> u32
    ensures ticks { result ≡ most_ticks }
    ensures laws { ThreeLaws F.Family.logic }
{
    16_777_216
}

// A make of runs over the family F: what it means that a run, opened on a board, has come to a state.
pub trait Machine<F: Family> {
    ghost has: { Board → State F.Value → Self → Type 0 };

    // The completed ticks.
    fn completed(&self) -> u32
        ensures { (C : Board) (s : State F.Value) → has C s self.now → result ≡ s.ticks };
}

// Whether two runs, of two makes, have completed equally many ticks, as laws 1 and 3 ask; and the three laws, of runs as they are handled.
pub fn equally_far<F: Family, A: Machine<F>, B: Machine<F>>(first: &A, second: &B) -> bool
    ensures answer { (C D : Board) (s u : State F.Value) → A.Machine.has C s first.now → B.Machine.has D u second.now → result ≡ (s.ticks == u.ticks) }
    ensures runs { AnyRun F.Family.logic A.Machine.has }
    ensures laws { AnyTwoRuns F.Family.logic A.Machine.has B.Machine.has }
{
    let ticks = first.completed();
    let others = second.completed();
    ticks == others
}
