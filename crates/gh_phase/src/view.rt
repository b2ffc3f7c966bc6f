//! What an actor knows of the phase between two stops.

ghost use Rattle.std.specs.Prelude.{◌≡◌, ◌%◌, ◌^◌};
ghost use Rattle.gh_phase.specs.Views.{FitsView, first_view, generation_found, run_phase};

use gh_base::Phase;

/// The sweep generations are counted modulo this, 2^34: so many fit a page word.
const GENERATIONS: u64 = 1 << 34;

/// What the collector is at while the world runs.
#[derive(Clone, Copy, Debug, PartialEq, Eq)]
pub enum RunPhase {
    /// No marking.
    Off,
    /// Marking.
    Mark,
    /// The last cycle is swept.
    Finished,
}

impl RunPhase {
    /// The phase of a world that runs; `None` where it is to stop.
    pub fn of(phase: Phase) -> Option<RunPhase>
        ensures { result ≡ run_phase phase }
    {
        match phase {
            Phase::Off => Some(RunPhase::Off),
            Phase::Mark => Some(RunPhase::Mark),
            Phase::Stop => None,
            Phase::Finished => Some(RunPhase::Finished),
        }
    }
}

/// What an actor knows of the phase: it stays between two stops.
#[derive(Clone, Copy, Debug, PartialEq, Eq)]
pub struct View {
    /// The phase.
    pub phase: RunPhase,
    /// The sweep generation, below 2^34.
    pub generation: u64,
    /// How many cycles have begun.
    pub begun: u64,
}

impl View {
    /// What an actor knows at first, when the heap opens: no marking, sweep generation 2, no cycle begun.
    pub fn first() -> View
        ensures is { result ≡ first_view }
        ensures fits { FitsView result }
    {
        View {
            phase: RunPhase::Off,
            generation: 2,
            begun: 0,
        }
    }
}

/// The sweep generation that was found.
pub(crate) fn generation(found: u64) -> u64
    ensures { result ≡ generation_found found }
{
    found % GENERATIONS
}
