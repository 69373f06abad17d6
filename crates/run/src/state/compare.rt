// Two runs side by side, on calendars of any two makes.
ghost use Rattle.std.specs.Prelude.{◌≡◌, ◌<◌, ◌≤◌, slice_index_or};
ghost use Rattle.run.specs.Compared.{lowest, contradicts, Compared, LearningContradictsNone};
ghost use Rattle.run.specs.Handled.{LawOfRuns};

use super::Run;
use calendar::calendar::Calendar;
use logic::family::Family;
use logic::values::same;

// The lowest net at which a definite level of the first run, at its last completed tick, is contradicted by the second run's;
// none where they have not completed equally many ticks, or no tick at all. A second run that only learned more contradicts nothing:
// that is one part of the law of runs, which this call's contract states whole.
pub fn contradiction<F: Family, C: Calendar, D: Calendar>(
    first: &Run<F, C>,
    second: &Run<F, D>,
) -> Option<u16>
    ensures answer { Compared F.Family C.Calendar D.Calendar first.now second.now result }
    ensures learned { LearningContradictsNone F.Family C.Calendar D.Calendar first.now second.now result }
    ensures law { LawOfRuns F.Family C.Calendar D.Calendar }
{
    if first.ticks != second.ticks || first.ticks == 0 {
        return None;
    }
    let nets = first.wiring.net.head.nets.min(second.wiring.net.head.nets);
    lowest::<F>(&first.levels, &second.levels, nets)
}

// The lowest of the nets at which the second level contradicts the first.
fn lowest<F: Family>(first: &[F::Value; 1024], second: &[F::Value; 1024], nets: u16) -> Option<u16>
    requires { nets ≤ 1024 }
    ensures { result ≡ lowest (λ n. contradicts F.Family.logic (slice_index_or first.now n F.Family.logic.unset) (slice_index_or second.now n F.Family.logic.unset)) 0 nets }
{
    (0..nets).find(
        |&n|
            requires { n < 1024 }
            ensures { result ≡ contradicts F.Family.logic (slice_index_or first.entry.now n F.Family.logic.unset) (slice_index_or second.entry.now n F.Family.logic.unset) }
        { contradicts::<F>(first[n as usize], second[n as usize]) },
    )
}

fn contradicts<F: Family>(v: F::Value, w: F::Value) -> bool
    ensures { result ≡ contradicts F.Family.logic v w }
{
    F::definite(v) && !same::<F>(v, w)
}
