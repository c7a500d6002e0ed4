// Setting requests for a bench, planned.
ghost use Rattle.std.specs.Prelude.{◌≡◌};
ghost use Rattle.planner.specs.Submission.{submission};
ghost use Rattle.bench_planner.specs.Planned.{bench_planned};
ghost use Rattle.bench_planner.specs.Buffer.{bench_tx_after};
ghost use Rattle.flat_bench.specs.Flat.{bench_of};
ghost use Rattle.capi.specs.BenchAnswers.{bench_planned_from, bench_buffer_from};
ghost use Rattle.capi.specs.Results.{flat_bench_plan_answer};

use super::bench_answers;
use crate::FlatBenchPlanned;
use bench::Bench;
use bench_planner::BenchPlan;
use flat_bench::FlatBench;
use refusal::Refusal;
use request::Request;

// By way of the live form, on a copy of the bench. Beside a converter's, as requests.rt says. The parameters go
// one by one, as C passes them.
fn plan(
    bench: FlatBench,
    party: u32,
    request: Request,
    tx: &mut [u8],
    at: usize,
) -> Result<BenchPlan, Refusal>
    ensures { (flat_bench_plan_answer bench result ≡ bench_planned_from bench (bench_planned (bench_of bench) (submission party request tx.old at)))
        × (tx.new ≡ bench_buffer_from bench (bench_tx_after (bench_of bench) (submission party request tx.old at) tx.old at) tx.old) }
{
    let before = Bench::try_from(bench)?;
    bench_live::plan_borrowed(before, party, request, tx, at)
}

#[unsafe(no_mangle)]
pub extern "C" fn rimevelvet_bench_plan(
    bench: FlatBench,
    party: u32,
    request: Request,
    tx: &mut [u8],
    at: usize,
) -> FlatBenchPlanned
    ensures { (result ≡ bench_planned_from bench (bench_planned (bench_of bench) (submission party request tx.old at)))
        × (tx.new ≡ bench_buffer_from bench (bench_tx_after (bench_of bench) (submission party request tx.old at) tx.old at) tx.old) }
{
    let planned = plan(bench, party, request, tx, at);
    bench_answers::planned(bench, planned)
}
