// The planner on a live bench that is lent and changed where it lies (document 01, "Plans").
#![tactic(auto)]

ghost use Rattle.std.specs.Prelude.{◌≡◌};
ghost use Rattle.planner.specs.Submission.{submission};
ghost use Rattle.bench_planner.specs.Planned.{bench_planned};
ghost use Rattle.bench_planner.specs.Buffer.{bench_tx_after};
ghost use Rattle.bench_planner.specs.Answers.{bench_plan_answer};
ghost use Rattle.bench_live.specs.Answers.{answer_of, live_plan_answer};

use bench::Bench;
use bench_planner::BenchPlan;
use refusal::Refusal;
use request::Request;

// What the planner answers beside the bench.
#[derive(Clone, Copy)]
pub struct LivePlan {
    pub converter: u32,
    pub length: usize,
}

// One call of the planner and one store. Here and below the parameters go one by one, as C passes them and bench_planner::plan takes
// them.
pub fn plan_live(
    live: &mut Bench,
    party: u32,
    request: Request,
    tx: &mut [u8],
    at: usize,
) -> Result<LivePlan, Refusal>
    ensures { (live_plan_answer result ≡ answer_of (bench_planned live.old (submission party request tx.old at)))
        × ((live.new ≡ (bench_planned live.old (submission party request tx.old at)).next)
        × (tx.new ≡ bench_tx_after live.old (submission party request tx.old at) tx.old at)) }
{
    let BenchPlan {
        converter,
        length,
        next,
    } = bench_planner::plan(*live, party, request, tx, at)?;
    *live = next;
    Ok(LivePlan { converter, length })
}

// The same as plan, by way of a local bench that is lent: its parameters are plain.
#[tactic(auto, using(bench_planner::proofs::Kept::kept))]
pub fn plan_borrowed(
    bench: Bench,
    party: u32,
    request: Request,
    tx: &mut [u8],
    at: usize,
) -> Result<BenchPlan, Refusal>
    ensures { (bench_plan_answer bench result ≡ bench_planned bench (submission party request tx.old at))
        × (tx.new ≡ bench_tx_after bench (submission party request tx.old at) tx.old at) }
{
    let mut live = bench;
    let LivePlan { converter, length } = plan_live(&mut live, party, request, tx, at)?;
    Ok(BenchPlan {
        converter,
        length,
        next: live,
    })
}
