// From a setting request for the bench to the bytes for one of its converters: the one-converter planner, given the converter that the
// request names and the channel as that converter counts it.
#![tactic(auto)]

ghost use Rattle.std.specs.Prelude.{◌≡◌};
ghost use Rattle.planner.specs.Submission.{submission};
ghost use Rattle.bench.specs.Formed.{FormedBench};
ghost use Rattle.bench_planner.specs.Local.{local_request};
ghost use Rattle.bench_planner.specs.Planned.{bench_planned};
ghost use Rattle.bench_planner.specs.Buffer.{bench_tx_after};
ghost use Rattle.bench_planner.specs.Answers.{bench_plan_answer};

use bench::Bench;
use planner::ConverterPlan;
use refusal::Refusal;
use request::Request;

// The number of the converter that every byte of the plan is for, the plan's length, and the bench after the plan, to which its bytes
// are not to be fed again.
#[derive(Clone, Copy)]
pub struct BenchPlan {
    pub converter: u32,
    pub length: usize,
    pub next: Bench,
}

// The request as the named converter's own planner takes it.
#[tactic(auto, unfolding(crate::specs::Local::local_request))]
fn localise(request: Request) -> Request
    ensures { result ≡ local_request request }
{
    Request {
        channel: lines::local_channel(request.channel),
        ..request
    }
}

// Plans a request into the transmit buffer from a place on, by the named converter, once every converter passes 13.
// The parameters go one by one, as C passes them and the definition takes them.
#[tactic(auto, using(lines::proofs::Numbering::mapped_below, bench::proofs::Converters::with_same, refusal::proofs::Laws::refused_lem), unfolding(crate::specs::Planned::bench_planned, crate::specs::Buffer::bench_tx_after))]
pub fn plan(
    mut bench: Bench,
    party: u32,
    request: Request,
    tx: &mut [u8],
    at: usize,
) -> Result<BenchPlan, Refusal>
    ensures planned { (bench_plan_answer bench result ≡ bench_planned bench (submission party request tx.old at))
        × (tx.new ≡ bench_tx_after bench (submission party request tx.old at) tx.old at) }
    ensures formed { FormedBench bench }
{
    if !bench.is_valid() {
        return Err(Refusal::InvalidState);
    }
    let converter = lines::converter_of(request.channel);
    let k = converter as usize;
    let local = localise(request);
    let ConverterPlan { length, next } = planner::plan(bench.converters[k], party, local, tx, at)?;
    bench.converters[k] = next;
    Ok(BenchPlan {
        converter,
        length,
        next: bench,
    })
}
