// A bench's flat answers. Beside answers.rt, for the reason in lib.rt: a function over both would be generic in the flat state and in C's
// struct, and would say what it gives by their From; a match for each is plainer.
ghost use Rattle.std.specs.Prelude.{◌≡◌};
ghost use Rattle.capi.specs.Results.{flat_bench_step_answer, flat_bench_moved_answer, flat_bench_plan_answer};

use crate::{FlatBenchMoved, FlatBenchPlanned, FlatBenchStepped};
use ads1299::Exchange;
use bench::Bench;
use bench_planner::BenchPlan;
use flat_bench::FlatBench;
use refusal::Refusal;

pub(crate) fn stepped(
    bench: FlatBench,
    stepped: Result<Exchange<Bench>, Refusal>,
) -> FlatBenchStepped
    ensures { result ≡ flat_bench_step_answer bench stepped }
{
    match stepped {
        Ok(exchange) => FlatBenchStepped {
            refusal: refusal::NONE,
            out: exchange.out,
            next: FlatBench::from(exchange.next),
        },
        Err(refusal) => FlatBenchStepped {
            refusal: u8::from(refusal),
            out: 0,
            next: bench,
        },
    }
}

pub(crate) fn moved(bench: FlatBench, moved: Result<Bench, Refusal>) -> FlatBenchMoved
    ensures { result ≡ flat_bench_moved_answer bench moved }
{
    match moved {
        Ok(next) => FlatBenchMoved {
            refusal: refusal::NONE,
            next: FlatBench::from(next),
        },
        Err(refusal) => FlatBenchMoved {
            refusal: u8::from(refusal),
            next: bench,
        },
    }
}

pub(crate) fn planned(bench: FlatBench, planned: Result<BenchPlan, Refusal>) -> FlatBenchPlanned
    ensures { result ≡ flat_bench_plan_answer bench planned }
{
    match planned {
        Ok(plan) => FlatBenchPlanned {
            refusal: refusal::NONE,
            converter: plan.converter,
            length: plan.length,
            next: FlatBench::from(plan.next),
        },
        Err(refusal) => FlatBenchPlanned {
            refusal: u8::from(refusal),
            converter: 0,
            length: 0,
            next: bench,
        },
    }
}
