// A bench's power-up, and what comes on one converter's lines: a byte, a select rise and a sample. Beside converter.rt, for the
// reason in lib.rt.
ghost use Rattle.std.specs.Prelude.{◌≡◌};
ghost use Rattle.bench.specs.PowerUp.{bench_powered_up};
ghost use Rattle.bench.specs.Line.{bench_stepped, bench_deselected, bench_sampled};
ghost use Rattle.flat_bench.specs.Flat.{bench_of};
ghost use Rattle.capi.specs.BenchAnswers.{flat_bench_powered_up, bench_stepped_from, bench_moved_from};

use super::bench_answers;
use crate::{FlatBenchMoved, FlatBenchPoweredUp, FlatBenchStepped};
use bench::Bench;
use flat_bench::FlatBench;
use lines::CONVERTERS;

#[unsafe(no_mangle)]
pub extern "C" fn rimevelvet_bench_power_up(ids: &[u8; CONVERTERS]) -> FlatBenchPoweredUp
    ensures { result ≡ flat_bench_powered_up (bench_powered_up ids.now) }
{
    let startup = Bench::power_up(*ids);
    FlatBenchPoweredUp {
        refusal: startup.refusal.map_or(refusal::NONE, u8::from),
        bench: FlatBench::from(startup.state),
    }
}

#[unsafe(no_mangle)]
pub extern "C" fn rimevelvet_bench_step(bench: FlatBench, number: u32, byte: u8) -> FlatBenchStepped
    ensures { result ≡ bench_stepped_from bench (bench_stepped (bench_of bench) number byte) }
{
    let stepped = Bench::try_from(bench).and_then(|before| before.step(number, byte));
    bench_answers::stepped(bench, stepped)
}

#[unsafe(no_mangle)]
pub extern "C" fn rimevelvet_bench_deselect(bench: FlatBench, number: u32) -> FlatBenchMoved
    ensures { result ≡ bench_moved_from bench (bench_deselected (bench_of bench) number) }
{
    let risen = Bench::try_from(bench).and_then(|before| before.deselect(number));
    bench_answers::moved(bench, risen)
}

#[unsafe(no_mangle)]
pub extern "C" fn rimevelvet_bench_sample(
    bench: FlatBench,
    number: u32,
    codes: &[i32],
    p: u8,
    n: u8,
) -> FlatBenchMoved
    ensures { result ≡ bench_moved_from bench (bench_sampled (bench_of bench) number codes.now p n) }
{
    let sampled = Bench::try_from(bench).and_then(|before| before.sample(number, codes, p, n));
    bench_answers::moved(bench, sampled)
}
