// Grants and readings on a bench. Beside channels.rt, for the reason in lib.rt.
ghost use Rattle.std.specs.Prelude.{◌≡◌};
ghost use Rattle.bench_grants.specs.Grant.{bench_granted};
ghost use Rattle.bench_readings.specs.Reading.{bench_reading};
ghost use Rattle.flat_bench.specs.Flat.{bench_of};
ghost use Rattle.capi.specs.BenchAnswers.{bench_moved_from, bench_reading_from, bench_part, bench_part_from};
ghost use Rattle.capi.specs.Results.{flat_part_answer};

use super::answers::{self, Located};
use super::bench_answers;
use crate::{FlatBenchMoved, FlatPart, FlatReading};
use bench::Bench;
use bench_readings::read_channel;
use flat_bench::FlatBench;
use refusal::Refusal;

#[unsafe(no_mangle)]
pub extern "C" fn rimevelvet_bench_grant(
    bench: FlatBench,
    caller: u32,
    receiver: u32,
    channel: u32,
) -> FlatBenchMoved
    ensures { result ≡ bench_moved_from bench (bench_granted (bench_of bench) caller receiver channel) }
{
    let given = Bench::try_from(bench);
    let granted = given.and_then(|before| bench_grants::grant(before, caller, receiver, channel));
    bench_answers::moved(bench, granted)
}

#[unsafe(no_mangle)]
pub extern "C" fn rimevelvet_bench_read_channel(
    bench: FlatBench,
    number: u32,
    party: u32,
    channel: u32,
    frame: &[u8],
) -> FlatReading
    ensures { result ≡ bench_reading_from bench (bench_reading (bench_of bench) number party channel frame.now) }
{
    let given = Bench::try_from(bench);
    let reading = given.and_then(|before| read_channel(before, number, party, channel, frame));
    FlatReading::from(reading)
}

// Where the part that bench_readings::channel_bytes hands back lies in the frame. Beside a converter's: other calls on another state;
// what the two have in common is answers::locate.
#[tactic(auto, using(crate::proofs::BenchParts::bench_part_located))]
fn locate_part(
    bench: Bench,
    number: u32,
    party: u32,
    channel: u32,
    frame: &[u8],
) -> Result<Located, Refusal>
    ensures { flat_part_answer result ≡ bench_part bench number party channel frame.now }
{
    let reading = read_channel(bench, number, party, channel, frame);
    let part = bench_readings::channel_bytes(bench, number, party, channel, frame);
    answers::locate(reading, lines::channel_on(number, channel), part)
}

#[unsafe(no_mangle)]
pub extern "C" fn rimevelvet_bench_channel_bytes(
    bench: FlatBench,
    number: u32,
    party: u32,
    channel: u32,
    frame: &[u8],
) -> FlatPart
    ensures { result ≡ bench_part_from bench (bench_part (bench_of bench) number party channel frame.now) }
{
    let given = Bench::try_from(bench);
    let part = given.and_then(|before| locate_part(before, number, party, channel, frame));
    FlatPart::from(part)
}
