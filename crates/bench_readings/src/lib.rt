// Readings on the bench: a frame comes with the number of the converter that it is of.
#![tactic(auto)]

ghost use Rattle.std.specs.Prelude.{◌≡◌, ◌+◌};
ghost use Rattle.readings.specs.Answers.{reading_answer};
ghost use Rattle.bench_readings.specs.Reading.{bench_reading, bench_part_bytes, bench_part_place};

use bench::Bench;
use readings::Readout;
use refusal::Refusal;

// Reads a channel from a frame of the converter of this number, for its owner alone. A number that is not the channel's makes it a
// channel that no converter has. The parameters go one by one, as C passes them and the definition takes them.
#[tactic(auto, using(lines::proofs::Numbering::mapped_below), unfolding(crate::specs::Reading::bench_reading))]
pub fn read_channel(
    bench: Bench,
    number: u32,
    party: u32,
    channel: u32,
    frame: &[u8],
) -> Result<Readout, Refusal>
    ensures { reading_answer result ≡ bench_reading bench number party channel frame.now }
{
    if !bench.is_valid() {
        return Err(Refusal::InvalidState);
    }
    let holder = lines::converter_of(channel);
    let local = lines::channel_on(number, channel);
    readings::read_channel(bench.converters[holder as usize], party, local, frame)
}

// Where the channel lies in the caller's own frame; at its start, and empty, where read_channel refuses (document 01 names this form).
// Parameters as read_channel's.
#[tactic(auto, using(lines::proofs::Numbering::mapped_below), unfolding(crate::specs::Reading::bench_part_bytes, crate::specs::Reading::bench_part_place))]
pub fn channel_bytes(bench: Bench, number: u32, party: u32, channel: u32, frame: &[u8]) -> &[u8]
    ensures { (result.now ≡ bench_part_bytes bench number party channel frame.now)
        × (result.ref_ptr ≡ (frame.entry.ref_ptr.0, bench_part_place bench number party channel frame.now + frame.entry.ref_ptr.1)) }
{
    if !bench.is_valid() {
        return &frame[0..0];
    }
    let holder = lines::converter_of(channel);
    let counted = lines::channel_on(number, channel);
    readings::channel_bytes(bench.converters[holder as usize], party, counted, frame)
}
