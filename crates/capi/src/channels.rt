// Grants and readings.
ghost use Rattle.std.specs.Prelude.{◌≡◌};
ghost use Rattle.grants.specs.Grant.{granted};
ghost use Rattle.readings.specs.Reading.{channel_reading};
ghost use Rattle.flat.specs.States.{state_of};
ghost use Rattle.capi.specs.Answers.{moved_from, reading_from, channel_part, part_from};
ghost use Rattle.capi.specs.Results.{flat_part_answer};

use super::answers::{self, Located};
use crate::{FlatMoved, FlatPart, FlatReading};
use ads1299::Converter;
use flat::FlatConverter;
use refusal::Refusal;

#[unsafe(no_mangle)]
pub extern "C" fn rimevelvet_grant(
    state: FlatConverter,
    caller: u32,
    receiver: u32,
    channel: u32,
) -> FlatMoved
    ensures { result ≡ moved_from state (granted (state_of state) caller receiver channel) }
{
    let given = Converter::try_from(state);
    let granted = given.and_then(|before| grants::grant(before, caller, receiver, channel));
    answers::moved(state, granted)
}

#[tactic(auto, unfolding(crate::specs::Answers::reading_from, crate::specs::Answers::refused_reading, crate::specs::Answers::flat_reading))]
#[unsafe(no_mangle)]
pub extern "C" fn rimevelvet_read_channel(
    state: FlatConverter,
    party: u32,
    channel: u32,
    frame: &[u8],
) -> FlatReading
    ensures { result ≡ reading_from state (channel_reading (state_of state) party channel frame.now) }
{
    let given = Converter::try_from(state);
    let reading = given.and_then(|before| readings::read_channel(before, party, channel, frame));
    FlatReading::from(reading)
}

// Where the part that readings::channel_bytes hands back lies in the frame.
#[tactic(auto, using(crate::proofs::Parts::part_located))]
fn locate_part(
    converter: Converter,
    party: u32,
    channel: u32,
    frame: &[u8],
) -> Result<Located, Refusal>
    ensures { flat_part_answer result ≡ channel_part converter party channel frame.now }
{
    let reading = readings::read_channel(converter, party, channel, frame);
    let part = readings::channel_bytes(converter, party, channel, frame);
    answers::locate(reading, channel, part)
}

#[unsafe(no_mangle)]
pub extern "C" fn rimevelvet_channel_bytes(
    state: FlatConverter,
    party: u32,
    channel: u32,
    frame: &[u8],
) -> FlatPart
    ensures { result ≡ part_from state (channel_part (state_of state) party channel frame.now) }
{
    let given = Converter::try_from(state);
    let part = given.and_then(|before| locate_part(before, party, channel, frame));
    FlatPart::from(part)
}
