// Readings: what a channel's owner sees of a frame.
#![tactic(auto)]

ghost use Rattle.std.specs.Prelude.{◌≡◌, ◌+◌};
ghost use Rattle.refusal.specs.Refusals.{answer_number};
ghost use Rattle.readings.specs.Answers.{reading_answer};
ghost use Rattle.readings.specs.Reading.{reading_refusal, channel_reading, part_bytes, part_place};

use ads1299::Converter;
use ads1299_codes::{Decoded, Rail, WORD_LENGTH};
use refusal::Refusal;

// A channel's code with its rail, and its bits of P and N.
#[derive(Clone, Copy, Debug, PartialEq, Eq)]
pub struct Readout {
    pub code: i32,
    pub rail: Rail,
    pub p: bool,
    pub n: bool,
}

// The tests in the order of document 01: the owner before the frame.
fn judge_reading(
    converter: Converter,
    party: u32,
    channel: u32,
    frame: &[u8],
) -> Result<(), Refusal>
    ensures { answer_number result ≡ reading_refusal converter party channel frame.now }
{
    let owners = &converter.owners;
    refusal::first_of(&[
        refusal::when(!converter.is_valid(), Refusal::InvalidState),
        refusal::when(!parties::is_known(party), Refusal::UnknownParty),
        refusal::when(
            !ads1299_registers::is_channel(channel),
            Refusal::WrongChannel,
        ),
        refusal::when(
            !parties::is_owner(owners, party, channel),
            Refusal::NotOwner,
        ),
        refusal::when(!ads1299_readout::is_frame(frame), Refusal::BadFrame),
    ])
}

// Reads a channel from a frame, for its owner alone: the administrator too reads only its own.
// Party, channel and frame go one by one, as C passes them and channel_reading takes them.
#[tactic(auto, unfolding(ads1299_codes::specs::Rails::decoded, ads1299_readout::specs::Reading::rail_at, crate::specs::Reading::channel_reading))]
pub fn read_channel(
    converter: Converter,
    party: u32,
    channel: u32,
    frame: &[u8],
) -> Result<Readout, Refusal>
    ensures { reading_answer result ≡ channel_reading converter party channel frame.now }
{
    judge_reading(converter, party, channel, frame)?;
    let Decoded { code, rail } = ads1299_readout::decode_channel(frame, channel);
    Ok(Readout {
        code,
        rail,
        p: ads1299_readout::lead_off_p(frame, channel),
        n: ads1299_readout::lead_off_n(frame, channel),
    })
}

// The channel's three bytes as a part of the caller's own frame, not a copy; an empty part where read_channel refuses. No Result:
// document 01 names this form. It leaves open which empty part: the one at the frame's start was chosen. Parameters as
// read_channel's.
#[tactic(auto, using(ads1299_registers::proofs::Bounds::bounds, crate::proofs::Accepted::readable, crate::proofs::Accepted::frame_whole), unfolding(crate::specs::Reading::part_bytes, crate::specs::Reading::part_place, ads1299_readout::specs::Reading::channel_bytes))]
pub fn channel_bytes(converter: Converter, party: u32, channel: u32, frame: &[u8]) -> &[u8]
    ensures { (result.now ≡ part_bytes converter party channel frame.now)
        × (result.ref_ptr ≡ (frame.entry.ref_ptr.0, part_place converter party channel frame.now + frame.entry.ref_ptr.1)) }
{
    match judge_reading(converter, party, channel, frame) {
        Ok(()) => {
            let start = WORD_LENGTH * channel as usize;
            &frame[start..start + WORD_LENGTH]
        }
        Err(_) => &frame[0..0],
    }
}
