// What a frame says of a channel (document 01, "Samples and frames"; the rail by document 02, No. 3).
#![tactic(auto)]

ghost use Rattle.std.specs.Prelude.{◌≡◌, ◌-◌, ◌<◌, get_or};
ghost use Rattle.bits.specs.Fields.{bit};
ghost use Rattle.ads1299_codes.specs.Rails.{decoded};
ghost use Rattle.ads1299_readout.specs.Reading.{is_frame, code_at, across, lead_off_p, lead_off_n};

use ads1299_codes::{Decoded, WORD_LENGTH};

// The byte at a place of a frame; a missing byte counts as 0.
fn byte_at(frame: &[u8], at: usize) -> u8
    ensures { result ≡ get_or frame.now at 0 }
{
    frame.get(at).copied().unwrap_or(0)
}

// Whether bytes are a frame, by their number and the first four bits.
#[tactic(auto, unfolding(crate::specs::Reading::is_frame, crate::specs::Reading::leading_bits))]
pub fn is_frame(frame: &[u8]) -> bool
    ensures { result ≡ is_frame frame.now }
{
    frame.len() == ads1299_frame::LENGTH && frame[0] / 0x10 == ads1299_frame::MARK
}

// The code of a channel with its rail, where missing bytes count as 0. Channel 0 gives the status word's.
#[tactic(auto, unfolding(crate::specs::Reading::code_at, ads1299_codes::specs::Words::word_at))]
pub fn decode_channel(frame: &[u8], channel: u32) -> Decoded
    ensures { result ≡ decoded (code_at frame.now channel) }
{
    let at = WORD_LENGTH * (channel as usize);
    ads1299_codes::decode(
        byte_at(frame, at),
        byte_at(frame, at + 1),
        byte_at(frame, at + 2),
    )
}

// A channel's bit of the comparator byte that begins in the low half of a byte of the frame. Channel 0 counts as 1, and a channel
// above 8 has none.
fn lead_off(frame: &[u8], at: usize, channel: u32) -> bool
    requires { at < 2 }
    ensures { result ≡ bit (across frame.now at) (channel - 1) }
{
    let byte = byte_at(frame, at) % 0x10 * 0x10 + byte_at(frame, at + 1) / 0x10;
    bits::is_set(byte, channel.saturating_sub(1))
}

// A channel's lead-off bit of P. P and N have a function each: both are public, and their clauses are the definitions lead_off_p and
// lead_off_n.
#[tactic(auto, using(crate::proofs::Reading::across_p), unfolding(crate::specs::Reading::lead_off_p))]
pub fn lead_off_p(frame: &[u8], channel: u32) -> bool
    ensures { result ≡ lead_off_p frame.now channel }
{
    lead_off(frame, 0, channel)
}

// A channel's lead-off bit of N.
#[tactic(auto, using(crate::proofs::Reading::across_n), unfolding(crate::specs::Reading::lead_off_n))]
pub fn lead_off_n(frame: &[u8], channel: u32) -> bool
    ensures { result ≡ lead_off_n frame.now channel }
{
    lead_off(frame, 1, channel)
}
