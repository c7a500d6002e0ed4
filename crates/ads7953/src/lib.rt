// The ADS7953, a 12-bit converter with a 16-channel multiplexer, followed frame by frame (document 02, No. 6): its state by value, and
// what power-up and a frame make of it.
#![tactic(auto)]

ghost use Rattle.std.specs.Prelude.{◌≡◌, ◌<◌};
ghost use Rattle.bits.specs.Fields.{bit};
ghost use Rattle.ads7953.specs.Modes.{mode_number};

mod frame;
mod latch;
mod scan;
mod words;

// The channels are 0 to 15.
pub const CHANNELS: u8 = 16;

// How the channels are sequenced, each with its number in document 02.
#[derive(Clone, Copy, Debug, PartialEq, Eq)]
pub enum Mode {
    Manual = 0,
    Auto1 = 1,
    Auto2 = 2,
}

// A word asks for a channel (`ordered`), the next frame's multiplexer takes it (`channel`), and the frame after that replies it.
#[derive(Clone, Copy)]
pub struct Ads7953 {
    pub mode: Mode,
    pub channel: u8,
    pub ordered: u8,
    pub list: u16, // the auto-1 program register: bit n for channel n
    pub last: u8, // the auto-2 program register: the last channel
    pub range2: bool, // DI06 as programmed: 0 V to 2 x Vref
    pub reset: bool, // DI10 as programmed: the counter is reset
    pub programming: bool, // the next word is the list
    pub first: bool, // no frame since power-up
}

// The reply to a frame, and the part after it. Not ads1299::Exchange: this crate needs none of the ADS1299's, and a word
// goes out, not a byte.
#[derive(Clone, Copy)]
pub struct Exchange {
    pub reply: u16,
    pub next: Ads7953,
}

// A mode's number, for other languages.
impl From<Mode> for u8 {
    ghost from_gives = { λ mode number. number ≡ mode_number mode };

    fn from(mode: Mode) -> u8 {
        mode as u8
    }
}

// Whether a word's bit is 1. A shift, not one function with bits::is_set: that one has an answer for places above its byte, which no
// caller here asks.
#[tactic(auto, unfolding(bits::specs::Fields::field, bits::specs::Fields::bit))]
fn is_set(word: u16, place: u8) -> bool
    requires { place < 16 }
    ensures { result ≡ bit word place }
{
    (word >> place) % 2 == 1
}
