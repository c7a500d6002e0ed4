// Numbers on the bench: of its channels, and of its converters, which a select line each tells apart. One mapping takes a channel's number to a
// converter and that converter's own channel, so that every rule of one converter serves as it stands.
// Numbers and no enum: C passes any number, and each is judged whole.
#![tactic(auto)]

ghost use Rattle.std.specs.Prelude.{◌≡◌};
ghost use Rattle.lines.specs.Lines.{is_converter, converter_of, local_channel, channel_on};

pub const CONVERTERS: usize = 4;

// The bench's last channel.
const LAST_CHANNEL: u32 = (CONVERTERS * ads1299_registers::CHANNELS) as u32;

// The last number that names a converter as a whole.
const LAST_NUMBER: u32 = LAST_CHANNEL + CONVERTERS as u32 - 1;

// What stands for the converter where a number names none: any of the four, since the channel is then refused. It and NO_CHANNEL are no
// Options: converter_of and local_channel cannot fail, and their definitions (lines.Lines) give these numbers.
const NO_CONVERTER: u32 = 0;

// A channel that no converter has.
const NO_CHANNEL: u32 = ads1299_registers::CHANNELS as u32 + 1;

// Whether there is a converter of this number.
pub fn is_converter(number: u32) -> bool
    ensures { result ≡ is_converter number }
{
    number < CONVERTERS as u32
}

// The number of the converter that a channel's number names; 0 where it names none.
#[tactic(auto, unfolding(crate::specs::Lines::converter_of))]
pub fn converter_of(channel: u32) -> u32
    ensures { result ≡ converter_of channel }
{
    match channel {
        ..=LAST_CHANNEL => channel.saturating_sub(1) / ads1299_registers::CHANNELS as u32,
        ..=LAST_NUMBER => channel - LAST_CHANNEL,
        _ => NO_CONVERTER,
    }
}

// The channel as that converter counts it.
#[tactic(auto, unfolding(crate::specs::Lines::local_channel))]
pub fn local_channel(channel: u32) -> u32
    ensures { result ≡ local_channel channel }
{
    match channel {
        0 => 0,
        ..=LAST_CHANNEL => (channel - 1) % ads1299_registers::CHANNELS as u32 + 1,
        ..=LAST_NUMBER => 0,
        _ => NO_CHANNEL,
    }
}

// The channel as the converter of this number counts it; where it is another's, a channel that no converter has.
#[tactic(auto, unfolding(crate::specs::Lines::channel_on))]
pub fn channel_on(number: u32, channel: u32) -> u32
    ensures { result ≡ channel_on number channel }
{
    if converter_of(channel) == number {
        local_channel(channel)
    } else {
        NO_CHANNEL
    }
}
