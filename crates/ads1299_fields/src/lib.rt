// The fields of the registers: with which channel each is named, where it lies, and which values it takes. Every number
// is judged as it comes, and never cut to a byte before. Numbers and no enum: C passes any number, and is_field, place and legal have an
// answer for each.
#![tactic(auto)]

mod map;

ghost use Rattle.std.specs.Prelude.{◌≡◌, ◌+◌, ◌*◌, ◌<◌, ◌≤◌, ◌^◌, ltb};
ghost use Rattle.ads1299_registers.specs.Addresses.{register_count};
ghost use Rattle.ads1299_fields.specs.Names.{is_field, known_field, channel_field, takes_channel};
ghost use Rattle.ads1299_fields.specs.Places.{place, place_in};
ghost use Rattle.ads1299_fields.specs.Table.{refusing};
ghost use Rattle.ads1299_fields.specs.Values.{legal, settable};

use map::look_up;

// How many fields the registers have, by number.
const FIELDS: u32 = 26;

// Fields 1 to 9 are a channel's, the others are shared.
pub const CHANNEL_FIELDS: u32 = 9;

// A channel's nine fields together, which have a place in no register as one.
pub const WHOLE_CHANNEL: u32 = 30;

// A row of the map: where a field lies, and which value of it is refused.
#[derive(Clone, Copy, Debug, PartialEq, Eq)]
struct Entry {
    // Of channel 1 if the field is a channel's.
    register: usize,
    // How far that moves from one channel to the next.
    register_step: usize,
    // The lowest bit, of channel 1 as well.
    bit: usize,
    bit_step: usize,
    width: u8,
    // Of the values that fit the width.
    refused: Option<u32>,
}

impl Entry {
    fn refusing(self, value: u32) -> Entry
        ensures { result ≡ refusing self value }
    {
        Entry {
            refused: Some(value),
            ..self
        }
    }

    // The field's place, that many channels after channel 1.
    fn place(self, steps: usize) -> Place
        requires { (self.register + self.register_step * steps < register_count)
            × (self.width + (self.bit + self.bit_step * steps) ≤ 8) }
        ensures { result ≡ place_in self steps }
    {
        Place {
            register: (self.register + self.register_step * steps) as u8,
            bit: (self.bit + self.bit_step * steps) as u8,
            width: self.width,
        }
    }

    // Whether the value fits the width.
    fn fits(self, value: u32) -> bool
        requires { self.width ≤ 8 }
        ensures { result ≡ ltb value (2 ^ self.width) }
    {
        value < 1u32 << self.width
    }
}

// A field of a register, by its lowest bit and its width.
#[derive(Clone, Copy, Debug, PartialEq, Eq)]
pub struct Place {
    pub register: u8,
    pub bit: u8,
    pub width: u8,
}

// No bits of no register.
const NOWHERE: Place = Place {
    register: 0,
    bit: 0,
    width: 0,
};

// Whether the number is a field's.
pub fn is_field(field: u32) -> bool
    ensures { result ≡ is_field field }
{
    (1..=FIELDS).contains(&field)
}

// Whether a request can ask for the field: for one, or for a whole channel.
pub fn is_known_field(field: u32) -> bool
    ensures { result ≡ known_field field }
{
    is_field(field) || field == WHOLE_CHANNEL
}

// Whether the number is a channel field's, or that of all of them.
pub fn is_channel_field(field: u32) -> bool
    ensures { result ≡ channel_field field }
{
    field == WHOLE_CHANNEL || (1..=CHANNEL_FIELDS).contains(&field)
}

// Whether the field is to be named with this channel. Field, channel and value are numbers as a request has them, judged one by one;
// the definitions take them so.
pub fn takes_channel(field: u32, channel: u32) -> bool
    ensures { result ≡ takes_channel field channel }
{
    if is_channel_field(field) {
        ads1299_registers::is_channel(channel)
    } else {
        channel == 0
    }
}

// Where the field of the channel lies; all 0 where these name nothing.
// No Option: the contract is `place`, which has a place for every two numbers, and what could not fail still can't.
#[tactic(auto, using(crate::proofs::Rows::known, crate::proofs::Rows::unknown), unfolding(crate::specs::Places::place, crate::specs::Names::named))]
pub fn locate(field: u32, channel: u32) -> Place
    ensures { result ≡ place field channel }
{
    let Some(entry) = look_up(field) else {
        return NOWHERE;
    };
    if takes_channel(field, channel) {
        entry.place(channel.saturating_sub(1) as usize)
    } else {
        NOWHERE
    }
}

// Whether a request may set the field to this value; false where the number is no field's.
#[tactic(auto, using(crate::proofs::Rows::known, crate::proofs::Rows::unknown, crate::proofs::Rows::fits_row, crate::proofs::Rows::refused_row), unfolding(crate::specs::Values::legal))]
pub fn is_legal(field: u32, value: u32) -> bool
    ensures { result ≡ legal field value }
{
    let Some(entry) = look_up(field) else {
        return false;
    };
    entry.fits(value) && entry.refused != Some(value)
}

// Whether the registers can hold the value in the field of the channel, legal or not.
#[tactic(auto, using(crate::proofs::Rows::known, crate::proofs::Rows::unknown, crate::proofs::Rows::fits_row), unfolding(crate::specs::Values::settable, crate::specs::Names::named))]
pub fn is_settable(field: u32, channel: u32, value: u32) -> bool
    ensures { result ≡ settable field channel value }
{
    let Some(entry) = look_up(field) else {
        return false;
    };
    takes_channel(field, channel) && entry.fits(value)
}
