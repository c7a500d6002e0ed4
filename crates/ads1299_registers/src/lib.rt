// The ADS1299's registers by their data sheet names, for code, and its channels by number. specs/Addresses.antt has the same names
// for definitions.
#![tactic(auto)]

ghost use Rattle.std.specs.Prelude.{◌≡◌};
ghost use Rattle.ads1299_registers.specs.Channels.{is_channel};

// How many registers there are: addresses 00h to 17h.
pub const COUNT: usize = 24;

pub const CHANNELS: usize = 8;

// Numbers and no enum: each indexes the registers' array, and an address that comes on the line may be no register's.
pub const ID: usize = 0x00;

pub const CONFIG1: usize = 0x01;

pub const CONFIG2: usize = 0x02;

pub const CONFIG3: usize = 0x03;

pub const LOFF: usize = 0x04;

pub const CH1SET: usize = 0x05;

pub const BIAS_SENSP: usize = 0x0D;

pub const BIAS_SENSN: usize = 0x0E;

pub const LOFF_SENSP: usize = 0x0F;

pub const LOFF_SENSN: usize = 0x10;

pub const LOFF_FLIP: usize = 0x11;

pub const LOFF_STATP: usize = 0x12;

pub const LOFF_STATN: usize = 0x13;

pub const GPIO: usize = 0x14;

pub const MISC1: usize = 0x15;

pub const CONFIG4: usize = 0x17;

// Whether the converter has a channel of this number. Numbers and no enum: C passes any number, and it is judged here.
pub fn is_channel(channel: u32) -> bool
    ensures { result ≡ is_channel channel }
{
    (1..=CHANNELS as u32).contains(&channel)
}
