// The commands of the ADS1299's serial interface: which byte is which, and which of them act.
#![tactic(auto)]

ghost use Rattle.std.specs.Prelude.{◌≡◌};
ghost use Rattle.ads1299_commands.specs.Commands.{register_command, decoded, acts_awake, acts};

// By their data sheet names. Not discriminants of Command: RREG and WREG carry the first address in their low five bits. The planner
// sends these bytes.
pub const WAKEUP: u8 = 0x02;

pub const STANDBY: u8 = 0x04;

pub const RESET: u8 = 0x06;

pub const START: u8 = 0x08;

pub const STOP: u8 = 0x0A;

pub const RDATAC: u8 = 0x10;

pub const SDATAC: u8 = 0x11;

pub const RDATA: u8 = 0x12;

pub const RREG: u8 = 0x20;

pub const WREG: u8 = 0x40;

// What a byte means while the converter waits.
#[derive(Clone, Copy, Debug, PartialEq, Eq)]
pub enum Command {
    Wakeup,
    Standby,
    Reset,
    Start,
    Stop,
    Rdatac,
    Sdatac,
    Rdata,
    Rreg(u8),
    Wreg(u8),
    Unlisted,
}

#[tactic(auto, unfolding(crate::specs::Commands::register_command))]
fn decode_register_command(byte: u8) -> Command
    ensures { result ≡ register_command byte }
{
    let address = byte % 32;
    match byte - address {
        RREG => Command::Rreg(address),
        WREG => Command::Wreg(address),
        _ => Command::Unlisted,
    }
}

// What a byte means while the converter waits. No From: while it does not wait, the same byte is a count or data.
#[tactic(auto, unfolding(crate::specs::Commands::decoded))]
pub fn decode(byte: u8) -> Command
    ensures { result ≡ decoded byte }
{
    match byte {
        WAKEUP => Command::Wakeup,
        STANDBY => Command::Standby,
        RESET => Command::Reset,
        START => Command::Start,
        STOP => Command::Stop,
        RDATAC => Command::Rdatac,
        SDATAC => Command::Sdatac,
        RDATA => Command::Rdata,
        _ => decode_register_command(byte),
    }
}

fn acts_awake(command: Command, continuous: bool, converting: bool) -> bool
    ensures { result ≡ acts_awake command continuous converting }
{
    match command {
        Command::Standby | Command::Reset => true,
        Command::Start => !converting,
        Command::Stop => converting,
        Command::Sdatac => continuous,
        Command::Rdatac | Command::Rdata | Command::Rreg(_) | Command::Wreg(_) => !continuous,
        Command::Wakeup | Command::Unlisted => false,
    }
}

// Whether a command acts, or is ignored. Standby, continuous and converting go one by one: Converter and C's struct have a field for
// each, and acts takes them so.
#[tactic(auto, unfolding(crate::specs::Commands::acts))]
pub fn does_act(command: Command, standby: bool, continuous: bool, converting: bool) -> bool
    ensures { result ≡ acts command standby continuous converting }
{
    if standby {
        matches!(command, Command::Wakeup)
    } else {
        acts_awake(command, continuous, converting)
    }
}
