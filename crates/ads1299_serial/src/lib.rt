// The serial interface of the ADS1299: register transfers, and the frame that is shifted out.
#![tactic(auto)]

ghost use Rattle.std.specs.Prelude.{◌≡◌};
ghost use Rattle.ads1299_serial.specs.Transfers.{is_waiting, countable, valid_phase, begun, remainder};
ghost use Rattle.ads1299_serial.specs.Output.{pending, advanced, valid_place};

// The largest first address, and the largest second byte.
const LAST_ADDRESS: u8 = 31;

// The most registers that a transfer can have.
const MOST_REGISTERS: u8 = 32;

// A transfer's next address and the registers left come to this at most.
const FURTHEST: u16 = LAST_ADDRESS as u16 + MOST_REGISTERS as u16;

// The place of a frame's last byte, from 0.
const LAST_PLACE: u8 = ads1299_frame::LENGTH as u8 - 1;

#[derive(Clone, Copy, Debug, PartialEq, Eq)]
pub enum Direction {
    Read = 0,
    Write = 1,
}

// A register read or write: the next address, and how many registers are left (0 until the second byte has come).
#[derive(Clone, Copy)]
pub struct Transfer {
    pub direction: Direction,
    pub address: u8,
    pub remaining: u8,
}

// Where the converter stands in a command.
#[derive(Clone, Copy)]
pub enum Phase {
    Waiting,
    // The first byte of a register read or write has come.
    Held(Transfer),
    // Its second byte has come too.
    Counting(Transfer),
}

// Whether the converter is between commands.
pub fn is_waiting(phase: Phase) -> bool
    ensures { result ≡ is_waiting phase }
{
    matches!(phase, Phase::Waiting)
}

#[tactic(auto, unfolding(crate::specs::Transfers::countable))]
fn is_countable(transfer: Transfer) -> bool
    ensures { result ≡ countable transfer }
{
    transfer.remaining != 0
        && transfer.remaining <= MOST_REGISTERS
        && transfer.address as u16 + transfer.remaining as u16 <= FURTHEST
}

// Whether a converter can stand so in a command, given whether one may stand half given.
pub fn is_valid_phase(phase: Phase, interruptible: bool) -> bool
    ensures { result ≡ valid_phase phase interruptible }
{
    match phase {
        Phase::Waiting => true,
        Phase::Held(transfer) => interruptible && transfer.address <= LAST_ADDRESS,
        Phase::Counting(transfer) => interruptible && is_countable(transfer),
    }
}

// Where a transfer stands after its second byte, the number of registers minus one.
#[tactic(auto, unfolding(crate::specs::Transfers::begun))]
pub fn begin(transfer: Transfer, byte: u8) -> Phase
    ensures { result ≡ begun transfer byte }
{
    if byte <= LAST_ADDRESS {
        Phase::Counting(Transfer {
            remaining: byte + 1,
            ..transfer
        })
    } else {
        Phase::Waiting
    }
}

// Where a transfer stands after one more of its registers. No converter counts where the tests fail, so that no sum can overflow.
#[tactic(auto, using(crate::proofs::Transfers::bounds), unfolding(crate::specs::Transfers::remainder))]
pub fn remain(transfer: Transfer) -> Phase
    ensures { result ≡ remainder transfer }
{
    if 1 < transfer.remaining && is_countable(transfer) {
        Phase::Counting(Transfer {
            address: transfer.address + 1,
            remaining: transfer.remaining - 1,
            ..transfer
        })
    } else {
        Phase::Waiting
    }
}

// Whether the output's place, where it has one, is in the frame. The output is the frame that is being shifted out, from a place
// on, or nothing.
pub fn is_valid_place(output: Option<u8>) -> bool
    ensures { result ≡ valid_place output }
{
    match output {
        None => true,
        Some(place) => place <= LAST_PLACE,
    }
}

// The next output byte, or 0.
pub fn pending_byte(output: Option<u8>, frame: [u8; ads1299_frame::LENGTH]) -> u8
    ensures { result ≡ pending output frame }
{
    match output {
        None => 0,
        Some(place) => frame.get(place as usize).copied().unwrap_or(0),
    }
}

// The output after its next byte: past the last byte it starts over or is empty.
pub fn advance(output: Option<u8>, again: bool) -> Option<u8>
    ensures { result ≡ advanced output again }
{
    let place = output?;
    if place < LAST_PLACE {
        Some(place + 1)
    } else if again {
        Some(0)
    } else {
        None
    }
}
