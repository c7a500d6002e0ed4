// From a state to its flat form.
ghost use Rattle.std.specs.Prelude.{◌≡◌};
ghost use Rattle.flat.specs.Flat.{phase_code, transfer_of, flat};

use super::codes::{COUNTING, HELD, WAITING};
use crate::FlatConverter;
use ads1299::Converter;
use ads1299_serial::{Direction, Phase, Transfer};

// No From: a phase is four bytes, this number and its transfer's three.
fn phase_code(phase: Phase) -> u8
    ensures { result ≡ phase_code phase }
{
    match phase {
        Phase::Waiting => WAITING,
        Phase::Held(_) => HELD,
        Phase::Counting(_) => COUNTING,
    }
}

// The transfer under way. No Option: between commands C has 0 in all three bytes, and so has the definition transfer_of.
fn transfer_of(phase: Phase) -> Transfer
    ensures { result ≡ transfer_of phase }
{
    match phase {
        Phase::Waiting => Transfer {
            direction: Direction::Read,
            address: 0,
            remaining: 0,
        },
        Phase::Held(transfer) | Phase::Counting(transfer) => transfer,
    }
}

impl From<Converter> for FlatConverter {
    ghost from_gives = { λ converter f. f ≡ flat converter };

    #[tactic(auto, unfolding(crate::specs::Flat::flat))]
    fn from(converter: Converter) -> FlatConverter {
        let transfer = transfer_of(converter.phase);
        FlatConverter {
            registers: converter.registers,
            owners: converter.owners,
            latest: converter.latest,
            output: u8::from(converter.output.is_some()),
            place: converter.output.unwrap_or(0),
            continuous: u8::from(converter.continuous),
            standby: u8::from(converter.standby),
            converting: u8::from(converter.converting),
            shifting: converter.shifting,
            phase: phase_code(converter.phase),
            direction: transfer.direction as u8,
            address: transfer.address,
            remaining: transfer.remaining,
        }
    }
}
