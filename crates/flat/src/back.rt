// Which flat forms stand for a state, and for which.
ghost use Rattle.std.specs.Prelude.{◌≡◌};
ghost use Rattle.flat.specs.States.{are_flags, is_output, is_phase, is_state, direction_of, output_of, phase_of, state_of, state_in};

use super::codes::{AT_PLACE, COUNTING, EMPTY, HELD, ON, WAITING, WRITE};
use crate::FlatConverter;
use ads1299::Converter;
use ads1299_serial::{Direction, Phase, Transfer};
use refusal::Refusal;

// The flags, and below the bytes of an output and of a phase, go one by one, as the definitions take them.
fn are_flags(continuous: u8, standby: u8, converting: u8) -> bool
    ensures { result ≡ are_flags continuous standby converting }
{
    continuous <= ON && standby <= ON && converting <= ON
}

#[tactic(auto, unfolding(crate::specs::States::is_output))]
fn is_output(code: u8, place: u8) -> bool
    ensures { result ≡ is_output code place }
{
    matches!((code, place), (EMPTY, 0) | (AT_PLACE, _))
}

#[tactic(auto, unfolding(crate::specs::States::is_phase))]
fn is_phase(code: u8, direction: u8, address: u8, remaining: u8) -> bool
    ensures { result ≡ is_phase code direction address remaining }
{
    match code {
        WAITING => direction == 0 && address == 0 && remaining == 0,
        HELD | COUNTING => direction <= WRITE,
        _ => false,
    }
}

// Whether the bytes stand for a state. Whether a converter can be in that state is judged by each call. Beside TryFrom:
// docs/RULES.md names it.
#[tactic(auto, unfolding(crate::specs::States::is_state))]
pub fn is_state(state: FlatConverter) -> bool
    ensures { result ≡ is_state state }
{
    are_flags(state.continuous, state.standby, state.converting)
        && is_output(state.output, state.place)
        && is_phase(state.phase, state.direction, state.address, state.remaining)
}

// No TryFrom: state_of cannot fail, so these cannot; and an output is two bytes, a phase four.
fn direction_of(code: u8) -> Direction
    ensures { result ≡ direction_of code }
{
    if code == WRITE {
        Direction::Write
    } else {
        Direction::Read
    }
}

fn output_of(code: u8, place: u8) -> Option<u8>
    ensures { result ≡ output_of code place }
{
    (code == AT_PLACE).then_some(place)
}

fn phase_of(code: u8, transfer: Transfer) -> Phase
    ensures { result ≡ phase_of code transfer }
{
    match code {
        HELD => Phase::Held(transfer),
        COUNTING => Phase::Counting(transfer),
        _ => Phase::Waiting,
    }
}

// The state that the bytes stand for; of no use where is_state says no. It stays beside TryFrom, as what could not fail still cannot.
#[tactic(auto, unfolding(crate::specs::States::state_of))]
pub fn state_of(state: FlatConverter) -> Converter
    ensures { result ≡ state_of state }
{
    // Taken apart: with state.registers and the like in the literal, the check answers that its borrow pass does not cover it.
    let FlatConverter {
        registers,
        owners,
        latest,
        shifting,
        ..
    } = state;
    let transfer = Transfer {
        direction: direction_of(state.direction),
        address: state.address,
        remaining: state.remaining,
    };
    Converter {
        registers,
        owners,
        latest,
        output: output_of(state.output, state.place),
        continuous: state.continuous == ON,
        standby: state.standby == ON,
        converting: state.converting == ON,
        shifting,
        phase: phase_of(state.phase, transfer),
    }
}

// The state that the bytes stand for, or refusal 13.
impl TryFrom<FlatConverter> for Converter {
    type Error = Refusal;

    ghost try_from_gives = { λ f r. r ≡ state_in f };

    #[tactic(auto, unfolding(crate::specs::States::state_in))]
    fn try_from(state: FlatConverter) -> Result<Converter, Refusal> {
        if is_state(state) {
            Ok(state_of(state))
        } else {
            Err(Refusal::InvalidState)
        }
    }
}
