// The converter's entry points: power-up, a byte, a select rise and a sample. A bench's are in bench_lines.rt,
// for the reason in lib.rt.
ghost use Rattle.std.specs.Prelude.{◌≡◌};
ghost use Rattle.ads1299.specs.PowerUp.{powered_up};
ghost use Rattle.ads1299.specs.Step.{stepped};
ghost use Rattle.ads1299.specs.Deselect.{deselected};
ghost use Rattle.ads1299.specs.Sample.{sampled};
ghost use Rattle.flat.specs.States.{state_of};
ghost use Rattle.capi.specs.Answers.{flat_powered_up, stepped_from, moved_from};

use super::answers;
use crate::{FlatMoved, FlatPoweredUp, FlatStepped};
use ads1299::Converter;
use flat::FlatConverter;

#[unsafe(no_mangle)]
pub extern "C" fn rimevelvet_power_up(id: u8) -> FlatPoweredUp
    ensures { result ≡ flat_powered_up (powered_up id) }
{
    let startup = Converter::power_up(id);
    FlatPoweredUp {
        refusal: startup.refusal.map_or(refusal::NONE, u8::from),
        converter: FlatConverter::from(startup.state),
    }
}

#[tactic(auto, unfolding(crate::specs::Answers::stepped_from))]
#[unsafe(no_mangle)]
pub extern "C" fn rimevelvet_step(state: FlatConverter, byte: u8) -> FlatStepped
    ensures { result ≡ stepped_from state (stepped (state_of state) byte) }
{
    let stepped = Converter::try_from(state).and_then(|before| before.step(byte));
    answers::stepped(state, stepped)
}

#[tactic(auto, using(crate::proofs::Answered::moved_through))]
#[unsafe(no_mangle)]
pub extern "C" fn rimevelvet_deselect(state: FlatConverter) -> FlatMoved
    ensures { result ≡ moved_from state (deselected (state_of state)) }
{
    let risen = Converter::try_from(state).and_then(|before| before.deselect());
    answers::moved(state, risen)
}

#[unsafe(no_mangle)]
pub extern "C" fn rimevelvet_sample(state: FlatConverter, codes: &[i32], p: u8, n: u8) -> FlatMoved
    ensures { result ≡ moved_from state (sampled (state_of state) codes.now p n) }
{
    let sampled = Converter::try_from(state).and_then(|before| before.sample(codes, p, n));
    answers::moved(state, sampled)
}
