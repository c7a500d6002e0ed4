// Grants on the bench: the administrator moves one of its 32 channels to another owner.
#![tactic(auto)]

ghost use Rattle.std.specs.Prelude.{◌≡◌};
ghost use Rattle.bench.specs.Answers.{bench_moved_answer};
ghost use Rattle.bench_grants.specs.Grant.{bench_granted};

use bench::Bench;
use refusal::Refusal;

// Gives a channel to a party, on the converter that has it.
// The parameters go one by one, as C passes them and the definition takes them.
#[tactic(auto, using(lines::proofs::Numbering::mapped_below), unfolding(crate::specs::Grant::bench_granted))]
pub fn grant(mut bench: Bench, caller: u32, receiver: u32, channel: u32) -> Result<Bench, Refusal>
    ensures { bench_moved_answer bench result ≡ bench_granted bench caller receiver channel }
{
    if !bench.is_valid() {
        return Err(Refusal::InvalidState);
    }
    let k = lines::converter_of(channel) as usize;
    let local = lines::local_channel(channel);
    bench.converters[k] = grants::grant(bench.converters[k], caller, receiver, local)?;
    Ok(bench)
}
