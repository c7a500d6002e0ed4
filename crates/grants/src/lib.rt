// Grants: the administrator moves a channel to another owner.
#![tactic(auto)]

ghost use Rattle.std.specs.Prelude.{◌≡◌, true};
ghost use Rattle.parties.specs.Parties.{known_party};
ghost use Rattle.refusal.specs.Refusals.{answer_number};
ghost use Rattle.ads1299_registers.specs.Channels.{is_channel};
ghost use Rattle.ads1299.specs.Answers.{moved_answer};
ghost use Rattle.grants.specs.Grant.{grant_refusal, reassigned, granted};

use ads1299::Converter;
use refusal::Refusal;

// The tests in the order of document 01: the channel before the caller's right.
fn judge_grant(
    converter: Converter,
    caller: u32,
    receiver: u32,
    channel: u32,
) -> Result<(), Refusal>
    ensures { answer_number result ≡ grant_refusal converter caller receiver channel }
{
    refusal::first_of(&[
        refusal::when(!converter.is_valid(), Refusal::InvalidState),
        refusal::when(!parties::is_known(caller), Refusal::UnknownParty),
        refusal::when(!parties::is_known(receiver), Refusal::UnknownParty),
        refusal::when(
            !ads1299_registers::is_channel(channel),
            Refusal::WrongChannel,
        ),
        refusal::when(!parties::is_admin(caller), Refusal::NotOwner),
    ])
}

// The state with one owner entry changed.
#[tactic(auto, using(parties::proofs::Bounds::party_bound), unfolding(crate::specs::Grant::reassigned))]
fn reassign(mut converter: Converter, channel: u32, receiver: u32) -> Converter
    requires { (is_channel channel ≡ true) × (known_party receiver ≡ true) }
    ensures { result ≡ reassigned converter channel receiver }
{
    converter.owners[channel as usize - 1] = receiver as u8;
    converter
}

// Gives a channel to a party. Only the administrator may, and it may whatever the converter is doing.
// Caller, receiver and channel go one by one, as C passes them and granted takes them.
#[tactic(auto, using(crate::proofs::Accepted::grantable), unfolding(crate::specs::Grant::granted))]
pub fn grant(
    converter: Converter,
    caller: u32,
    receiver: u32,
    channel: u32,
) -> Result<Converter, Refusal>
    ensures { moved_answer converter result ≡ granted converter caller receiver channel }
{
    judge_grant(converter, caller, receiver, channel)?;
    Ok(reassign(converter, channel, receiver))
}
