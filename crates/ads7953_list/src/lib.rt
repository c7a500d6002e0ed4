// The planner of the ADS7953's auto-1 channel list (document 02, No. 6): the administrator alone sends it, and sends it whole.
#![tactic(auto)]

ghost use Rattle.std.specs.Prelude.{◌≡◌};
ghost use Rattle.refusal.specs.Refusals.{answer_number};
ghost use Rattle.splice.specs.Splice.{room_at};
ghost use Rattle.ads7953_list.specs.Planned.{list_plan, list_refusal, list_planned, list_tx_after};
ghost use Rattle.ads7953_list.specs.Answers.{list_answer};

use ads7953::Ads7953;
use refusal::Refusal;

// The bytes of a plan: two words.
pub const LENGTH: usize = 4;

// The tests in the order of document 02.
fn judge_list(state: Ads7953, party: u32, list: u16, room: usize) -> Result<(), Refusal>
    ensures { answer_number result ≡ list_refusal state party list room }
{
    refusal::first_of(&[
        refusal::when(!state.is_valid(), Refusal::InvalidState),
        refusal::when(!parties::is_known(party), Refusal::UnknownParty),
        refusal::when(!parties::is_admin(party), Refusal::NotOwner),
        refusal::when(list == 0, Refusal::EmptyList),
        refusal::when(state.programming, Refusal::NotWaiting),
        refusal::when(room < LENGTH, Refusal::NoRoom),
    ])
}

// The plan: the word that enters programming, and the list, each high byte first.
fn make_plan(list: u16) -> [u8; LENGTH]
    ensures { result ≡ list_plan list }
{
    let [high, low] = list.to_be_bytes();
    [0x80, 0x00, high, low]
}

// Plans a list, bit n for channel n: the plan goes into the transmit buffer (document 01: sheet) from a place on, and all else there
// stays. Gives the plan's length; no state after, since the plan is sent in frames that have codes. The parameters go one by one, as C passes
// them.
#[tactic(auto, using(crate::proofs::Accepted::within, crate::proofs::Accepted::planned_at), unfolding(crate::specs::Planned::list_planned, crate::specs::Planned::list_tx_after))]
pub fn plan_list(
    state: Ads7953,
    party: u32,
    list: u16,
    tx: &mut [u8],
    at: usize,
) -> Result<usize, Refusal>
    ensures { (list_answer result ≡ list_planned state party list (room_at tx.old at))
        × (tx.new ≡ list_tx_after state party list tx.old at) }
{
    judge_list(state, party, list, splice::count_room(tx, at))?;
    tx[at..at + LENGTH].copy_from_slice(&make_plan(list));
    Ok(LENGTH)
}
