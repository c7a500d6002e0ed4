// The ADS7953's entry points for other languages, over its flat form. No state is kept here. C has no Result: an answer that
// may be a refusal is a struct of include/rimevelvet.h, its number first.
#![tactic(auto)]

ghost use Rattle.std.specs.Prelude.{◌≡◌};
ghost use Rattle.splice.specs.Splice.{room_at};
ghost use Rattle.ads7953.specs.Frame.{powered_up, framed};
ghost use Rattle.ads7953_list.specs.Planned.{list_planned, list_tx_after};
ghost use Rattle.flat_ads7953.specs.Flat.{flat_part, part_of};
ghost use Rattle.capi_ads7953.specs.Answers.{framed_from, list_planned_from, list_buffer_from, flat_frame_answer, flat_list_answer};

use ads7953::{Ads7953, Exchange};
use flat_ads7953::FlatAds7953;
use refusal::Refusal;

#[repr(C)]
#[derive(Clone, Copy)]
pub struct FlatFramed {
    pub refusal: u8,
    pub reply: u16,
    pub next: FlatAds7953,
}

#[repr(C)]
#[derive(Clone, Copy)]
pub struct FlatListPlanned {
    pub refusal: u8,
    pub length: usize,
}

impl From<Result<usize, Refusal>> for FlatListPlanned {
    ghost from_gives = { λ planned f. f ≡ flat_list_answer planned };

    fn from(planned: Result<usize, Refusal>) -> FlatListPlanned {
        match planned {
            Ok(length) => FlatListPlanned {
                refusal: refusal::NONE,
                length,
            },
            Err(refusal) => FlatListPlanned {
                refusal: u8::from(refusal),
                length: 0,
            },
        }
    }
}

#[unsafe(no_mangle)]
pub extern "C" fn rimevelvet_ads7953_power_up() -> FlatAds7953
    ensures { result ≡ flat_part powered_up }
{
    FlatAds7953::from(Ads7953::power_up())
}

// A frame of the state that the bytes stand for.
#[tactic(auto, using(crate::proofs::Answers::stands, crate::proofs::Answers::frame_judged, crate::proofs::Answers::frame_refused))]
fn frame(part: FlatAds7953, word: u16, code: u16) -> Result<Exchange, Refusal>
    ensures { flat_frame_answer part result ≡ framed_from part (framed (part_of part) word code) }
{
    Ads7953::try_from(part)?.frame(word, code)
}

#[unsafe(no_mangle)]
pub extern "C" fn rimevelvet_ads7953_frame(part: FlatAds7953, word: u16, code: u16) -> FlatFramed
    ensures { result ≡ framed_from part (framed (part_of part) word code) }
{
    // No From: what a refused frame hands back, the bytes that were given, is no part of its Result.
    match frame(part, word, code) {
        Ok(exchange) => FlatFramed {
            refusal: refusal::NONE,
            reply: exchange.reply,
            next: FlatAds7953::from(exchange.next),
        },
        Err(refusal) => FlatFramed {
            refusal: u8::from(refusal),
            reply: 0,
            next: part,
        },
    }
}

// A list for the part whose state the bytes stand for. The parameters go one by one, as C passes them.
#[tactic(auto, using(crate::proofs::Answers::stands, crate::proofs::Answers::list_judged, crate::proofs::Answers::buffer_judged))]
fn plan_list(
    part: FlatAds7953,
    party: u32,
    list: u16,
    tx: &mut [u8],
    at: usize,
) -> Result<usize, Refusal>
    ensures { (flat_list_answer result ≡ list_planned_from part (list_planned (part_of part) party list (room_at tx.old at)))
        × (tx.new ≡ list_buffer_from part (list_tx_after (part_of part) party list tx.old at) tx.old) }
{
    let before = Ads7953::try_from(part)?;
    ads7953_list::plan_list(before, party, list, tx, at)
}

#[unsafe(no_mangle)]
pub extern "C" fn rimevelvet_ads7953_plan_list(
    part: FlatAds7953,
    party: u32,
    list: u16,
    tx: &mut [u8],
    at: usize,
) -> FlatListPlanned
    ensures { (result ≡ list_planned_from part (list_planned (part_of part) party list (room_at tx.old at)))
        × (tx.new ≡ list_buffer_from part (list_tx_after (part_of part) party list tx.old at) tx.old) }
{
    FlatListPlanned::from(plan_list(part, party, list, tx, at))
}
