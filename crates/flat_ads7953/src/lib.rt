// The flat form of an ADS7953's state, for other languages: from a state to its bytes and back, and which bytes stand for a state.
#![tactic(auto)]

ghost use Rattle.std.specs.Prelude.{◌≡◌};
ghost use Rattle.flat_ads7953.specs.Flat.{flat_part, is_part, mode_of, part_of, part_in};

use ads7953::{Ads7953, Mode};
use flat::ON;
use refusal::Refusal;

// The modes' numbers.
const AUTO1: u8 = Mode::Auto1 as u8;

const AUTO2: u8 = Mode::Auto2 as u8;

// A state as numbers, by value; the flags are 0 or 1, the mode its number. Each state has one flat form. Other bytes stand for no state
// (refusal 13).
#[repr(C)]
#[derive(Clone, Copy)]
pub struct FlatAds7953 {
    pub list: u16,
    pub mode: u8,
    pub channel: u8,
    pub ordered: u8,
    pub last: u8,
    pub range2: u8,
    pub reset: u8,
    pub programming: u8,
    pub first: u8,
}

impl From<Ads7953> for FlatAds7953 {
    ghost from_gives = { λ part f. f ≡ flat_part part };

    #[tactic(auto, using(crate::proofs::RoundTrip::flag_byte), unfolding(crate::specs::Flat::flat_part))]
    fn from(part: Ads7953) -> FlatAds7953 {
        FlatAds7953 {
            list: part.list,
            mode: u8::from(part.mode),
            channel: part.channel,
            ordered: part.ordered,
            last: part.last,
            range2: u8::from(part.range2),
            reset: u8::from(part.reset),
            programming: u8::from(part.programming),
            first: u8::from(part.first),
        }
    }
}

// Whether the bytes stand for a state. Whether a part can be in that state is judged by each call. Beside TryFrom:
// docs/RULES.md names it.
#[tactic(auto, unfolding(crate::specs::Flat::is_part, crate::specs::Flat::are_flags))]
pub fn is_part(part: FlatAds7953) -> bool
    ensures { result ≡ is_part part }
{
    part.mode <= AUTO2
        && part.range2 <= ON
        && part.reset <= ON
        && part.programming <= ON
        && part.first <= ON
}

// Not TryFrom<u8>: part_of cannot fail, and the definition mode_of has a mode for every number.
fn mode_of(number: u8) -> Mode
    ensures { result ≡ mode_of number }
{
    match number {
        AUTO1 => Mode::Auto1,
        AUTO2 => Mode::Auto2,
        _ => Mode::Manual,
    }
}

// The state that the bytes stand for; of no use where is_part says no. It stays beside TryFrom, as what could not fail still cannot.
#[tactic(auto, unfolding(crate::specs::Flat::part_of))]
pub fn part_of(part: FlatAds7953) -> Ads7953
    ensures { result ≡ part_of part }
{
    Ads7953 {
        mode: mode_of(part.mode),
        channel: part.channel,
        ordered: part.ordered,
        list: part.list,
        last: part.last,
        range2: part.range2 == ON,
        reset: part.reset == ON,
        programming: part.programming == ON,
        first: part.first == ON,
    }
}

// The state that the bytes stand for, or refusal 13.
impl TryFrom<FlatAds7953> for Ads7953 {
    type Error = Refusal;

    ghost try_from_gives = { λ f answer. answer ≡ part_in f };

    #[tactic(auto, unfolding(crate::specs::Flat::part_in))]
    fn try_from(part: FlatAds7953) -> Result<Ads7953, Refusal> {
        if is_part(part) {
            Ok(part_of(part))
        } else {
            Err(Refusal::InvalidState)
        }
    }
}
