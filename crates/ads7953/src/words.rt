// A word's bits, DI15 to DI00, by document 001's tables. DI05 to DI00 (power-down, GPIO) are not looked at.
ghost use Rattle.std.specs.Prelude.{◌≡◌, ◌<◌};
ghost use Rattle.bits.specs.Fields.{field};
ghost use Rattle.ads7953.specs.Words.{decoded, programs, retained, resets_counter, selects_range2, channel_in, last_in};

use crate::is_set;

// DI15-12 of a word. Not discriminants of Command: the other eleven numbers are all Continue.
const MANUAL: u8 = 1;

const AUTO1: u8 = 2;

const AUTO2: u8 = 3;

const PROGRAM_AUTO1: u8 = 8;

const PROGRAM_AUTO2: u8 = 9;

#[derive(Clone, Copy, Debug, PartialEq, Eq)]
pub(crate) enum Command {
    Continue,
    SelectManual,
    SelectAuto1,
    SelectAuto2,
    ProgramAuto1,
    ProgramAuto2,
}

// The four bits of a word from one on. A shift, not one function with bits::read: that one has an answer for places above its byte, which
// no caller here asks.
#[tactic(auto, unfolding(bits::specs::Fields::field))]
fn four_bits(word: u16, from: u8) -> u8
    requires { from < 16 }
    ensures { result ≡ field word from 4 }
{
    ((word >> from) % 16) as u8
}

// What a word asks for, where it is no list. No From: a list is no command.
#[tactic(auto, unfolding(crate::specs::Words::decoded))]
pub(crate) fn decode(word: u16) -> Command
    ensures { result ≡ decoded word }
{
    match four_bits(word, 12) {
        MANUAL => Command::SelectManual,
        AUTO1 => Command::SelectAuto1,
        AUTO2 => Command::SelectAuto2,
        PROGRAM_AUTO1 => Command::ProgramAuto1,
        PROGRAM_AUTO2 => Command::ProgramAuto2,
        _ => Command::Continue,
    }
}

// DI11: whether the word programs settings, or keeps them.
#[tactic(auto, unfolding(crate::specs::Words::programs))]
fn programs(word: u16) -> bool
    ensures { result ≡ programs word }
{
    is_set(word, 11)
}

// A setting as a word leaves it: new where the word programs settings, else as it was.
#[tactic(auto, unfolding(crate::specs::Words::retained))]
pub(crate) fn retain(word: u16, new: bool, old: bool) -> bool
    ensures { result ≡ retained word new old }
{
    if programs(word) { new } else { old }
}

// DI10 of a word for an auto mode.
#[tactic(auto, unfolding(crate::specs::Words::resets_counter))]
pub(crate) fn resets_counter(word: u16) -> bool
    ensures { result ≡ resets_counter word }
{
    is_set(word, 10)
}

// DI06 of a word for a mode.
#[tactic(auto, unfolding(crate::specs::Words::selects_range2))]
pub(crate) fn selects_range2(word: u16) -> bool
    ensures { result ≡ selects_range2 word }
{
    is_set(word, 6)
}

// DI10-07 of a word for manual mode.
#[tactic(auto, unfolding(crate::specs::Words::channel_in))]
pub(crate) fn channel_in(word: u16) -> u8
    ensures { result ≡ channel_in word }
{
    four_bits(word, 7)
}

// DI09-06 of a word that programs auto-2.
#[tactic(auto, unfolding(crate::specs::Words::last_in))]
pub(crate) fn last_in(word: u16) -> u8
    ensures { result ≡ last_in word }
{
    four_bits(word, 6)
}
