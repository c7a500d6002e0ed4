// The refusals of documents 01 and 02 by name, each with its number, and the first that applies. specs/Numbers.antt has the numbers by
// the same names for definitions.
#![tactic(auto)]

pub mod numbers;

ghost use Rattle.std.specs.Prelude.{◌≡◌, map};
ghost use Rattle.refusal.specs.First.{given, first_given};
ghost use Rattle.refusal.specs.Refusals.{number_of, number_in, answer_number};

// The number of success, which is no refusal's: what C's structs and the program's lines have where the code has Ok.
pub const NONE: u8 = 0;

// Why a call is refused.
#[derive(Clone, Copy, Debug, PartialEq, Eq)]
pub enum Refusal {
    // The request ends inside or before a number.
    Truncated = 1,
    // A number is not in its shortest form, or has too many groups.
    Malformed = 2,
    UnknownParty = 3,
    UnknownField = 4,
    // No such channel; or a shared field that is named with a channel.
    WrongChannel = 5,
    NotOwner = 6,
    // The value is too wide for the field or refused there; a number is too large to be written.
    BadValue = 7,
    // The converter is half through a command; an ADS7953 half through the programming of its list.
    NotWaiting = 8,
    NoRoom = 9,
    // A sample while the converter is stopped or in standby.
    NotConverting = 10,
    // Not eight codes, or a code out of range; of an ADS7953 a code above 12 bits.
    BadSample = 11,
    BadFrame = 12,
    // A state that no converter can be in, or an ID that is not an ADS1299's; of an ADS7953 a number too wide for its bits.
    InvalidState = 13,
    // More program input than is taken.
    InputTooLong = 14,
    // A list of channels with no channel in it.
    EmptyList = 16,
}

// A refusal's number, for other languages and for the program.
impl From<Refusal> for u8 {
    ghost from_gives = { λ refusal number. number ≡ number_of refusal };

    fn from(refusal: Refusal) -> u8 {
        refusal as u8
    }
}

// The refusal where its test applies.
pub fn when(applies: bool, refusal: Refusal) -> Option<Refusal>
    ensures { number_in result ≡ given applies (number_of refusal) }
{
    applies.then_some(refusal)
}

// The first refusal of a list, in the order of document 01, or none.
pub fn first_of(tests: &[Option<Refusal>]) -> Result<(), Refusal>
    ensures { answer_number result ≡ first_given (map number_in tests.now) }
{
    for test in tests {
        if let Some(refusal) = test {
            return Err(*refusal);
        }
    }
    Ok(())
}
