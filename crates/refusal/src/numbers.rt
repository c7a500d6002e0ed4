// The same over bare numbers, any of them: 0 is none. The crates here judge by Refusal; a caller that has other numbers judges by these.
ghost use Rattle.std.specs.Prelude.{◌≡◌};
ghost use Rattle.refusal.specs.First.{given, first_given};

use crate::NONE;

// The number where its test applies, 0 where it does not.
pub fn when(applies: bool, number: u8) -> u8
    ensures { result ≡ given applies number }
{
    if applies { number } else { NONE }
}

// The first number that is not 0, or 0.
pub fn first_of(numbers: &[u8]) -> u8
    ensures { result ≡ first_given numbers.now }
{
    for number in numbers {
        if *number != NONE {
            return *number;
        }
    }
    NONE
}
