// 24-bit conversion codes, the three bytes of each (document 01, "Samples and frames"), and whether one sits on the rail (document 02, No. 3).
#![tactic(auto)]

ghost use Rattle.std.specs.Prelude.{◌≡◌};
ghost use Rattle.ads1299_codes.specs.Codes.{in_range, all_in_range, word_of, code_of};
ghost use Rattle.ads1299_codes.specs.Words.{word, word_bytes};
ghost use Rattle.ads1299_codes.specs.Rails.{rail_number, rail_of, decoded};

const LOWEST: i32 = -8388608;

const HIGHEST: i32 = 8388607;

// How many bytes a word of 24 bits has.
pub const WORD_LENGTH: usize = 3;

// How many words of 24 bits there are.
const WORD_COUNT: u32 = 0x1000000;

// The first word whose top bit is 1.
const SIGN_WORD: u32 = 0x800000;

// Which end of the range a code sits at, if at any.
#[derive(Clone, Copy, Debug, PartialEq, Eq)]
pub enum Rail {
    Neither = 0,
    Lowest = 1,
    Highest = 2,
}

// The number that stands for a rail in other languages.
impl From<Rail> for u8 {
    ghost from_gives = { λ rail number. number ≡ rail_number rail };

    fn from(rail: Rail) -> u8 {
        rail as u8
    }
}

// What three bytes decode to: the code and its rail.
#[derive(Clone, Copy, Debug, PartialEq, Eq)]
pub struct Decoded {
    pub code: i32,
    pub rail: Rail,
}

// Whether a number is a code.
#[tactic(auto, unfolding(crate::specs::Codes::in_range))]
fn in_range(code: i32) -> bool
    ensures { result ≡ in_range code }
{
    (LOWEST..=HIGHEST).contains(&code)
}

// Whether every number of a list is a code.
pub fn all_in_range(codes: &[i32]) -> bool
    ensures { result ≡ all_in_range codes.now }
{
    codes.iter().all(|code| in_range(*code))
}

// The code of three bytes, high byte first. There is no branch: adding SIGN_WORD within 24 bits takes the words from it on round to 0,
// and taking it off again leaves them below zero.
#[tactic(auto, using(crate::proofs::Codes::offset_code), unfolding(crate::specs::Words::word))]
fn code(high: u8, middle: u8, low: u8) -> i32
    ensures { result ≡ code_of (word high middle low) }
{
    // Not from_be_bytes: by callgrind it takes 11 instructions a code, this sum 9 (rust/decode_speed; document 02, No. 5).
    let word = (high as u32) * 0x10000 + (middle as u32) * 0x100 + (low as u32);
    ((word + SIGN_WORD) % WORD_COUNT) as i32 - SIGN_WORD as i32
}

// The rail of a code.
#[tactic(auto, using(crate::proofs::Rails::lowest_there, crate::proofs::Rails::highest_there, crate::proofs::Rails::elsewhere))]
fn classify(code: i32) -> Rail
    ensures { result ≡ rail_of code }
{
    match code {
        LOWEST => Rail::Lowest,
        HIGHEST => Rail::Highest,
        _ => Rail::Neither,
    }
}

// Decodes three bytes, high byte first. They go one by one, as the definition word takes them; ads1299_readout takes each from a frame
// that may be short.
#[tactic(auto, unfolding(crate::specs::Rails::decoded))]
pub fn decode(high: u8, middle: u8, low: u8) -> Decoded
    ensures { result ≡ decoded (code_of (word high middle low)) }
{
    let code = code(high, middle, low);
    Decoded {
        code,
        rail: classify(code),
    }
}

// Beside From: docs/DECISIONS.md and docs/RULES.md promise it by this name.
pub fn rail_number(rail: Rail) -> u8
    ensures { result ≡ rail_number rail }
{
    u8::from(rail)
}

// The low 24 bits of an integer in two's complement.
#[tactic(auto, using(crate::proofs::Codes::cast_word))]
fn word_of(code: i32) -> u32
    ensures { result ≡ word_of code }
{
    code.cast_unsigned() % WORD_COUNT
}

// The three bytes of a code, high byte first. A code out of range is cut to its low 24 bits.
#[tactic(auto, unfolding(crate::specs::Words::word_bytes))]
pub fn code_bytes(code: i32) -> [u8; WORD_LENGTH]
    ensures { result ≡ word_bytes (word_of code) }
{
    let [_, high, middle, low] = word_of(code).to_be_bytes();
    [high, middle, low]
}
