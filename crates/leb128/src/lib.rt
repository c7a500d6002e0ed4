// Numbers in groups of seven bits, the lowest group first, in their shortest form only.
#![tactic(auto)]

ghost use Rattle.std.specs.Prelude.{◌≡◌};
ghost use Rattle.leb128.specs.Numbers.{groups};
ghost use Rattle.leb128.specs.Encoding.{encoded_array};
ghost use Rattle.leb128.specs.Decoding.{decoded};
ghost use Rattle.leb128.specs.Results.{read_answer, encode_answer};

use refusal::Refusal;

// How many values a group has. A group that another one follows has this added, its byte's top bit.
const BASE: u32 = 128;

// The most groups that a number has.
pub const GROUPS: usize = 2;

// The largest number of two groups.
pub const LARGEST: u32 = BASE * BASE - 1;

// What was read, and the count of its bytes.
#[derive(Clone, Copy, Debug, PartialEq, Eq)]
pub struct Decoded<T> {
    pub value: T,
    pub used: usize,
}

// A number's bytes, of which the first `used` count; the others are 0. No ArrayVec: what encode answers is Copy, which that is not.
#[derive(Clone, Copy, Debug, PartialEq, Eq)]
pub struct Encoded {
    pub bytes: [u8; GROUPS],
    pub used: usize,
}

// The number that the bytes start with. Bytes after it are not looked at.
#[tactic(auto, using(crate::proofs::TwoGroups::nothing, crate::proofs::TwoGroups::alone, crate::proofs::TwoGroups::missing, crate::proofs::TwoGroups::zero, crate::proofs::TwoGroups::both, crate::proofs::TwoGroups::third))]
pub fn read(bytes: &[u8]) -> Result<Decoded<u32>, Refusal>
    ensures { read_answer result ≡ decoded groups bytes.now }
{
    let low = *bytes.first().ok_or(Refusal::Truncated)? as u32;
    if low < BASE {
        return Ok(Decoded {
            value: low,
            used: 1,
        });
    }
    let high = *bytes.get(1).ok_or(Refusal::Truncated)? as u32;
    if high == 0 || BASE <= high {
        return Err(Refusal::Malformed);
    }
    Ok(Decoded {
        value: low - BASE + BASE * high,
        used: GROUPS,
    })
}

// The bytes of a number; refused above the largest.
#[tactic(auto, using(crate::proofs::TwoGroups::too_large, crate::proofs::TwoGroups::in_one, crate::proofs::TwoGroups::in_two), unfolding(crate::specs::Encoding::padded))]
pub fn encode(value: u32) -> Result<Encoded, Refusal>
    ensures { encode_answer result ≡ encoded_array value }
{
    if LARGEST < value {
        return Err(Refusal::BadValue);
    }
    if value < BASE {
        return Ok(Encoded {
            bytes: [value as u8, 0],
            used: 1,
        });
    }
    let bytes = [(BASE + value % BASE) as u8, (value / BASE) as u8];
    Ok(Encoded {
        bytes,
        used: bytes.len(),
    })
}
