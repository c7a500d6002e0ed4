// A field of a byte, by its lowest bit and its width: read, replaced, and a write through a mask. Bit and width go one by one, as the
// definitions take them; ads1299_fields::Place has them with a register, which a byte as such has not.
#![tactic(auto)]

ghost use Rattle.std.specs.Prelude.{◌≡◌, cond, ◌≤◌, ◌^◌};
ghost use Rattle.bits.specs.Fields.{field, bit, inserted, insertable, masked};

// 2 to the power of k.
fn power(k: u8) -> u32
    requires { k ≤ 8 }
    ensures { result ≡ 2 ^ k }
{
    1u32 << k
}

// The value of the field; what lies above the byte reads as 0.
#[tactic(auto, using(crate::proofs::Fields::field_none, crate::proofs::Fields::field_whole), unfolding(crate::specs::Fields::field))]
pub fn read(byte: u8, bit: u8, width: u8) -> u8
    ensures { result ≡ field byte bit width }
{
    if 8 <= bit {
        return 0;
    }
    let from = byte as u32 / power(bit);
    if 8 <= width {
        return from as u8;
    }
    (from % power(width)) as u8
}

// Whether the bit at a place is 1; a place above the byte has none.
#[tactic(auto, using(crate::proofs::Fields::field_none), unfolding(crate::specs::Fields::bit))]
pub fn is_set(byte: u8, place: u32) -> bool
    ensures { result ≡ bit byte place }
{
    place < 8 && read(byte, place as u8, 1) == 1
}

// Whether the field lies within a byte, and the value within the field.
#[tactic(auto, unfolding(crate::specs::Fields::insertable))]
fn fits(bit: u8, width: u8, value: u8) -> bool
    ensures { result ≡ insertable bit width value }
{
    width <= 8 && bit <= 8 - width && (value as u32) < power(width)
}

// The byte with the value in the field; the byte as it stands where that does not fit.
#[tactic(auto, using(crate::proofs::Fields::fitting, crate::proofs::Fields::bounds), unfolding(crate::specs::Fields::inserted))]
pub fn insert(byte: u8, bit: u8, width: u8, value: u8) -> u8
    ensures { result ≡ cond (insertable bit width value) (inserted byte bit width value) byte }
{
    if fits(bit, width, value) {
        let low = power(bit);
        let high = power(width + bit);
        (byte as u32 / high * high + (value as u32 * low + byte as u32 % low)) as u8
    } else {
        byte
    }
}

// The mask's bits of the new byte, and the other bits of the old.
#[tactic(auto, using(crate::proofs::Masks::parts_joined))]
pub fn write_masked(old: u8, mask: u8, new: u8) -> u8
    ensures { result ≡ masked old mask new }
{
    (old & !mask) | (new & mask)
}
