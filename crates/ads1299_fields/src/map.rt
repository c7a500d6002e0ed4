// The register map: where each of the 26 fields lies in the registers, and which value of it is refused, a row each.
ghost use Rattle.std.specs.Prelude.{◌≡◌};
ghost use Rattle.ads1299_fields.specs.Table.{row, none_refused, entry_of, entry_at};

use crate::Entry;
use ads1299_registers::{
    BIAS_SENSN, BIAS_SENSP, CH1SET, CONFIG1, CONFIG2, CONFIG3, CONFIG4, LOFF, LOFF_FLIP,
    LOFF_SENSN, LOFF_SENSP, MISC1,
};

// A field that all channels share. Register, bit and width go one by one here and below, so that a row of the map is one line.
fn shared(register: usize, bit: usize, width: u8) -> Entry
    ensures { result ≡ entry_of (row register 0 bit 0 width none_refused) }
{
    Entry {
        register,
        register_step: 0,
        bit,
        bit_step: 0,
        width,
        refused: None,
    }
}

// A channel's field in a register of its own, given where channel 1 has it.
fn in_own_register(register: usize, bit: usize, width: u8) -> Entry
    ensures { result ≡ entry_of (row register 1 bit 0 width none_refused) }
{
    Entry {
        register_step: 1,
        ..shared(register, bit, width)
    }
}

// A channel's field in a register that has a bit for each channel.
fn in_own_bit(register: usize) -> Entry
    ensures { result ≡ entry_of (row register 0 0 1 1 none_refused) }
{
    Entry {
        bit_step: 1,
        ..shared(register, 0, 1)
    }
}

// The field's row; none where the number is no field's.
#[tactic(auto, unfolding(crate::specs::Table::table, crate::specs::Table::row_of))]
pub(crate) fn look_up(field: u32) -> Option<Entry>
    ensures { result ≡ entry_at field }
{
    match field {
        1 => Some(in_own_register(CH1SET, 7, 1)), // PDn
        2 => Some(in_own_register(CH1SET, 4, 3).refusing(7)), // GAINn
        3 => Some(in_own_register(CH1SET, 3, 1)), // SRB2
        4 => Some(in_own_register(CH1SET, 0, 3)), // MUXn
        5 => Some(in_own_bit(BIAS_SENSP)), // BIASPn
        6 => Some(in_own_bit(BIAS_SENSN)), // BIASNn
        7 => Some(in_own_bit(LOFF_SENSP)), // LOFFPn
        8 => Some(in_own_bit(LOFF_SENSN)), // LOFFMn
        9 => Some(in_own_bit(LOFF_FLIP)), // LOFF_FLIPn
        10 => Some(shared(CONFIG1, 6, 1)), // DAISY_EN
        11 => Some(shared(CONFIG1, 5, 1)), // CLK_EN
        12 => Some(shared(CONFIG1, 0, 3).refusing(7)), // DR
        13 => Some(shared(CONFIG2, 4, 1)), // INT_CAL
        14 => Some(shared(CONFIG2, 2, 1)), // CAL_AMP
        15 => Some(shared(CONFIG2, 0, 2).refusing(2)), // CAL_FREQ
        16 => Some(shared(CONFIG3, 7, 1)), // PD_REFBUF
        17 => Some(shared(CONFIG3, 4, 1)), // BIAS_MEAS
        18 => Some(shared(CONFIG3, 3, 1)), // BIASREF_INT
        19 => Some(shared(CONFIG3, 2, 1)), // PD_BIAS
        20 => Some(shared(CONFIG3, 1, 1)), // BIAS_LOFF_SENS
        21 => Some(shared(LOFF, 5, 3)), // COMP_TH
        22 => Some(shared(LOFF, 2, 2)), // ILEAD_OFF
        23 => Some(shared(LOFF, 0, 2)), // FLEAD_OFF
        24 => Some(shared(MISC1, 5, 1)), // SRB1
        25 => Some(shared(CONFIG4, 3, 1)), // SINGLE_SHOT
        26 => Some(shared(CONFIG4, 1, 1)), // PD_LOFF_COMP
        _ => None,
    }
}
