// Power-up: the one rule by which a converter comes into being.
ghost use Rattle.std.specs.Prelude.{◌≡◌};
ghost use Rattle.ads1299.specs.PowerUp.{valid_id, restored, powered_up};
ghost use Rattle.ads1299.specs.Answers.{power_up_answer};

use crate::{Converter, Startup};
use ads1299_serial::Phase;
use refusal::Refusal;

impl Converter {
    // CH1SET to CH8SET at power-up: gain 24, inputs shorted. Document 000's register overview (Table 11) decides; document 02, No. 2
    // overrides document 01's column.
    pub const CHANNEL_POWER_UP: u8 = 0x61;

    // The registers' power-up values; the ID's is given. A row a register, as document 01 has them: a loop would hide the table.
    pub const POWER_UP: [u8; ads1299_registers::COUNT] = [
        0x00, // ID
        0x96, // CONFIG1
        0xC0, // CONFIG2
        0x60, // CONFIG3
        0x00, // LOFF
        Self::CHANNEL_POWER_UP, // CH1SET
        Self::CHANNEL_POWER_UP, // CH2SET
        Self::CHANNEL_POWER_UP, // CH3SET
        Self::CHANNEL_POWER_UP, // CH4SET
        Self::CHANNEL_POWER_UP, // CH5SET
        Self::CHANNEL_POWER_UP, // CH6SET
        Self::CHANNEL_POWER_UP, // CH7SET
        Self::CHANNEL_POWER_UP, // CH8SET
        0x00, // BIAS_SENSP
        0x00, // BIAS_SENSN
        0x00, // LOFF_SENSP
        0x00, // LOFF_SENSN
        0x00, // LOFF_FLIP
        0x00, // LOFF_STATP
        0x00, // LOFF_STATN
        0x0F, // GPIO
        0x00, // MISC1
        0x00, // MISC2
        0x00, // CONFIG4
    ];

    // The bits that a write changes, a row a register. No pairs with POWER_UP: document 01 names each as a constant of its own.
    pub const MASK: [u8; ads1299_registers::COUNT] = [
        0x00, // ID
        0x67, // CONFIG1
        0x17, // CONFIG2
        0x9E, // CONFIG3
        0xEF, // LOFF
        0xFF, // CH1SET
        0xFF, // CH2SET
        0xFF, // CH3SET
        0xFF, // CH4SET
        0xFF, // CH5SET
        0xFF, // CH6SET
        0xFF, // CH7SET
        0xFF, // CH8SET
        0xFF, // BIAS_SENSP
        0xFF, // BIAS_SENSN
        0xFF, // LOFF_SENSP
        0xFF, // LOFF_SENSN
        0xFF, // LOFF_FLIP
        0x00, // LOFF_STATP
        0x00, // LOFF_STATN
        0xFF, // GPIO
        0x20, // MISC1
        0x00, // MISC2
        0x0A, // CONFIG4
    ];

    // Whether an ADS1299 can have this ID: its low five bits are fixed, the top three free.
    #[tactic(auto, unfolding(crate::specs::PowerUp::valid_id))]
    pub(crate) fn is_valid_id(id: u8) -> bool
        ensures { result ≡ valid_id id }
    {
        id % 32 == 0x1E
    }

    // The power-up state with an ID and owners: what RESET comes back to as well.
    #[tactic(auto, unfolding(crate::specs::PowerUp::restored, ads1299_registers::specs::Table::power_up))]
    pub(crate) fn restore(id: u8, owners: [u8; ads1299_registers::CHANNELS]) -> Converter
        ensures { result ≡ restored id owners }
    {
        let mut registers = Self::POWER_UP;
        registers[ads1299_registers::ID] = id;
        Converter {
            registers,
            owners,
            latest: [0; ads1299_frame::LENGTH],
            output: None,
            continuous: true,
            standby: false,
            converting: false,
            shifting: [0; ads1299_frame::LENGTH],
            phase: Phase::Waiting,
        }
    }

    #[tactic(auto, unfolding(crate::specs::PowerUp::powered_up))]
    pub fn power_up(id: u8) -> Startup<Converter>
        ensures { power_up_answer result ≡ powered_up id }
    {
        let owners = [parties::ADMIN; ads1299_registers::CHANNELS];
        if Self::is_valid_id(id) {
            Startup {
                refusal: None,
                state: Self::restore(id, owners),
            }
        } else {
            Startup {
                refusal: Some(Refusal::InvalidState),
                state: Self::restore(0, owners),
            }
        }
    }
}
