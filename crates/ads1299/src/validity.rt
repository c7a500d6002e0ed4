// Refusal 13: whether a converter can be in the state that it is said to be in.
ghost use Rattle.std.specs.Prelude.{◌≡◌};
ghost use Rattle.ads1299.specs.Validity.{interruptible, valid};

use crate::Converter;

impl Converter {
    // Whether a command may stand half given: in command mode, awake, with nothing pending.
    fn is_interruptible(self) -> bool
        ensures { result ≡ interruptible self.continuous self.standby self.output }
    {
        !self.continuous && !self.standby && self.output.is_none()
    }

    // Whether refusal 13 does not apply.
    #[tactic(auto, unfolding(crate::specs::Validity::valid, crate::specs::Validity::valid_converter))]
    pub fn is_valid(self) -> bool
        ensures { result ≡ valid self }
    {
        Self::is_valid_id(self.registers[ads1299_registers::ID])
            && ads1299_serial::is_valid_place(self.output)
            && ads1299_serial::is_valid_phase(self.phase, self.is_interruptible())
            && parties::are_known(&self.owners)
    }
}
