// The byte step and the select line.
ghost use Rattle.std.specs.Prelude.{◌≡◌};
ghost use Rattle.ads1299.specs.Registers.{register_at, written};
ghost use Rattle.ads1299.specs.State.{with_output, with_phase};
ghost use Rattle.ads1299.specs.Output.{loaded, ignored};
ghost use Rattle.ads1299.specs.Step.{held, effect, commanded, counted, outgoing, followed, stepped};
ghost use Rattle.ads1299.specs.Deselect.{deselected};
ghost use Rattle.ads1299.specs.Answers.{step_answer, moved_answer};

use crate::{Converter, Exchange};
use ads1299_commands::Command;
use ads1299_serial::{Direction, Phase, Transfer};
use refusal::Refusal;

impl Converter {
    // What stands at an address: 0 above the last register.
    #[tactic(auto, unfolding(crate::specs::Registers::register_at))]
    fn register(registers: [u8; ads1299_registers::COUNT], address: u8) -> u8
        ensures { result ≡ register_at registers address }
    {
        registers.get(address as usize).copied().unwrap_or(0)
    }

    // The registers after a write through the mask: dropped above the last register.
    #[tactic(auto, unfolding(crate::specs::Registers::written, ads1299_registers::specs::Table::masks))]
    fn write(
        mut registers: [u8; ads1299_registers::COUNT],
        address: u8,
        byte: u8,
    ) -> [u8; ads1299_registers::COUNT]
        ensures { result ≡ written registers address byte }
    {
        let to = address as usize;
        if to < ads1299_registers::COUNT {
            registers[to] = bits::write_masked(registers[to], Self::MASK[to], byte);
        }
        registers
    }

    fn with_output(self, output: Option<u8>) -> Converter
        ensures { result ≡ with_output self output }
    {
        Converter { output, ..self }
    }

    fn with_phase(self, phase: Phase) -> Converter
        ensures { result ≡ with_phase self phase }
    {
        Converter { phase, ..self }
    }

    // An ignored byte lets the output run on.
    #[tactic(auto, unfolding(crate::specs::Output::ignored))]
    fn ignore(self) -> Converter
        ensures { result ≡ ignored self }
    {
        let again = bits::is_set(self.registers[ads1299_registers::CONFIG1], 6);
        self.with_output(ads1299_serial::advance(self.output, again))
    }

    // The first byte of a register read or write: the command is held, and nothing is transferred yet.
    fn hold(self, direction: Direction, address: u8) -> Converter
        ensures { result ≡ held self direction address }
    {
        self.with_phase(Phase::Held(Transfer {
            direction,
            address,
            remaining: 0,
        }))
    }

    #[tactic(auto, unfolding(crate::specs::Step::effect))]
    fn reset(self) -> Converter
        ensures { result ≡ effect Command.Reset self }
    {
        Self::restore(self.registers[ads1299_registers::ID], self.owners)
    }

    // The latest frame goes out, from its first byte.
    #[tactic(auto, unfolding(crate::specs::Output::loaded))]
    pub(crate) fn load(self) -> Converter
        ensures { result ≡ loaded self }
    {
        let shifting = self.latest;
        Converter {
            shifting,
            output: Some(0),
            ..self
        }
    }

    // What a command that acts does, once the output is empty.
    // A match and no table of functions: the commands are the data sheet's closed list, and each arm says what one does.
    #[tactic(auto, unfolding(crate::specs::Step::effect))]
    fn perform(self, command: Command) -> Converter
        ensures { result ≡ effect command self }
    {
        match command {
            Command::Wakeup => Converter {
                standby: false,
                ..self
            },
            Command::Standby => Converter {
                standby: true,
                ..self
            },
            Command::Reset => self.reset(),
            Command::Start => Converter {
                converting: true,
                ..self
            },
            Command::Stop => Converter {
                converting: false,
                ..self
            },
            Command::Rdatac => Converter {
                continuous: true,
                ..self
            },
            Command::Sdatac => Converter {
                continuous: false,
                ..self
            },
            Command::Rdata => self.load(),
            Command::Rreg(address) => self.hold(Direction::Read, address),
            Command::Wreg(address) => self.hold(Direction::Write, address),
            Command::Unlisted => self,
        }
    }

    #[tactic(auto, unfolding(crate::specs::Step::commanded, crate::specs::Output::emptied))]
    fn command(self, command: Command) -> Converter
        ensures { result ≡ commanded self command }
    {
        if ads1299_commands::does_act(command, self.standby, self.continuous, self.converting) {
            self.with_output(None).perform(command)
        } else {
            self.ignore()
        }
    }

    #[tactic(auto, unfolding(crate::specs::Step::counted))]
    fn count(self, transfer: Transfer, byte: u8) -> Converter
        ensures { result ≡ counted self transfer byte }
    {
        let registers = match transfer.direction {
            Direction::Read => self.registers,
            Direction::Write => Self::write(self.registers, transfer.address, byte),
        };
        Converter {
            registers,
            phase: ads1299_serial::remain(transfer),
            ..self
        }
    }

    // The byte that goes out.
    #[tactic(auto, unfolding(crate::specs::Step::outgoing))]
    fn outgoing_byte(self) -> u8
        ensures { result ≡ outgoing self }
    {
        match self.phase {
            Phase::Counting(
                Transfer {
                    direction: Direction::Read,
                    address,
                    ..
                },
            ) => Self::register(self.registers, address),
            _ => ads1299_serial::pending_byte(self.output, self.shifting),
        }
    }

    #[tactic(auto, unfolding(crate::specs::Step::followed))]
    fn follow(self, byte: u8) -> Converter
        ensures { result ≡ followed self byte }
    {
        match self.phase {
            Phase::Waiting => self.command(ads1299_commands::decode(byte)),
            Phase::Held(transfer) => self.with_phase(ads1299_serial::begin(transfer, byte)),
            Phase::Counting(transfer) => self.count(transfer, byte),
        }
    }

    // Takes a byte in and gives one out.
    #[tactic(auto, unfolding(crate::specs::Step::stepped))]
    pub fn step(self, byte: u8) -> Result<Exchange<Converter>, Refusal>
        ensures { step_answer self result ≡ stepped self byte }
    {
        if !self.is_valid() {
            return Err(Refusal::InvalidState);
        }
        Ok(Exchange {
            out: self.outgoing_byte(),
            next: self.follow(byte),
        })
    }

    // The select line rises: a command half given ends, and the output is empty.
    #[tactic(auto, unfolding(crate::specs::Deselect::deselected, crate::specs::Output::emptied))]
    pub fn deselect(self) -> Result<Converter, Refusal>
        ensures { moved_answer self result ≡ deselected self }
    {
        if !self.is_valid() {
            return Err(Refusal::InvalidState);
        }
        Ok(self.with_output(None).with_phase(Phase::Waiting))
    }
}
