// Samples: what the converter makes of eight codes and the two comparator bytes.
ghost use Rattle.std.specs.Prelude.{◌≡◌};
ghost use Rattle.refusal.specs.Refusals.{answer_number};
ghost use Rattle.ads1299.specs.Answers.{moved_answer};
ghost use Rattle.ads1299.specs.Sample.{running, complete, sample_refusal, with_status, taken, sampled};

use crate::Converter;
use refusal::Refusal;

impl Converter {
    // Whether the converter takes samples.
    fn is_running(self) -> bool
        ensures { result ≡ running self }
    {
        self.converting && !self.standby
    }

    #[tactic(auto, unfolding(crate::specs::Sample::complete))]
    fn is_complete(codes: &[i32]) -> bool
        ensures { result ≡ complete codes.now }
    {
        codes.len() == ads1299_registers::CHANNELS && ads1299_codes::all_in_range(codes)
    }

    // The tests in the order of document 01.
    fn judge_sample(self, codes: &[i32]) -> Result<(), Refusal>
        ensures { answer_number result ≡ sample_refusal self codes.now }
    {
        refusal::first_of(&[
            refusal::when(!self.is_valid(), Refusal::InvalidState),
            refusal::when(!self.is_running(), Refusal::NotConverting),
            refusal::when(!Self::is_complete(codes), Refusal::BadSample),
        ])
    }

    #[tactic(auto, unfolding(crate::specs::Sample::with_status))]
    fn with_status(
        mut registers: [u8; ads1299_registers::COUNT],
        p: u8,
        n: u8,
    ) -> [u8; ads1299_registers::COUNT]
        ensures { result ≡ with_status registers p n }
    {
        registers[ads1299_registers::LOFF_STATP] = p;
        registers[ads1299_registers::LOFF_STATN] = n;
        registers
    }

    fn take(self, codes: &[i32], p: u8, n: u8) -> Converter
        ensures { result ≡ taken self codes.now p n }
    {
        let registers = Self::with_status(self.registers, p, n);
        let next = Converter {
            registers,
            latest: ads1299_frame::build(registers, codes, p, n),
            ..self
        };
        if next.continuous { next.load() } else { next }
    }

    // Takes a sample: the codes of channels 1 to 8, and the comparator bytes P and N. Codes, P and N go one by one, as C passes them
    // and as sampled and frame_of take them.
    #[tactic(auto, using(refusal::proofs::Laws::refused_lem), unfolding(crate::specs::Sample::sampled))]
    pub fn sample(self, codes: &[i32], p: u8, n: u8) -> Result<Converter, Refusal>
        ensures { moved_answer self result ≡ sampled self codes.now p n }
    {
        self.judge_sample(codes)?;
        Ok(self.take(codes, p, n))
    }
}
