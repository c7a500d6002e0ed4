// What comes on the lines of one of the converters: a byte, a select rise and a sample.
ghost use Rattle.std.specs.Prelude.{◌≡◌, ◌<◌, IfOk};
ghost use Rattle.refusal.specs.Refusals.{answer_number};
ghost use Rattle.lines.specs.Lines.{converter_count};
ghost use Rattle.bench.specs.Answers.{bench_step_answer, bench_moved_answer};
ghost use Rattle.bench.specs.Line.{line_refusal, bench_stepped, bench_deselected, bench_sampled};

use crate::Bench;
use ads1299::Exchange;
use refusal::Refusal;

impl Bench {
    // The place of the converter of a number. Every converter's state before the number.
    #[tactic(auto, unfolding(crate::specs::Line::line_refusal))]
    fn line(self, number: u32) -> Result<usize, Refusal>
        ensures refusal { answer_number result ≡ line_refusal self number }
        ensures place { IfOk result (λ k. (k ≡ number) × (k < converter_count)) }
    {
        if !self.is_valid() {
            return Err(Refusal::InvalidState);
        }
        if !lines::is_converter(number) {
            return Err(Refusal::WrongChannel);
        }
        Ok(number as usize)
    }

    // Takes a byte in for one converter and gives one out.
    #[tactic(auto, unfolding(crate::specs::Line::bench_stepped))]
    pub fn step(mut self, number: u32, byte: u8) -> Result<Exchange<Bench>, Refusal>
        ensures { bench_step_answer self result ≡ bench_stepped self number byte }
    {
        let k = self.line(number)?;
        let Exchange { out, next } = self.converters[k].step(byte)?;
        self.converters[k] = next;
        Ok(Exchange { out, next: self })
    }

    // The select line of one converter rises.
    #[tactic(auto, unfolding(crate::specs::Line::bench_deselected))]
    pub fn deselect(mut self, number: u32) -> Result<Bench, Refusal>
        ensures { bench_moved_answer self result ≡ bench_deselected self number }
    {
        let k = self.line(number)?;
        self.converters[k] = self.converters[k].deselect()?;
        Ok(self)
    }

    // One converter takes a sample. Its parameters go one by one, as Converter::sample takes them.
    #[tactic(auto, using(crate::proofs::Converters::with_same), unfolding(crate::specs::Line::bench_sampled))]
    pub fn sample(mut self, number: u32, codes: &[i32], p: u8, n: u8) -> Result<Bench, Refusal>
        ensures { bench_moved_answer self result ≡ bench_sampled self number codes.now p n }
    {
        let k = self.line(number)?;
        self.converters[k] = self.converters[k].sample(codes, p, n)?;
        Ok(self)
    }
}
