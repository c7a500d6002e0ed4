// Power-up, and a frame: a word in, a reply out.
ghost use Rattle.std.specs.Prelude.{◌≡◌, ◌<◌};
ghost use Rattle.ads7953.specs.Scan.{channel_count};
ghost use Rattle.refusal.specs.Refusals.{answer_number};
ghost use Rattle.ads7953.specs.Frame.{powered_up, valid, code_count, frame_refusal, reply, followed, framed};
ghost use Rattle.ads7953.specs.Answers.{frame_answer};

use crate::{Ads7953, CHANNELS, Exchange, Mode};
use refusal::Refusal;

// The codes have 12 bits.
const CODES: u16 = 4096;

impl Ads7953 {
    // The program registers' reset state scans all channels.
    pub const LIST: u16 = 0xFFFF;

    pub const LAST: u8 = 15;

    #[tactic(auto, unfolding(crate::specs::Frame::powered_up))]
    pub fn power_up() -> Ads7953
        ensures { result ≡ powered_up }
    {
        Ads7953 {
            mode: Mode::Manual,
            channel: 0,
            ordered: 0,
            list: Self::LIST,
            last: Self::LAST,
            range2: false,
            reset: false,
            programming: false,
            first: true,
        }
    }

    // Refusal 13: whether every channel of the state is one of the part's.
    #[tactic(auto, unfolding(crate::specs::Frame::valid))]
    pub fn is_valid(self) -> bool
        ensures { result ≡ valid self }
    {
        self.channel < CHANNELS && self.ordered < CHANNELS && self.last < CHANNELS
    }

    #[tactic(auto, unfolding(crate::specs::Frame::frame_refusal))]
    fn judge_frame(self, code: u16) -> Result<(), Refusal>
        ensures { answer_number result ≡ frame_refusal self code }
    {
        refusal::first_of(&[
            refusal::when(!self.is_valid(), Refusal::InvalidState),
            refusal::when(CODES <= code, Refusal::BadSample),
        ])
    }

    // The multiplexer's channel on top, the code below; the first reply since power-up says nothing yet.
    #[tactic(auto, unfolding(crate::specs::Frame::reply))]
    fn make_reply(self, code: u16) -> u16
        requires { (self.channel < channel_count) × (code < code_count) }
        ensures { result ≡ reply self code }
    {
        if self.first {
            0
        } else {
            u16::from(self.channel) * CODES + code
        }
    }

    // The multiplexer takes what the word of the frame before ordered, then this word is latched.
    #[tactic(auto, unfolding(crate::specs::Frame::followed, crate::specs::Frame::selected))]
    fn follow(mut self, word: u16) -> Ads7953
        ensures { result ≡ followed self word }
    {
        self.channel = self.ordered;
        self.first = false;
        self.latch(word)
    }

    // A frame: takes a word, and the code of the channel that is sampled at the frame's start; gives a reply. They
    // go one by one, as C passes them and framed takes them.
    #[tactic(auto, using(crate::proofs::Valid::reply_fits), unfolding(crate::specs::Frame::framed))]
    pub fn frame(self, word: u16, code: u16) -> Result<Exchange, Refusal>
        ensures { frame_answer self result ≡ framed self word code }
    {
        self.judge_frame(code)?;
        Ok(Exchange {
            reply: self.make_reply(code),
            next: self.follow(word),
        })
    }
}
