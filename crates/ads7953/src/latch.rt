// What a word does when it is latched: the settings that it programs, and the channel that it orders.
ghost use Rattle.std.specs.Prelude.{◌≡◌};
ghost use Rattle.ads7953.specs.Latch.{advanced, programmed, restarts, manual_latched, auto_ordered, auto_latched, commanded, latched};

use super::words::{self, Command};
use crate::{Ads7953, Mode};

impl Ads7953 {
    // The mode goes on to its next channel.
    #[tactic(auto, unfolding(crate::specs::Latch::advanced))]
    fn advance(mut self) -> Ads7953
        ensures { result ≡ advanced self }
    {
        self.ordered = self.next_in(self.mode);
        self
    }

    // DI10 and DI06 as a word for an auto mode programs them: kept where its DI11 is 0.
    #[tactic(auto, unfolding(crate::specs::Latch::programmed))]
    fn program(self, word: u16) -> Ads7953
        ensures { result ≡ programmed self word }
    {
        Ads7953 {
            range2: words::retain(word, words::selects_range2(word), self.range2),
            reset: words::retain(word, words::resets_counter(word), self.reset),
            ..self
        }
    }

    // Whether an auto mode starts anew: it is entered, or the counter is to be reset.
    #[tactic(auto, unfolding(crate::specs::Latch::restarts))]
    fn does_restart(self, mode: Mode) -> bool
        ensures { result ≡ restarts self mode }
    {
        self.mode != mode || self.reset
    }

    // The channel is always taken, the range only where DI11 is 1.
    #[tactic(auto, unfolding(crate::specs::Latch::manual_latched))]
    fn latch_manual(self, word: u16) -> Ads7953
        ensures { result ≡ manual_latched self word }
    {
        Ads7953 {
            mode: Mode::Manual,
            ordered: words::channel_in(word),
            range2: words::retain(word, words::selects_range2(word), self.range2),
            ..self
        }
    }

    // The channel that a word for an auto mode orders, once its settings are made.
    #[tactic(auto, unfolding(crate::specs::Latch::auto_ordered))]
    fn order_auto(self, mode: Mode) -> u8
        ensures { result ≡ auto_ordered self mode }
    {
        if self.does_restart(mode) {
            self.start_in(mode)
        } else {
            self.next_in(mode)
        }
    }

    #[tactic(auto, unfolding(crate::specs::Latch::auto_latched))]
    fn latch_auto(self, mode: Mode, word: u16) -> Ads7953
        ensures { result ≡ auto_latched self mode word }
    {
        let set = self.program(word);
        Ads7953 {
            mode,
            ordered: set.order_auto(mode),
            ..set
        }
    }

    // A match and no table of functions: the commands are the data sheet's closed list, and each arm says what one does.
    #[tactic(auto, unfolding(crate::specs::Latch::commanded))]
    fn command(mut self, command: Command, word: u16) -> Ads7953
        ensures { result ≡ commanded command self word }
    {
        match command {
            Command::Continue => self.advance(),
            Command::SelectManual => self.latch_manual(word),
            Command::SelectAuto1 => self.latch_auto(Mode::Auto1, word),
            Command::SelectAuto2 => self.latch_auto(Mode::Auto2, word),
            Command::ProgramAuto1 => {
                self.programming = true;
                self.advance()
            }
            Command::ProgramAuto2 => {
                self.last = words::last_in(word);
                self.advance()
            }
        }
    }

    // A word after the one that enters programming is the list, whatever its bits.
    #[tactic(auto, unfolding(crate::specs::Latch::latched))]
    pub(crate) fn latch(mut self, word: u16) -> Ads7953
        ensures { result ≡ latched self word }
    {
        if self.programming {
            self.list = word;
            self.programming = false;
            self.advance()
        } else {
            self.command(words::decode(word), word)
        }
    }
}
