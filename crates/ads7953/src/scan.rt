// Which channel comes next in each mode, and with which a mode starts.
ghost use Rattle.std.specs.Prelude.{◌≡◌};
ghost use Rattle.ads7953.specs.Scan.{found_from, lowest_listed, next_listed, next_up_to, next_in, start_in};

use crate::{Ads7953, CHANNELS, Mode};

impl Ads7953 {
    // The lowest listed channel from one on.
    fn listed_from(self, from: u8) -> Option<u8>
        ensures { result ≡ found_from self.list from }
    {
        (from..CHANNELS).find(|channel| crate::is_set(self.list, *channel))
    }

    // The lowest listed channel; the present one where the list is empty.
    #[tactic(auto, unfolding(crate::specs::Scan::lowest_listed, crate::specs::Scan::found_from))]
    fn lowest_listed(self) -> u8
        ensures { result ≡ lowest_listed self.list self.ordered }
    {
        self.listed_from(0).unwrap_or(self.ordered)
    }

    // The next listed channel above the present one, or else the lowest.
    #[tactic(auto, using(crate::proofs::Listed::found_above), unfolding(crate::specs::Scan::next_listed, crate::specs::Scan::found_from))]
    fn next_listed(self) -> u8
        ensures { result ≡ next_listed self.list self.ordered }
    {
        self.listed_from(self.ordered.saturating_add(1))
            .unwrap_or_else(|| self.lowest_listed())
    }

    // The channel after the present one, up to the last, then 0.
    #[tactic(auto, unfolding(crate::specs::Scan::next_up_to))]
    fn next_up_to_last(self) -> u8
        ensures { result ≡ next_up_to self.last self.ordered }
    {
        if self.ordered < self.last {
            self.ordered + 1
        } else {
            0
        }
    }

    // The channel after the present one in a mode.
    pub(crate) fn next_in(self, mode: Mode) -> u8
        ensures { result ≡ next_in mode self.list self.last self.ordered }
    {
        match mode {
            Mode::Manual => self.ordered,
            Mode::Auto1 => self.next_listed(),
            Mode::Auto2 => self.next_up_to_last(),
        }
    }

    // The channel that a mode starts with.
    pub(crate) fn start_in(self, mode: Mode) -> u8
        ensures { result ≡ start_in mode self.list self.ordered }
    {
        match mode {
            Mode::Manual => self.ordered,
            Mode::Auto1 => self.lowest_listed(),
            Mode::Auto2 => 0,
        }
    }
}
