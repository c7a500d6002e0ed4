// Power-up of a bench, from four IDs.
ghost use Rattle.std.specs.Prelude.{◌≡◌};
ghost use Rattle.ads1299.specs.PowerUp.{valid_id};
ghost use Rattle.bench.specs.Answers.{bench_power_up_answer};
ghost use Rattle.bench.specs.PowerUp.{valid_ids, started, bench_powered_up};

use crate::Bench;
use ads1299::{Converter, Startup};
use lines::CONVERTERS;
use refusal::Refusal;

impl Bench {
    #[tactic(auto, unfolding(ads1299::specs::PowerUp::powered_up))]
    fn is_valid_id(id: u8) -> bool
        ensures { result ≡ valid_id id }
    {
        Converter::power_up(id).refusal.is_none()
    }

    #[tactic(auto, using(crate::proofs::Four::all_is_every), unfolding(crate::specs::PowerUp::valid_ids))]
    fn are_valid_ids(ids: [u8; CONVERTERS]) -> bool
        ensures { result ≡ valid_ids ids }
    {
        ids.iter().all(|id| Self::is_valid_id(*id))
    }

    // Each converter as its own power-up gives it.
    #[tactic(auto, unfolding(crate::specs::PowerUp::started))]
    fn start(ids: [u8; CONVERTERS]) -> Bench
        ensures { result ≡ started ids }
    {
        Bench {
            converters: ids.map(|id| Converter::power_up(id).state),
        }
    }

    // With a bad ID among them none is kept.
    #[tactic(auto, unfolding(crate::specs::PowerUp::bench_powered_up))]
    pub fn power_up(ids: [u8; CONVERTERS]) -> Startup<Bench>
        ensures { bench_power_up_answer result ≡ bench_powered_up ids }
    {
        if Self::are_valid_ids(ids) {
            Startup {
                refusal: None,
                state: Self::start(ids),
            }
        } else {
            Startup {
                refusal: Some(Refusal::InvalidState),
                state: Self::start([0; CONVERTERS]),
            }
        }
    }
}
