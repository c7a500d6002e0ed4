// The flat form of a bench, for other languages: four converters' flat forms, and back.
#![tactic(auto)]

ghost use Rattle.std.specs.Prelude.{◌≡◌};
ghost use Rattle.flat_bench.specs.Flat.{is_bench, bench_of, flat_bench, bench_in};

use ads1299::Converter;
use bench::Bench;
use flat::FlatConverter;
use lines::CONVERTERS;
use refusal::Refusal;

#[repr(C)]
#[derive(Clone, Copy)]
pub struct FlatBench {
    pub converters: [FlatConverter; CONVERTERS],
}

// Whether every converter's flat form stands for a state. Beside TryFrom: docs/RULES.md names it.
#[tactic(auto, using(crate::proofs::RoundTrip::by_number), unfolding(crate::specs::Flat::is_bench))]
pub fn is_bench(f: FlatBench) -> bool
    ensures { result ≡ is_bench f }
{
    f.converters.iter().all(|state| flat::is_state(*state))
}

// The bench that a flat form stands for; of no use where is_bench says no. It stays beside TryFrom, as what could not fail still cannot.
#[tactic(auto, using(crate::proofs::RoundTrip::four_are), unfolding(crate::specs::Flat::bench_of))]
pub fn bench_of(f: FlatBench) -> Bench
    ensures { result ≡ bench_of f }
{
    // By a pattern, here and in From below: [T; N]::map takes the array through an iterator, and a call on a bench took 1.5 to
    // 1.7 times the time with it.
    let [first, second, third, fourth] = f.converters;
    Bench {
        converters: [
            flat::state_of(first),
            flat::state_of(second),
            flat::state_of(third),
            flat::state_of(fourth),
        ],
    }
}

// The bench that a flat form stands for, or refusal 13.
impl TryFrom<FlatBench> for Bench {
    type Error = Refusal;

    ghost try_from_gives = { λ f r. r ≡ bench_in f };

    #[tactic(auto, unfolding(crate::specs::Flat::bench_in))]
    fn try_from(f: FlatBench) -> Result<Bench, Refusal> {
        if is_bench(f) {
            Ok(bench_of(f))
        } else {
            Err(Refusal::InvalidState)
        }
    }
}

impl From<Bench> for FlatBench {
    ghost from_gives = { λ bench f. f ≡ flat_bench bench };

    #[tactic(auto, using(crate::proofs::RoundTrip::four_are), unfolding(crate::specs::Flat::flat_bench))]
    fn from(bench: Bench) -> FlatBench {
        let [first, second, third, fourth] = bench.converters;
        FlatBench {
            converters: [
                FlatConverter::from(first),
                FlatConverter::from(second),
                FlatConverter::from(third),
                FlatConverter::from(fourth),
            ],
        }
    }
}
