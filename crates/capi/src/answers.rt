// The flat answers. Where the Result has all that C is told, From; of a step, a move and a plan functions, since what a refused one hands
// back, the bytes that were given, is no part of its Result.
ghost use Rattle.std.specs.Prelude.{◌≡◌};
ghost use Rattle.readings.specs.Answers.{reading_answer};
ghost use Rattle.request.specs.Results.{read_answer, write_answer};
ghost use Rattle.capi.specs.Answers.{flat_reading, flat_parsed, flat_written};
ghost use Rattle.capi.specs.Results.{flat_step_answer, flat_moved_answer, flat_plan_answer, flat_part_answer, located};

use crate::{FlatMoved, FlatParsed, FlatPart, FlatPlanned, FlatReading, FlatStepped, FlatWritten};
use ads1299::{Converter, Exchange};
use ads1299_codes::{Rail, WORD_LENGTH};
use flat::FlatConverter;
use leb128::Decoded;
use planner::ConverterPlan;
use readings::Readout;
use refusal::Refusal;
use request::Request;

// What a refused read answers in the request's place: C has no Option.
const NO_REQUEST: Request = Request {
    field: 0,
    channel: 0,
    values: [0; request::VALUES],
};

// Where a channel's bytes lie in a frame. start and length are C's; a Range would be taken apart again.
#[derive(Clone, Copy)]
pub(crate) struct Located {
    pub start: usize,
    pub length: usize,
}

pub(crate) fn stepped(
    state: FlatConverter,
    stepped: Result<Exchange<Converter>, Refusal>,
) -> FlatStepped
    ensures { result ≡ flat_step_answer state stepped }
{
    match stepped {
        Ok(exchange) => FlatStepped {
            refusal: refusal::NONE,
            out: exchange.out,
            next: FlatConverter::from(exchange.next),
        },
        Err(refusal) => FlatStepped {
            refusal: u8::from(refusal),
            out: 0,
            next: state,
        },
    }
}

// A select rise, a sample and a grant.
pub(crate) fn moved(state: FlatConverter, moved: Result<Converter, Refusal>) -> FlatMoved
    ensures { result ≡ flat_moved_answer state moved }
{
    match moved {
        Ok(next) => FlatMoved {
            refusal: refusal::NONE,
            next: FlatConverter::from(next),
        },
        Err(refusal) => FlatMoved {
            refusal: u8::from(refusal),
            next: state,
        },
    }
}

pub(crate) fn planned(state: FlatConverter, planned: Result<ConverterPlan, Refusal>) -> FlatPlanned
    ensures { result ≡ flat_plan_answer state planned }
{
    match planned {
        Ok(plan) => FlatPlanned {
            refusal: refusal::NONE,
            length: plan.length,
            next: FlatConverter::from(plan.next),
        },
        Err(refusal) => FlatPlanned {
            refusal: u8::from(refusal),
            length: 0,
            next: state,
        },
    }
}

// A refused reading is 0 but for its number.
impl From<Result<Readout, Refusal>> for FlatReading {
    ghost from_gives = { λ reading f. f ≡ flat_reading (reading_answer reading) };

    #[tactic(auto, unfolding(crate::specs::Answers::flat_reading))]
    fn from(reading: Result<Readout, Refusal>) -> FlatReading {
        match reading {
            Ok(readout) => FlatReading {
                refusal: refusal::NONE,
                p: u8::from(readout.p),
                n: u8::from(readout.n),
                rail: u8::from(readout.rail),
                code: readout.code,
            },
            Err(refusal) => FlatReading {
                refusal: u8::from(refusal),
                p: 0,
                n: 0,
                rail: u8::from(Rail::Neither),
                code: 0,
            },
        }
    }
}

// Where the part that goes with a reading lies in the frame, from the channel as its converter counts it.
pub(crate) fn locate(
    reading: Result<Readout, Refusal>,
    channel: u32,
    part: &[u8],
) -> Result<Located, Refusal>
    ensures { flat_part_answer result ≡ located reading channel part.now }
{
    reading?;
    Ok(Located {
        start: WORD_LENGTH * channel as usize,
        length: part.len(),
    })
}

impl From<Result<Located, Refusal>> for FlatPart {
    ghost from_gives = { λ located f. f ≡ flat_part_answer located };

    fn from(located: Result<Located, Refusal>) -> FlatPart {
        match located {
            Ok(part) => FlatPart {
                refusal: refusal::NONE,
                start: part.start,
                length: part.length,
            },
            Err(refusal) => FlatPart {
                refusal: u8::from(refusal),
                start: 0,
                length: 0,
            },
        }
    }
}

impl From<Result<Decoded<Request>, Refusal>> for FlatParsed {
    ghost from_gives = { λ read f. f ≡ flat_parsed (read_answer read) };

    #[tactic(auto, unfolding(request::specs::Requests::padded))]
    fn from(read: Result<Decoded<Request>, Refusal>) -> FlatParsed {
        match read {
            Ok(found) => FlatParsed {
                refusal: refusal::NONE,
                request: found.value,
                used: found.used,
            },
            Err(refusal) => FlatParsed {
                refusal: u8::from(refusal),
                request: NO_REQUEST,
                used: 0,
            },
        }
    }
}

impl From<Result<usize, Refusal>> for FlatWritten {
    ghost from_gives = { λ written f. f ≡ flat_written (write_answer written) };

    fn from(written: Result<usize, Refusal>) -> FlatWritten {
        match written {
            Ok(used) => FlatWritten {
                refusal: refusal::NONE,
                used,
            },
            Err(refusal) => FlatWritten {
                refusal: u8::from(refusal),
                used: 0,
            },
        }
    }
}
