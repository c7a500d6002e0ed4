// Setting requests: read, written and planned.
ghost use Rattle.std.specs.Prelude.{◌≡◌};
ghost use Rattle.request.specs.Reading.{parsed};
ghost use Rattle.request.specs.Writing.{written, buffer_after};
ghost use Rattle.planner.specs.Submission.{submission};
ghost use Rattle.planner.specs.Planned.{planned};
ghost use Rattle.planner.specs.Buffer.{tx_after};
ghost use Rattle.flat.specs.States.{state_of};
ghost use Rattle.capi.specs.Answers.{flat_parsed, flat_written, planned_from, buffer_from};
ghost use Rattle.capi.specs.Results.{flat_plan_answer};

use super::answers;
use crate::{FlatParsed, FlatPlanned, FlatWritten};
use ads1299::Converter;
use flat::FlatConverter;
use planner::ConverterPlan;
use refusal::Refusal;
use request::Request;

#[unsafe(no_mangle)]
pub extern "C" fn rimevelvet_request_read(bytes: &[u8]) -> FlatParsed
    ensures { result ≡ flat_parsed (parsed bytes.now) }
{
    FlatParsed::from(request::read(bytes))
}

#[unsafe(no_mangle)]
pub extern "C" fn rimevelvet_request_write(request: Request, buffer: &mut [u8]) -> FlatWritten
    ensures { (result ≡ flat_written (written request buffer.old))
        × (buffer.new ≡ buffer_after request buffer.old) }
{
    FlatWritten::from(request::write(request, buffer))
}

// Beside a bench's: state, planner and answer are of other types, and the clauses name each one's definitions. The parameters go one by
// one, as C passes them.
fn plan(
    state: FlatConverter,
    party: u32,
    request: Request,
    tx: &mut [u8],
    at: usize,
) -> Result<ConverterPlan, Refusal>
    ensures { (flat_plan_answer state result ≡ planned_from state (planned (state_of state) (submission party request tx.old at)))
        × (tx.new ≡ buffer_from state (tx_after (state_of state) (submission party request tx.old at) tx.old at) tx.old) }
{
    let before = Converter::try_from(state)?;
    planner::plan(before, party, request, tx, at)
}

#[unsafe(no_mangle)]
pub extern "C" fn rimevelvet_plan(
    state: FlatConverter,
    party: u32,
    request: Request,
    tx: &mut [u8],
    at: usize,
) -> FlatPlanned
    ensures { (result ≡ planned_from state (planned (state_of state) (submission party request tx.old at)))
        × (tx.new ≡ buffer_from state (tx_after (state_of state) (submission party request tx.old at) tx.old at) tx.old) }
{
    let planned = plan(state, party, request, tx, at);
    answers::planned(state, planned)
}
