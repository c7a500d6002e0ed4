// How many bytes a plan needs.
ghost use Rattle.std.specs.Prelude.{◌≡◌, ◌+◌, length};
ghost use Rattle.planner.specs.Runs.{runs, runs_length};
ghost use Rattle.planner.specs.Plan.{entering, leaving, plan_length};

use ads1299::Converter;
use ads1299_fields::WHOLE_CHANNEL;
use request::Request;

// The bytes that write one register: command, count and data.
const FIELD_BYTES: usize = 3;

// The bytes that write a whole channel's: one register, and a run of five.
const CHANNEL_BYTES: usize = FIELD_BYTES + 2 + 5;

// How many bytes leave the modes that the converter is in and go back to them. The flags go one by one, as entering and leaving take them.
fn count_modes(standby: bool, continuous: bool) -> usize
    ensures { result ≡ length (entering standby continuous) + length (leaving standby continuous) }
{
    2 * (standby as usize + continuous as usize)
}

// How many bytes write the request's registers.
#[tactic(auto, unfolding(crate::specs::Runs::runs_length))]
fn count_written(request: Request) -> usize
    ensures { result ≡ runs_length (runs request) }
{
    if request.field == WHOLE_CHANNEL {
        CHANNEL_BYTES
    } else {
        FIELD_BYTES
    }
}

// A plan's length depends on the modes and the field alone.
#[tactic(auto, using(crate::proofs::Length::few_modes, crate::proofs::Length::few_runs))]
pub(crate) fn plan_length(c: Converter, request: Request) -> usize
    ensures { result ≡ plan_length c request }
{
    count_modes(c.standby, c.continuous) + count_written(request)
}
