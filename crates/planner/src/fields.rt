// What a request sets: one field, or a channel's nine.
ghost use Rattle.std.specs.Prelude.{◌≡◌, ◌<◌};
ghost use Rattle.request.specs.Requests.{most_values};
ghost use Rattle.planner.specs.Settings.{setting_at, settings, all_legal};
ghost use Rattle.planner.specs.Plan.{registers_after};

use ads1299_fields::WHOLE_CHANNEL;
use ads1299_registers::COUNT;
use request::Request;

// The field that value i of a request is for.
fn field_at(request: Request, i: usize) -> u32
    requires { i < most_values }
    ensures { result ≡ (setting_at request i).field }
{
    if request.field == WHOLE_CHANNEL {
        i as u32 + 1
    } else {
        request.field
    }
}

// Whether every value is legal for its field. All are judged before a byte is written.
pub(crate) fn are_legal(request: Request) -> bool
    ensures { result ≡ all_legal (settings request) }
{
    let count = request::count_values(request.field);
    request.values[..count].iter().enumerate().all(|(i, &value)| ads1299_fields::is_legal(
        field_at(request, i),
        value,
    ))
}

// The registers with every setting of the request made.
#[tactic(auto, using(crate::proofs::Settings::settings_start, crate::proofs::Settings::settings_step, crate::proofs::Settings::settings_end), unfolding(crate::specs::Plan::registers_after, ads1299_settings::specs::Settings::with_settings))]
pub(crate) fn set_all(registers: [u8; COUNT], request: Request) -> [u8; COUNT]
    ensures { result ≡ registers_after registers request }
{
    let count = request::count_values(request.field);
    let mut after = registers;
    for (i, &value) in request.values[..count].iter().enumerate() {
        // By way of a local: the check's borrow pass does not cover a call's result laid straight in a local array.
        let set = ads1299_settings::write(after, field_at(request, i), request.channel, value);
        after = set;
    }
    after
}
