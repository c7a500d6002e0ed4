// From a setting request to the bytes that the converter is sent.
#![tactic(auto)]

mod fields;
mod lengths;

ghost use Rattle.std.specs.Prelude.{true, ◌≡◌, ◌+◌, ◌<◌, ◌≤◌, eqb, length};
ghost use Rattle.splice.specs.Splice.{spliced};
ghost use Rattle.refusal.specs.Refusals.{answer_number};
ghost use Rattle.ads1299_registers.specs.Addresses.{register_count};
ghost use Rattle.ads1299_fields.specs.Names.{takes_channel};
ghost use Rattle.ads1299.specs.Formed.{Formed};
ghost use Rattle.planner.specs.Submission.{submission};
ghost use Rattle.planner.specs.Runs.{run, channel_bits, runs, writing, writing_all, runs_length};
ghost use Rattle.planner.specs.Plan.{only, plan_writing, plan_length};
ghost use Rattle.planner.specs.Refusals.{field_owner};
ghost use Rattle.planner.specs.Planned.{refusal_of, changed, planned};
ghost use Rattle.planner.specs.Buffer.{tx_after};
ghost use Rattle.planner.specs.Answers.{plan_answer};
ghost use Rattle.planner.specs.Wrote.{Wrote};

use ads1299::Converter;
use ads1299_commands::{RDATAC, SDATAC, STANDBY, WAKEUP, WREG};
use ads1299_fields::WHOLE_CHANNEL;
use ads1299_registers::{BIAS_SENSP, CH1SET, COUNT, LOFF_FLIP};
use fields::{are_legal, set_all};
use lengths::plan_length;
use refusal::Refusal;
use request::Request;

// The most bytes of a plan.
pub const LONGEST: usize = 14;

// The plan's length and the state after the plan, whose bytes are not to be fed to that state again.
#[derive(Clone, Copy)]
pub struct ConverterPlan {
    pub length: usize,
    pub next: Converter,
}

// The owner of a channel field is the channel's, that of a shared field the administrator. Field and channel go one by one, as field_owner
// takes them.
#[tactic(auto, unfolding(parties::specs::Parties::is_admin, parties::specs::Owners::owns))]
fn is_field_owner(
    owners: [u8; ads1299_registers::CHANNELS],
    party: u32,
    field: u32,
    channel: u32,
) -> bool
    ensures { result ≡ eqb party (field_owner owners field channel) }
{
    if ads1299_fields::is_channel_field(field) {
        parties::is_owner(&owners, party, channel)
    } else {
        parties::is_admin(party)
    }
}

// The tests in the order of document 01: the owner before the value, so that a stranger does not learn what is legal.
fn judge(c: Converter, party: u32, request: Request, room: usize) -> Result<(), Refusal>
    ensures judged { answer_number result ≡ refusal_of c (record { party = party; request = request; room = room }) }
    ensures formed { Formed c }
{
    let Request { field, channel, .. } = request;
    refusal::first_of(&[
        refusal::when(!c.is_valid(), Refusal::InvalidState),
        refusal::when(!parties::is_known(party), Refusal::UnknownParty),
        refusal::when(
            !ads1299_fields::is_known_field(field),
            Refusal::UnknownField,
        ),
        refusal::when(
            !ads1299_fields::takes_channel(field, channel),
            Refusal::WrongChannel,
        ),
        refusal::when(
            !is_field_owner(c.owners, party, field, channel),
            Refusal::NotOwner,
        ),
        refusal::when(!are_legal(request), Refusal::BadValue),
        refusal::when(!ads1299_serial::is_waiting(c.phase), Refusal::NotWaiting),
        refusal::when(room < plan_length(c, request), Refusal::NoRoom),
    ])
}

// A buffer that bytes are put in one after the other, and the place of the next. No Vec or ArrayVec: the buffer is the caller's, and all
// else in it stays. console has one like it, and the reason for two.
#[derive(Drop)]
struct Writer<'a> {
    buffer: &'a mut [u8],
    place: usize,
}

impl Writer<'_> {
    fn put(&mut self, bytes: &[u8])
        requires { self.old.place + length bytes.now ≤ length self.old.buffer.now }
        ensures { Wrote self.old self.new bytes.now }
    {
        let end = self.place + bytes.len();
        self.buffer[self.place..end].copy_from_slice(bytes);
        self.place = end;
    }

    // Puts a byte where it is wanted. No Option: flag and byte are a mode and its command, and the definition only takes them so.
    fn put_only(&mut self, wanted: bool, byte: u8)
        requires { self.old.place + length (only wanted byte) ≤ length self.old.buffer.now }
        ensures { Wrote self.old self.new (only wanted byte) }
    {
        if wanted {
            self.put(&[byte]);
        }
    }

    // Puts the bytes that write a run of registers.
    fn put_run(&mut self, registers: [u8; COUNT], first: u8, further: u8)
        requires { (first + further < register_count) × (self.old.place + (3 + further) ≤ length self.old.buffer.now) }
        ensures { Wrote self.old self.new (writing registers (run first further)) }
    {
        self.put(&[WREG + first, further]);
        let start = first as usize;
        self.put(&registers[start..start + further as usize + 1]);
    }

    // Puts the bytes that write 0D to 11, the registers with a bit for each channel, in one run.
    fn put_channel_bits(&mut self, registers: [u8; COUNT])
        requires { self.old.place + (3 + channel_bits.further) ≤ length self.old.buffer.now }
        ensures { Wrote self.old self.new (writing registers channel_bits) }
    {
        let further = (LOFF_FLIP - BIAS_SENSP) as u8;
        self.put_run(registers, BIAS_SENSP as u8, further);
    }

    // Puts the bytes that write the request's runs.
    fn put_runs(&mut self, registers: [u8; COUNT], request: Request)
        requires { (takes_channel request.field request.channel ≡ true)
            × (self.old.place + runs_length (runs request) ≤ length self.old.buffer.now) }
        ensures { Wrote self.old self.new (writing_all registers (runs request)) }
    {
        if request.field == WHOLE_CHANNEL {
            let set = (CH1SET + request.channel as usize - 1) as u8;
            self.put_run(registers, set, 0);
            self.put_channel_bits(registers);
        } else {
            let place = ads1299_fields::locate(request.field, request.channel);
            self.put_run(registers, place.register, 0);
        }
    }
}

// The plan writer: the plan goes over the start of the part that it is lent. It is given the state after the plan, whose registers the runs
// carry and whose modes are those before.
fn write_plan(part: &mut [u8], c: Converter, request: Request)
    requires { (takes_channel request.field request.channel ≡ true) × (plan_length c request ≤ length part.old) }
    ensures { part.new ≡ spliced part.old 0 (plan_writing c request c.registers) }
{
    let mut out = Writer {
        buffer: part,
        place: 0,
    };
    out.put_only(c.standby, WAKEUP);
    out.put_only(c.continuous, SDATAC);
    out.put_runs(c.registers, request);
    out.put_only(c.continuous, RDATAC);
    out.put_only(c.standby, STANDBY);
}

// The state after the plan, without a byte sent: the settings made, and what was pending lost.
#[tactic(auto, unfolding(crate::specs::Planned::changed))]
fn change(c: Converter, request: Request) -> Converter
    ensures { result ≡ changed c request }
{
    Converter {
        registers: set_all(c.registers, request),
        output: None,
        ..c
    }
}

// Plans a request: the plan goes into the transmit buffer (document 01: sheet) from a place on, and all else there stays.
// Party, request, buffer and place go one by one, as C passes them; the clauses put party, request and room together as submission. The
// clause formed is no invariant of Converter: its array types give it already, and theorems need it said, since in the logic the arrays
// are lists of any length.
#[tactic(auto, using(crate::proofs::Buffer::start_within))]
pub fn plan(
    c: Converter,
    party: u32,
    request: Request,
    tx: &mut [u8],
    at: usize,
) -> Result<ConverterPlan, Refusal>
    ensures planned { (plan_answer c result ≡ planned c (submission party request tx.old at))
        × (tx.new ≡ tx_after c (submission party request tx.old at) tx.old at) }
    ensures formed { Formed c }
{
    judge(c, party, request, splice::count_room(tx, at))?;
    let length = plan_length(c, request);
    let next = change(c, request);
    write_plan(&mut tx[at..], next, request);
    Ok(ConverterPlan { length, next })
}
