// The program as one function on slices: what it prints for an input (document 01, "The program, and figures to check").
#![tactic(auto)]

ghost use Rattle.std.specs.Prelude.{◌≡◌, ◌+◌, ◌<◌, ◌≤◌, [], length};
ghost use Rattle.splice.specs.Splice.{spliced};
ghost use Rattle.refusal.specs.Refusals.{number_of};
ghost use Rattle.planner.specs.Planned.{planned};
ghost use Rattle.console.specs.Text.{hex_digit, decimal, hex, hexes};
ghost use Rattle.console.specs.Line.{line};
ghost use Rattle.console.specs.Turn.{fresh, asked, answered, printed, turn};
ghost use Rattle.console.specs.Transcript.{session, transcript_of};
ghost use Rattle.console.specs.Wrote.{Wrote};

use ads1299::Converter;
use leb128::Decoded;
use refusal::Refusal;
use request::Request;

// More input than this is refused whole.
pub const INPUT_LIMIT: usize = 4096;

const ID: u8 = 0x3E;

// The party that every channel belongs to.
const OWNER: u8 = 1;

// The refusal's digit, a blank and two digits for each byte of the longest plan, and a newline.
const LONGEST_LINE: usize = 3 * planner::LONGEST + 2;

// The shortest request has a byte for each of the fewest numbers, and one byte of the input is the party.
pub const LONGEST_TRANSCRIPT: usize = (INPUT_LIMIT - 1) / request::FEWEST_NUMBERS * LONGEST_LINE;

// What one request leaves: how many bytes are done with, and the state.
#[derive(Clone, Copy)]
struct Turn {
    used: usize,
    next: Converter,
}

// hex_digit, put_decimal, put_hex and put_hexes are by hand: hex::encode_upper and format! allocate and there is no heap here,
// hex::encode_to_slice writes lower case, and what write! puts in an ArrayString would be copied once more.
fn hex_digit(n: u8) -> u8
    requires { n < 16 }
    ensures { result ≡ hex_digit n }
{
    if n < 10 { b'0' + n } else { b'A' - 10 + n }
}

// A buffer that text is put in, and the place of the next byte. No Vec or ArrayVec: the buffer is lent, and bytes after the text stay.
// planner has one like it: shared it would be public and ask its callers for room, and no public function asks anything of its caller
// (README, "What is proved").
#[derive(Drop)]
struct Writer<'a> {
    buffer: &'a mut [u8],
    place: usize,
}

impl Writer<'_> {
    fn put(&mut self, text: &[u8])
        requires { self.old.place + length text.now ≤ length self.old.buffer.now }
        ensures { Wrote self.old self.new text.now }
    {
        let end = self.place + text.len();
        self.buffer[self.place..end].copy_from_slice(text);
        self.place = end;
    }

    // Puts a number in decimal; two digits are enough for a refusal.
    #[tactic(auto, using(crate::proofs::Texts::one_digit, crate::proofs::Texts::two_digits))]
    fn put_decimal(&mut self, number: u8)
        requires { self.old.place + length (decimal number) ≤ length self.old.buffer.now }
        ensures { Wrote self.old self.new (decimal number) }
    {
        if number < 10 {
            self.put(&[b'0' + number]);
        } else {
            self.put(&[b'0' + number / 10, b'0' + number % 10]);
        }
    }

    // Puts a blank and a byte's two digits.
    #[tactic(auto, unfolding(crate::specs::Text::hex))]
    fn put_hex(&mut self, byte: u8)
        requires { self.old.place + length (hex byte) ≤ length self.old.buffer.now }
        ensures { Wrote self.old self.new (hex byte) }
    {
        self.put(&[b' ', hex_digit(byte / 16), hex_digit(byte % 16)]);
    }

    // Puts bytes in hex, each after a blank.
    #[tactic(auto, using(crate::proofs::Writing::nothing), unfolding(crate::specs::Text::hexes))]
    fn put_hexes(&mut self, bytes: &[u8])
        requires { self.old.place + length (hexes bytes.now) ≤ length self.old.buffer.now }
        ensures { Wrote self.old self.new (hexes bytes.now) }
    {
        for byte in bytes {
            self.put_hex(*byte);
        }
    }

    // Puts the line of a refusal number and a plan, which is empty unless the number is 0.
    #[tactic(auto, using(crate::proofs::Writing::both, crate::proofs::Writing::room_left), unfolding(crate::specs::Line::line))]
    fn put_line(&mut self, number: u8, plan: &[u8])
        requires { self.old.place + length (line number plan.now) ≤ length self.old.buffer.now }
        ensures { Wrote self.old self.new (line number plan.now) }
    {
        self.put_decimal(number);
        self.put_hexes(plan);
        self.put(&[b'\n']);
    }

    // Puts a refusal's line.
    fn put_refusal(&mut self, refusal: Refusal)
        requires { self.old.place + length (line (number_of refusal) []) ≤ length self.old.buffer.now }
        ensures { Wrote self.old self.new (line (number_of refusal) []) }
    {
        self.put_line(u8::from(refusal), &[]);
    }
}

// The converter that the program begins with.
fn start() -> Converter
    ensures { result ≡ fresh }
{
    let owners = [OWNER; ads1299_registers::CHANNELS];
    let converter = Converter::power_up(ID).state;
    Converter {
        owners,
        ..converter
    }
}

// A request that was read, answered and printed: gives the state that it leaves.
#[tactic(auto, using(crate::proofs::Turns::plan_line))]
fn put_answer(converter: Converter, party: u32, request: Request, writer: &mut Writer) -> Converter
    requires { writer.old.place + length (answered converter (asked party request)) ≤ length writer.old.buffer.now }
    ensures { (result ≡ (planned converter (asked party request)).next)
        × Wrote writer.old writer.new (answered converter (asked party request)) }
{
    // The plan goes into a lent sheet and the answer carries its length (document 01, Plans).
    let mut buffer = [0; planner::LONGEST];
    match planner::plan(converter, party, request, &mut buffer, 0) {
        Ok(plan) => {
            writer.put_line(refusal::NONE, &buffer[..plan.length]);
            plan.next
        }
        Err(refusal) => {
            writer.put_refusal(refusal);
            converter
        }
    }
}

// One request, answered and printed. Where no request can be read the run ends: all bytes are done with (console.Turn.consumed).
#[tactic(auto, using(crate::proofs::Turns::refused_line, crate::proofs::Turns::refused_turn, crate::proofs::Turns::answered_line, crate::proofs::Turns::answered_turn, refusal::proofs::Laws::refused_lem))]
fn answer(converter: Converter, party: u32, bytes: &[u8], writer: &mut Writer) -> Turn
    requires { writer.old.place + length (printed converter party bytes.now) ≤ length writer.old.buffer.now }
    ensures { (result ≡ turn converter party bytes.now) × Wrote writer.old writer.new (printed converter party bytes.now) }
{
    match request::read(bytes) {
        Ok(
            Decoded {
                value: request,
                used,
            },
        ) => {
            let next = put_answer(converter, party, request, writer);
            Turn { used, next }
        }
        Err(refusal) => {
            writer.put_refusal(refusal);
            Turn {
                used: bytes.len(),
                next: converter,
            }
        }
    }
}

// The requests one after the other, each meeting the state that the one before left.
#[tactic(auto, using(crate::proofs::Sessions::room, crate::proofs::Sessions::goes_on))]
fn answer_all(party: u32, bytes: &[u8], writer: &mut Writer)
    requires { writer.old.place + length (session fresh party bytes.now) ≤ length writer.old.buffer.now }
    ensures { Wrote writer.old writer.new (session fresh party bytes.now) }
{
    let mut converter = start();
    let mut rest = bytes;
    // No index: it goes over what is left of a slice, each time by as much as the request used.
    while !rest.is_empty() {
        let turn = answer(converter, party, rest, writer);
        converter = turn.next;
        rest = &rest[turn.used..];
    }
}

// Puts what the program prints for an input.
#[tactic(auto, using(crate::proofs::Transcripts::too_long, crate::proofs::Transcripts::no_party, crate::proofs::Transcripts::requests))]
fn put_transcript(input: &[u8], writer: &mut Writer)
    requires { writer.old.place + length (transcript_of input.now) ≤ length writer.old.buffer.now }
    ensures { Wrote writer.old writer.new (transcript_of input.now) }
{
    if INPUT_LIMIT < input.len() {
        writer.put_refusal(Refusal::InputTooLong);
        return;
    }
    match input {
        [] => writer.put_refusal(Refusal::Truncated),
        [party, requests @ ..] => answer_all(*party as u32, requests, writer),
    }
}

// Writes what the program prints from the start of `out`, which holds the longest; bytes after it stay. Gives its length.
// No heap: C lends the buffer, as long as the longest transcript, and takes the length (rimevelvet_transcript).
#[tactic(auto, using(crate::proofs::Fits::always_fits))]
pub fn transcript(input: &[u8], out: &mut [u8; LONGEST_TRANSCRIPT]) -> usize
    ensures { (result ≡ length (transcript_of input.now))
        × (out.new ≡ spliced out.old 0 (transcript_of input.now)) }
{
    let mut writer = Writer {
        buffer: out,
        place: 0,
    };
    put_transcript(input, &mut writer);
    writer.place
}
