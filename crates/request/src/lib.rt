// The setting request (document 01: slip): a field, a channel and a value, or a whole channel's nine, read from bytes and written to a
// buffer.
#![tactic(auto)]

ghost use Rattle.std.specs.Prelude.{cond, ◌≡◌, ◌≤◌, length, IfOk};
ghost use Rattle.refusal.specs.Numbers.{none, bad_value};
ghost use Rattle.refusal.specs.First.{first_of};
ghost use Rattle.refusal.specs.Refusals.{answer_number};
ghost use Rattle.leb128.specs.Numbers.{groups};
ghost use Rattle.leb128.specs.Encoding.{padded};
ghost use Rattle.leb128.specs.Series.{series, series_bytes, writable};
ghost use Rattle.request.specs.Requests.{most_numbers, longest, value_count, numbers_of, request_of};
ghost use Rattle.request.specs.Reading.{parsed};
ghost use Rattle.request.specs.Writing.{written, buffer_after};
ghost use Rattle.request.specs.Results.{read_answer, write_answer};

use arrayvec::ArrayVec;
use leb128::Decoded;
use refusal::Refusal;

// The most values of a request: one for each field of a channel.
pub const VALUES: usize = ads1299_fields::CHANNEL_FIELDS as usize;

// The numbers before the values: the field and the channel.
const HEAD: usize = 2;

// The fewest numbers of a request.
pub const FEWEST_NUMBERS: usize = HEAD + 1;

// The most numbers of a request.
const MOST_NUMBERS: usize = HEAD + VALUES;

// Enough bytes for every request.
const LONGEST: usize = MOST_NUMBERS * leb128::GROUPS;

// A request for a whole channel uses all values, every other one the first alone. `values` stays an array: it crosses the C interface.
#[repr(C)]
#[derive(Clone, Copy)]
pub struct Request {
    pub field: u32,
    pub channel: u32,
    pub values: [u32; VALUES],
}

// How many values a request for the field has.
pub fn count_values(field: u32) -> usize
    ensures { result ≡ value_count field }
{
    if field == ads1299_fields::WHOLE_CHANNEL {
        VALUES
    } else {
        1
    }
}

// So many numbers from the bytes' start on, the others 0, or the refusal of the first that has one. No ArrayVec: with one in the Result
// reading a request took 2.3 times the time. By index: no clause says what the array holds after an iter_mut().take(count).
#[tactic(auto, using(crate::proofs::Reading::ends))]
fn read_series(bytes: &[u8], count: usize) -> Result<Decoded<[u32; MOST_NUMBERS]>, Refusal>
    requires { count ≤ most_numbers }
    ensures judged { answer_number result ≡ first_of (series groups count bytes.now).refusals }
    ensures numbers { IfOk result (λ s. s.value ≡ padded most_numbers (series groups count bytes.now).numbers) }
    ensures used { IfOk result (λ s. s.used ≡ (series groups count bytes.now).used) }
{
    let mut numbers = [0; MOST_NUMBERS];
    let mut used = 0;
    for i in 0..count {
        let number = leb128::read(&bytes[used..])?;
        numbers[i] = number.value;
        used += number.used;
    }
    Ok(Decoded {
        value: numbers,
        used,
    })
}

// The request that numbers are.
#[tactic(auto, unfolding(crate::specs::Requests::request_of, leb128::specs::Encoding::padded))]
fn request_of(numbers: [u32; MOST_NUMBERS]) -> Request
    ensures { result ≡ request_of numbers }
{
    let mut values = [0; VALUES];
    values.copy_from_slice(&numbers[HEAD..]);
    Request {
        field: numbers[0],
        channel: numbers[1],
        values,
    }
}

// The request that the bytes start with. Bytes after it are not looked at.
pub fn read(bytes: &[u8]) -> Result<Decoded<Request>, Refusal>
    ensures { read_answer result ≡ parsed bytes.now }
{
    // The field is read ahead: it alone says how many numbers there are, whatever the channel.
    let field = leb128::read(bytes)?.value;
    let series = read_series(bytes, HEAD + count_values(field))?;
    Ok(Decoded {
        value: request_of(series.value),
        used: series.used,
    })
}

// The numbers of a request, without the values that its field does not use.
#[tactic(auto, unfolding(crate::specs::Requests::numbers_of))]
fn numbers_of(request: Request) -> ArrayVec<u32, MOST_NUMBERS>
    ensures { result.items ≡ numbers_of request }
{
    let values = &request.values[..count_values(request.field)];
    let mut numbers = ArrayVec::new();
    numbers.push(request.field);
    numbers.push(request.channel);
    numbers.try_extend_from_slice(values).unwrap();
    numbers
}

// The bytes of all numbers, for a copy; refused where one is too large to be written.
#[tactic(auto, using(crate::proofs::Writing::ends))]
fn stage(numbers: &[u32]) -> Result<ArrayVec<u8, LONGEST>, Refusal>
    requires { length numbers.now ≤ most_numbers }
    ensures judged { answer_number result ≡ cond (writable groups numbers.now) none bad_value }
    ensures whole { IfOk result (λ staged. staged.items ≡ series_bytes groups numbers.now) }
    ensures room { IfOk result (λ staged. length staged.items ≤ longest) }
{
    let mut staged = ArrayVec::new();
    for number in numbers {
        let encoded = leb128::encode(*number)?;
        staged
            .try_extend_from_slice(&encoded.bytes[..encoded.used])
            .unwrap();
    }
    Ok(staged)
}

// Writes the request from the buffer's start on; bytes after it stay. The whole request is there before the first byte is copied,
// so a refusal leaves the buffer as it was.
pub fn write(request: Request, buffer: &mut [u8]) -> Result<usize, Refusal>
    ensures { (write_answer result ≡ written request buffer.old)
        × (buffer.new ≡ buffer_after request buffer.old) }
{
    let staged = stage(&numbers_of(request))?;
    let used = staged.len();
    if buffer.len() < used {
        return Err(Refusal::NoRoom);
    }
    buffer[..used].copy_from_slice(&staged);
    Ok(used)
}
