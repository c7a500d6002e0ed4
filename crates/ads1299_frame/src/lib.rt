// The frame of a sample: nine words of 24 bits, each three bytes (document 01, "Samples and frames").
#![tactic(auto)]

ghost use Rattle.std.specs.Prelude.{◌≡◌, ◌*◌, ◌<◌, ◌≤◌};
ghost use Rattle.splice.specs.Splice.{spliced};
ghost use Rattle.ads1299_registers.specs.Addresses.{channel_count};
ghost use Rattle.ads1299_codes.specs.Words.{word_length, word_bytes};
ghost use Rattle.ads1299_frame.specs.Frame.{shown, status_word, frame_word, frame_of};

use ads1299_codes::WORD_LENGTH;

// A word for the status and one for each channel.
const WORDS: usize = 1 + ads1299_registers::CHANNELS;

// The bytes of a frame.
pub const LENGTH: usize = WORD_LENGTH * WORDS;

// The first four bits of a frame.
pub const MARK: u8 = 0b1100;

// What a channel shows: 0 where its power-down bit, bit 7 of CHnSET, is 1.
#[tactic(auto, unfolding(crate::specs::Frame::shown, crate::specs::Frame::powered_down))]
fn shown(registers: [u8; ads1299_registers::COUNT], codes: &[i32], channel: usize) -> i32
    requires { (0 < channel) × (channel ≤ channel_count) }
    ensures { result ≡ shown registers codes.now channel }
{
    let k = channel - 1;
    if bits::is_set(registers[ads1299_registers::CH1SET + k], 7) {
        return 0;
    }
    codes.get(k).copied().unwrap_or(0)
}

// The three bytes of the status word, in which P and N lie each across two bytes.
#[tactic(auto, unfolding(ads1299_codes::specs::Words::word_bytes, crate::specs::Frame::status_word))]
fn status_bytes(p: u8, n: u8, gpio: u8) -> [u8; WORD_LENGTH]
    ensures { result ≡ word_bytes (status_word p n gpio) }
{
    [
        MARK * 0x10 + p / 0x10,
        p % 0x10 * 0x10 + n / 0x10,
        n % 0x10 * 0x10 + gpio / 0x10,
    ]
}

// The three bytes of word i of a frame: word 0 is the status word, word n is channel n's.
// Registers, codes, P and N go one by one, as frame_of takes them.
#[tactic(auto, unfolding(crate::specs::Frame::frame_word))]
fn word_bytes(
    registers: [u8; ads1299_registers::COUNT],
    codes: &[i32],
    p: u8,
    n: u8,
    i: usize,
) -> [u8; WORD_LENGTH]
    requires { i ≤ channel_count }
    ensures { result ≡ word_bytes (frame_word registers codes.now p n i) }
{
    if i == 0 {
        status_bytes(p, n, registers[ads1299_registers::GPIO])
    } else {
        ads1299_codes::code_bytes(shown(registers, codes, i))
    }
}

// Puts the bytes of word i in their place.
fn put(frame: &mut [u8; LENGTH], i: usize, bytes: [u8; WORD_LENGTH])
    requires { i ≤ channel_count }
    ensures { frame.new ≡ spliced frame.old (word_length * i) bytes }
{
    let at = WORD_LENGTH * i;
    frame[at..at + WORD_LENGTH].copy_from_slice(&bytes);
}

// The frame of a sample, word by word. A code that is not given counts as 0, and those after the eighth are not looked at.
#[tactic(auto, unfolding(ads1299_codes::specs::Words::joined, crate::specs::Frame::frame_of))]
pub fn build(registers: [u8; ads1299_registers::COUNT], codes: &[i32], p: u8, n: u8) -> [u8; LENGTH]
    ensures { result ≡ frame_of registers codes.now p n }
{
    let mut frame = [0u8; LENGTH];
    // By index: with chunks_exact_mut the proof does not close, since no clause says what the frame holds once that borrow is over.
    for i in 0..WORDS {
        put(&mut frame, i, word_bytes(registers, codes, p, n, i));
    }
    frame
}
