// One eight-channel ADS1299, followed byte by byte: its state by value, and what power-up, a byte, a select rise and a sample
// make of it. Each entry point judges the state that it is given (refusal 13).
#![tactic(auto)]

mod power_up;
mod sample;
mod step;
mod validity;

use ads1299_serial::Phase;
use refusal::Refusal;

// The order of the fields keeps the long arrays at multiples of 16 bytes.
#[derive(Clone, Copy)]
pub struct Converter {
    pub registers: [u8; ads1299_registers::COUNT],
    pub owners: [u8; ads1299_registers::CHANNELS],
    pub latest: [u8; ads1299_frame::LENGTH],
    pub output: Option<u8>,
    pub continuous: bool,
    pub standby: bool,
    pub converting: bool,
    pub shifting: [u8; ads1299_frame::LENGTH],
    pub phase: Phase,
}

// What power-up answers, of a converter or of several. No Result: a refused power-up hands back a state too (document 01, "Refusal
// numbers"; definition ads1299.PowerUp.powered_up).
#[derive(Clone, Copy)]
pub struct Startup<S> {
    pub refusal: Option<Refusal>,
    pub state: S,
}

// The byte that goes out, and the state after the byte that came in: a converter, or several.
#[derive(Clone, Copy)]
pub struct Exchange<S> {
    pub out: u8,
    pub next: S,
}
