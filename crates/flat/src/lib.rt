// The flat form of a converter's state, for other languages: from a state to its bytes and back, and which bytes stand for a state.
#![tactic(auto)]

mod back;
mod codes;
mod forward;

pub use back::{is_state, state_of};
pub use codes::ON;

// A converter's state as bytes, by value. output, phase and direction are codes, the flags 0 or 1 (codes.rt). Each state has one
// flat form: what an empty output or a waiting converter does not use is 0. Other bytes stand for no state (refusal 13).
#[repr(C)]
#[derive(Clone, Copy)]
pub struct FlatConverter {
    pub registers: [u8; ads1299_registers::COUNT],
    pub owners: [u8; ads1299_registers::CHANNELS],
    pub latest: [u8; ads1299_frame::LENGTH],
    pub output: u8,
    pub place: u8,
    pub continuous: u8,
    pub standby: u8,
    pub converting: u8,
    pub shifting: [u8; ads1299_frame::LENGTH],
    pub phase: u8,
    pub direction: u8,
    pub address: u8,
    pub remaining: u8,
}
