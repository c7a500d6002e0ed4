// The library for other languages: every entry point as a C function, over a state and answers that are plain numbers. No state is
// kept here. C has no Result: an answer that may be a refusal is a struct of include/rimevelvet.h, its number first. A converter and a
// bench have a call each, and a struct each where it has the state: none with a type parameter crosses to C (the check's
// unsupported-generic-in-c).
#![tactic(auto)]

mod answers;
mod bench_answers;
mod bench_channels;
mod bench_lines;
mod bench_requests;
mod channels;
mod converter;
mod program;
mod requests;

use flat::FlatConverter;
use flat_bench::FlatBench;
use request::Request;

#[repr(C)]
#[derive(Clone, Copy)]
pub struct FlatPoweredUp {
    pub refusal: u8,
    pub converter: FlatConverter,
}

#[repr(C)]
#[derive(Clone, Copy)]
pub struct FlatStepped {
    pub refusal: u8,
    pub out: u8,
    pub next: FlatConverter,
}

#[repr(C)]
#[derive(Clone, Copy)]
pub struct FlatMoved {
    pub refusal: u8,
    pub next: FlatConverter,
}

// A channel's code with the number of its rail, and its bits of P and N, 0 or 1.
#[repr(C)]
#[derive(Clone, Copy)]
pub struct FlatReading {
    pub refusal: u8,
    pub p: u8,
    pub n: u8,
    pub rail: u8,
    pub code: i32,
}

// A channel's bytes as a place in the caller's own frame.
#[repr(C)]
#[derive(Clone, Copy)]
pub struct FlatPart {
    pub refusal: u8,
    pub start: usize,
    pub length: usize,
}

#[repr(C)]
#[derive(Clone, Copy)]
pub struct FlatParsed {
    pub refusal: u8,
    pub request: Request,
    pub used: usize,
}

#[repr(C)]
#[derive(Clone, Copy)]
pub struct FlatWritten {
    pub refusal: u8,
    pub used: usize,
}

#[repr(C)]
#[derive(Clone, Copy)]
pub struct FlatPlanned {
    pub refusal: u8,
    pub length: usize,
    pub next: FlatConverter,
}

#[repr(C)]
#[derive(Clone, Copy)]
pub struct FlatBenchPoweredUp {
    pub refusal: u8,
    pub bench: FlatBench,
}

#[repr(C)]
#[derive(Clone, Copy)]
pub struct FlatBenchStepped {
    pub refusal: u8,
    pub out: u8,
    pub next: FlatBench,
}

#[repr(C)]
#[derive(Clone, Copy)]
pub struct FlatBenchMoved {
    pub refusal: u8,
    pub next: FlatBench,
}

#[repr(C)]
#[derive(Clone, Copy)]
pub struct FlatBenchPlanned {
    pub refusal: u8,
    pub converter: u32,
    pub length: usize,
    pub next: FlatBench,
}
