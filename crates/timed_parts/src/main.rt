//! Runs one part of the work by itself, for the benches: `timed_parts document`, `timed_parts
//! document read`, `timed_parts walk TIMES`, `timed_parts gadget KIND TIMES`, `timed_parts queue
//! ROUNDS` or `timed_parts rising ROUNDS`. Input is read from standard input where the part has
//! one, and a short answer is written that the benches compare. It depends on the crates whose work
//! it runs, and promises nothing of its own.
#![tactic(auto)]

mod documents;
mod gadgets;
mod queue;
mod rising;
mod sums;
mod walks;
mod words;

use crate::words::{Part, read_words};
use mb_base::{RealIn, RealOut, read_all, write_all};
use std::alloc::Global;
use std::io;
use std::process::ExitCode;

/// More than any input that a bench makes.
const INPUT_LIMIT: u64 = 1_073_741_824;

/// What the part writes, where its input has the right form and there is memory.
fn output(alloc: Global, part: Part, bytes: &[u8]) -> Option<Vec<u8>> {
    match part {
        Part::Document { written } => documents::run(alloc, bytes, written),
        Part::Walk { times } => walks::run(alloc, bytes, times),
        Part::Gadget { kind, times } => gadgets::run(alloc, bytes, kind, times),
        Part::Queue { rounds } => queue::run(alloc, rounds),
        Part::Rising { rounds } => rising::run(alloc, rounds),
    }
}

fn main(rt: HostRuntime) -> ExitCode {
    let alloc = rt.alloc();
    let Some(part) = read_words(&rt) else {
        return ExitCode::from(1u8);
    };
    let Ok(bytes) = read_all(alloc, &mut RealIn::new(rt.reader()), INPUT_LIMIT) else {
        return ExitCode::from(2u8);
    };
    let Some(text) = output(alloc, part, &bytes) else {
        return ExitCode::from(3u8);
    };
    match write_all(&mut RealOut::new(io::writer(&rt)), &text) {
        Ok(()) => ExitCode::from(0u8),
        Err(_) => ExitCode::from(4u8),
    }
}
