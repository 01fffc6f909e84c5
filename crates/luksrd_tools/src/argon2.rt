//! Derives a key by Argon2, and reports the cost: `argon2 argon2id 4 65536 1` derives a key of 32
//! bytes with 4 passes over 65,536 KiB in 1 lane, and writes the nanoseconds of processor time and
//! the key to standard error. With no further arguments, or with others, it does nothing.
//! `bench/measure` compares it with the program `argon2`.

use crate::derive::{Hex, PASS, SALT};
use luks_argon2::{Memory, Parameters, Variant, derive};
use std::env::Args;
use std::io;
use std::time::CpuClock;

// The next argument as a number, or 0.
fn number(args: &mut Args) -> u32 {
    match args.next() {
        Some(arg) => arg.as_str().parse::<u32>().unwrap_or(0),
        None => 0,
    }
}

/// Derives and measures as these arguments request.
pub fn run(rt: &HostRuntime, mut args: Args) -> io::Result<()> {
    let variant = match args.next() {
        Some(name) if name.as_str() == "argon2i" => Variant::Argon2i,
        Some(name) if name.as_str() == "argon2id" => Variant::Argon2id,
        _ => return Ok(()),
    };
    let passes = number(&mut args);
    let memory_kib = number(&mut args);
    let lanes = number(&mut args);
    let Ok(parameters) = Parameters::new(passes, memory_kib, lanes) else {
        return Ok(());
    };
    let start = rt.process_cpu_time()?;
    let mut key = [0; 32];
    let mut memory = Memory::new(rt.alloc(), parameters)?;
    derive(variant, parameters, &mut memory, PASS, SALT, &mut key);
    let elapsed = rt.process_cpu_time()?.saturating_sub(start);
    eprintln!(rt; "{} {}", elapsed.as_nanos(), Hex { bytes: &key })
}
