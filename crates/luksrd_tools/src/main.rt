//! Tools for `tests/` and `bench/`. The first argument names one: `argon2` and `derive`
//! derive keys, `crypt` times sectors, and `seal` writes a sealed volume. The module of each says
//! which arguments follow. With no arguments the program does nothing.
#![tactic(auto)]

mod argon2;
mod crypt;
mod derive;
mod mode_key;
mod seal;
mod usage;

use std::process::ExitCode;
use std::{env, io};
use usage::print_usage;

fn main(rt: HostRuntime) -> io::Result<ExitCode> {
    let mut args = env::args(&rt)?;
    let _program = args.next();
    let Some(tool) = args.next() else {
        return Ok(ExitCode::SUCCESS);
    };
    match tool.as_str() {
        "argon2" => argon2::run(&rt, args)?,
        "derive" => derive::run(&rt, args)?,
        "crypt" => crypt::run(&rt, args)?,
        "seal" => seal::run(&rt, args)?,
        _ => {
            print_usage(&rt, "argon2|derive|crypt|seal ..")?;
            return Ok(ExitCode::FAILURE);
        }
    }
    Ok(ExitCode::SUCCESS)
}
