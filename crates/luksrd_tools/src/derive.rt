//! Derives keys by PBKDF2, and reports the cost: `derive sha256 100000 64` derives a key of 64
//! bytes with 100000 iterations, and writes the evaluations of HMAC, the nanoseconds of processor
//! time and the key to standard error. Each further number is one more length, and gets a line of
//! its own. With no further arguments, or with others, it does nothing. `tests/test_keys.py`
//! compares the keys with hashlib's, and `bench/measure` the cost with that of others.

ghost use Rattle.std.specs.Prelude.{◌≤◌};

use luks_kdf::{Hash, Work, pbkdf2};
use std::env::Args;
use std::time::CpuClock;
use std::{fmt, io};

const MAX_KEY: usize = 512;

/// The passphrase of each key.
pub const PASS: &[u8] = b"passphrase";

/// The salt of each key.
pub const SALT: &[u8] = b"0123456789abcdef";

/// Bytes in hexadecimal digits.
#[derive(Drop)]
pub struct Hex<'a> {
    /// The bytes.
    pub bytes: &'a [u8],
}

impl<'a> fmt::Display for Hex<'a> {
    fn fmt<W: fmt::Write>(&self, f: &mut fmt::Formatter<W>) -> fmt::Result {
        for byte in self.bytes {
            write!(f, "{byte:02x}")?;
        }
        Ok(())
    }
}

/// Derives and measures as these arguments request.
pub fn run(rt: &HostRuntime, mut args: Args) -> io::Result<()> {
    let (Some(name), Some(number)) = (args.next(), args.next()) else {
        return Ok(());
    };
    let Some(hash) = Hash::from_name(name.as_str()) else {
        return Ok(());
    };
    let iterations = number.as_str().parse::<u32>().unwrap_or(0);
    for arg in args {
        let length = arg.as_str().parse::<usize>().unwrap_or(0);
        if iterations > 0 && length > 0 && length <= MAX_KEY {
            measure(rt, hash, iterations, length)?;
        }
    }
    Ok(())
}

// Derives one key of this length, and writes its cost.
fn measure(rt: &HostRuntime, hash: Hash, iterations: u32, length: usize) -> io::Result<()>
    requires iterations { 1 ≤ iterations }
    requires some { 1 ≤ length }
    requires capacity { length ≤ MAX_KEY }
{
    let mut key = [0; MAX_KEY];
    let key = &mut key[..length];
    let mut work = Work::new(0);
    let start = rt.process_cpu_time()?;
    pbkdf2(hash, PASS, SALT, iterations, key, &mut work);
    let elapsed = rt.process_cpu_time()?.saturating_sub(start);
    eprintln!(rt;
        "{} {} {}",
        work.count(),
        elapsed.as_nanos(),
        Hex { bytes: key }
    )
}
