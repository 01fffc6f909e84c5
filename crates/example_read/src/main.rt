//! Writes the first sector of the volume in a file to standard output: `example_read IMAGE
//! PASSPHRASE`. Both are names of files.
#![tactic(auto)]

use luks_access::file::FileImage;
use luks_access::options::Options;
use luks_access::volume::Volume;
use luks_access::{HeaderLocation, Message, SlotChoice};
use luks_io::adapters::WriteSink;
use std::env;
use std::fs::{self, File};
use std::io::Write;
use std::process::ExitCode;

/// The 512 bytes of the first sector, or the message that says why there are none.
fn first_sector(rt: &HostRuntime, image: &str, passphrase: &str) -> Result<[u8; 512], Message> {
    let file = File::open(rt, image).map_err(|_| Message::ReadFailed)?;
    let image = FileImage::new(file).map_err(|_| Message::ReadFailed)?;
    let passphrase = fs::read(rt, passphrase).map_err(|_| Message::ReadFailed)?;
    let options = Options {
        location: HeaderLocation::Attached,
        slots: SlotChoice {
            named: None,
            max_iterations: None,
        },
        argon2: None,
    };
    let volume = Volume::open(rt.alloc(), &options, &image, &passphrase)?;
    let mut sector = [0; 512];
    match volume.read_at(&image, 0, &mut sector) {
        Ok(()) => Ok(sector),
        Err(_) => Err(Message::ReadFailed),
    }
}

fn main(rt: HostRuntime) -> ExitCode {
    let Ok(mut args) = env::args(&rt) else {
        return ExitCode::FAILURE;
    };
    let _program = args.next();
    let (Some(image), Some(passphrase)) = (args.next(), args.next()) else {
        let _ = eprintln!(&rt; "usage: example_read IMAGE PASSPHRASE");
        return ExitCode::FAILURE;
    };
    match first_sector(&rt, &image, &passphrase) {
        Ok(sector) if rt.stdout().write_all(&sector).is_ok() => ExitCode::SUCCESS,
        Ok(_) => ExitCode::FAILURE,
        Err(message) => {
            let _ = message.print(&mut WriteSink::new(rt.stderr()));
            ExitCode::from(message.status())
        }
    }
}
