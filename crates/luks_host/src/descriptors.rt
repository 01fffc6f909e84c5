//! The descriptors that may be closed when a program starts.

ghost use Rattle.std.specs.Prelude.{All};
ghost use Rattle.luks_host.specs.Descriptors.{IsStandIn};

use crate::system::System;
use std::os::fd::AsRawFd;

/// Opens `/dev/null` in the place of each of the descriptors 0 to 2 that is closed. Without that,
/// the first input would become standard input, or the output would be written into it. The files
/// occupy those descriptors until they are dropped. They are open for reading only, so that a write
/// to a closed output fails and is reported.
pub fn stand_ins<S: System>(system: &S) -> [Option<S::File>; 3]
    ensures { All (IsStandIn (S.opens system.now) S.File.raw_fd) result }
{
    [stand_in(system), stand_in(system), stand_in(system)]
}

/// Opens `/dev/null`, and keeps it if it has one of the descriptors 0 to 2.
fn stand_in<S: System>(system: &S) -> Option<S::File>
    ensures { IsStandIn (S.opens system.now) S.File.raw_fd result }
{
    match system.open("/dev/null") {
        Ok(file) if file.as_raw_fd() <= 2 => Some(file),
        _ => None,
    }
}
