//! The message about wrong arguments.

use std::io;

/// Prints to standard error which arguments a tool takes.
pub fn print_usage(rt: &HostRuntime, arguments: &str) -> io::Result<()> {
    eprintln!(rt; "usage: luksrd_tools {arguments}")
}
