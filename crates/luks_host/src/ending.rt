//! The end of a run: the output is flushed, then a message is printed, then the status is returned.

ghost use Rattle.std.specs.Prelude.{◌≡◌, List, ℕ, Option};
ghost use Rattle.luks_host.specs.Endings.{EndsRun, Printed, shown};

use crate::output::RawFlush;
use luks_io::sink::{Sink, put_all};

/// How a run ends: with a line on standard error, or nothing, and with an exit status.
#[derive(Clone, Copy)]
pub struct Ending<'a> {
    pub line: &'a [u8],
    pub status: u8,
}

/// Flushes the output, prints a line and returns a status: those of the run's report, or, if the
/// flush failed and output is lost, those of a failed write, whatever the run reported.
pub fn end_run<O: RawFlush, S: Sink>(
    output: &mut O,
    report: Ending<'_>,
    lost: Ending<'_>,
    messages: &mut S,
) -> u8
    ensures { EndsRun (O.flushes output.old) (O.flushes output.new) (O.unflushed output.new)
        (shown report.entry) (shown lost.entry)
        (S.written messages.old) (S.written messages.new)
        (S.counts messages.old) (S.counts messages.new) result }
{
    let flushed = output.flush_once();
    print_ending(if flushed { report } else { lost }, messages)
}

/// Prints a line and returns the status with it. A line that cannot be printed is lost: the status
/// stays.
pub fn print_ending<S: Sink>(ending: Ending<'_>, messages: &mut S) -> u8
    ensures status { result ≡ ending.entry.status }
    ensures printed { Printed ending.entry.line.now (S.written messages.old)
        (S.written messages.new) (S.counts messages.old) (S.counts messages.new) }
{
    let _ = put_all(messages, ending.line);
    ending.status
}
