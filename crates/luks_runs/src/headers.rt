//! `isLuks`, `luksUUID`, `luksDump` and `luksCheck`: what an image's header says.

ghost use Rattle.std.specs.Prelude.{◌≡◌, Bool, List, ℕ, IfOk, Option, string_bytes};
ghost use Rattle.luks_io.specs.Devices.{Appended, ConsumedExactly, IfKnown};
ghost use Rattle.luks_io.specs.Counts.{Reads, Writes};
ghost use Rattle.luks_runs.specs.HeaderOutcome.{message_for_is_luks, is_luks_outcome};
ghost use Rattle.luks_runs.specs.HeaderOutcome.{print_outcome_by, printout_text, printout_message};
ghost use Rattle.luks_runs.specs.Run.{Prints};
ghost use Rattle.luks_runs.specs.Run.{ConsumedNothing, RunMatches, AnyPromptness, result_message};
ghost use Rattle.luks_runs.specs.Run.{is_run_read_failure, is_run_write_failure};
ghost use Rattle.luks_runs.specs.RunMessages.{IsLuksMessage, PrintoutMessage};
ghost use Rattle.luks_open.specs.Location.{reader_for};

use luks_header::fault::HeaderFault;
use luks_header::header::{Header, read_header};
use luks_io::sink::{Sink, put_all};
use luks_io::source::Source;
use luks_open::location::{HeaderLocation, read_header_at};
use luks_report::check::check_text;
use luks_report::dump::{dump_text, uuid_text};
use luks_report::message::Message;
use std::alloc::{AllocError, Global};

/// `isLuks`: nothing is written; only the status reports that there is no LUKS header.
pub fn is_luks<S: Source>(alloc: Global, image: &mut S) -> Result<(), Message>
    ensures run { (written : Option (List ℕ)) → IfKnown (S.to_come image.old) (λ known.
        RunMatches AnyPromptness (is_luks_outcome known) (result_message result)
        (ConsumedExactly known (S.to_come image.new)) ConsumedNothing (Appended written written)) }
    ensures only { IsLuksMessage (result_message result) }
    ensures reads { (ended : Bool)
        × Reads (is_run_read_failure (result_message result)) ended
        (S.counts image.old) (S.counts image.new) }
{
    match read_header(alloc, image) {
        Ok(_) => Ok(()),
        Err(fault) => Err(refusal_of(fault)),
    }
}

/// The message of `isLuks` for an image without a readable header.
fn refusal_of(fault: HeaderFault) -> Message
    ensures { result ≡ message_for_is_luks (Err fault) }
{
    match fault {
        HeaderFault::NotLuks => Message::No,
        _ => Message::from(fault),
    }
}

/// A text that is printed about a header.
#[derive(Clone, Copy)]
pub enum Printout {
    /// `luksUUID`: the header's UUID.
    Uuid,
    /// `luksDump`: the whole header.
    Dump,
    /// `luksCheck`: the findings in the header.
    Check,
}

/// The text of a printout, and how the command ends once it is printed.
fn printed_text(
    alloc: Global,
    printout: Printout,
    header: &Header,
) -> Result<(String, Result<(), Message>), AllocError>
    ensures text { IfOk result
        (λ printed. string_bytes printed.0 ≡ printout_text printout header.now) }
    ensures reported { IfOk result
        (λ printed. result_message printed.1 ≡ printout_message printout header.now) }
{
    match printout {
        Printout::Uuid => Ok((uuid_text(alloc, header)?, Ok(()))),
        Printout::Dump => Ok((dump_text(alloc, header)?, Ok(()))),
        Printout::Check => check_text(alloc, header),
    }
}

/// `luksUUID`, `luksDump` and `luksCheck`: the text is complete before its first byte is written.
pub fn print<S: Source, O: Sink>(
    alloc: Global,
    printout: Printout,
    location: HeaderLocation,
    image: &mut S,
    out: &mut O,
) -> Result<(), Message>
    ensures run { IfKnown (S.to_come image.old) (λ known.
        RunMatches AnyPromptness
        (print_outcome_by (reader_for location) printout known)
        (result_message result) (ConsumedExactly known (S.to_come image.new)) ConsumedNothing
        (Appended (O.written out.old) (O.written out.new))) }
    ensures only { PrintoutMessage printout (result_message result) }
    ensures reads_first { result_message result ≡ Message.ReadFailed → out.new ≡ out.old }
    ensures reads { (ended : Bool)
        × Reads (is_run_read_failure (result_message result)) ended
        (S.counts image.old) (S.counts image.new) }
    ensures writes { Writes (is_run_write_failure (result_message result))
        (O.counts out.old) (O.counts out.new) }
{
    let (header, _area) = read_header_at(alloc, location, image)?;
    print_text(alloc, printout, &header, out)
}

/// Prints a text about a header: it is complete before its first byte is written.
fn print_text<O: Sink>(
    alloc: Global,
    printout: Printout,
    header: &Header,
    out: &mut O,
) -> Result<(), Message>
    ensures run { Prints (printout_text printout header.now) (printout_message printout header.now)
        (O.written out.old) (O.written out.new) (result_message result) }
    ensures only { PrintoutMessage printout (result_message result) }
    ensures writes { Writes (is_run_write_failure (result_message result))
        (O.counts out.old) (O.counts out.new) }
{
    let (text, ending) = printed_text(alloc, printout, header)?;
    put_all(out, text.as_bytes())?;
    ending
}
