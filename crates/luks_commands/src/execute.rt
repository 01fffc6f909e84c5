//! Runs of commands.

ghost use Rattle.std.specs.Prelude.{◌≡◌, false, true};
ghost use Rattle.luks_header.specs.Header.{header_of};
ghost use Rattle.luks_request.specs.Request.{has_header_file, request_of};
ghost use Rattle.luks_open.specs.Location.{detached_header_of, reader_for};
ghost use Rattle.luks_runs.specs.Run.{result_message};
ghost use Rattle.luks_commands.specs.Headline.{CountsCalls, CountsWork, MayReport, NeedsNoPayload};
ghost use Rattle.luks_commands.specs.Headline.{NeedsNoSecret, ReadsFirst};
ghost use Rattle.luks_commands.specs.Headline.{ReadsImage, RunsAsSpecified};
ghost use Rattle.luks_commands.specs.Headline.{WritesPlain};

use luks_io::memory::MemSource;
use luks_io::sink::Sink;
use luks_io::source::Source;
use luks_kdf::Work;
use luks_open::location::HeaderLocation;
use luks_report::message::Message;
use luks_report::report::Report;
use luks_request::command::Command;
use luks_runs::headers::{Printout, is_luks, print};
use luks_runs::stripes::{merge, split};
use std::alloc::Global;
use volumes::{cat, test_passphrase};

mod volumes;

/// Runs a command over its first input, its second one and the output. The header is attached, in
/// the first input; for a detached header, call [`execute_detached`].
///
/// What is written, reported and consumed of both inputs is one function of the command and of the
/// bytes that the inputs give. If an allocation, a read or a write fails, what was written is a
/// prefix of that output, and no input was consumed further than specified; a failed read or write
/// is reported exactly if one failed. If a write failed, not all of the output is written. Except
/// for `luksCat` and `afSplit`, nothing is written if a read fails.
///
/// The second input's source is unchanged if the command has no second input. It is also unchanged
/// if the run ends before that input is needed: with a message about the header, the segment, the
/// order of the key slots or, for `afSplit`, the length of the key. (The image must know its bytes
/// for that.)
///
/// No device is called needlessly: no read goes into a buffer without capacity or follows one that
/// failed or hit EOF, and no write is empty or follows one that failed. EOF is hit at most once on
/// each input. No command but `luksCat` allows read-ahead: every other command consumes
/// just what it requests, also from a pipe. A run of `luksCat` that ends before it has found a key
/// allows none. (After a failed read, both inputs must know their bytes for that.) If both inputs
/// know their bytes, `luksCat` allows it up to the payload's end, and at no moment further.
/// Positions are counted from the source's first byte: if the image was read before, less is
/// allowed.
///
/// The report's work is what trying the key slots costs if they were tried, whatever happened
/// afterwards, and 0 if they were not: then EOF was not hit on the key file, or not all key
/// material was read. (The image and the key file must know their bytes for that.)
///
/// `luksCat` writes the plaintext of an honestly sealed volume if the passphrase has at most
/// 8,388,608 bytes and is that of a key slot which is tried, no slot tried before gives another
/// key, the image is shorter than 2^64 bytes, both inputs know their bytes, and no allocation, read
/// or write fails.
///
/// `luksCat` writes each sector as it comes. If a write fails, nothing past the current sector was
/// consumed, except for the header. If a read fails, every whole sector that was consumed is
/// written, unless a damaged primary header made the search for another one read into the payload.
/// All this holds for images shorter than 2^64 bytes.
///
/// If memory runs out in `testPassphrase` or `luksCat` over a LUKS1 image, no byte of it was
/// consumed, or some key slot can be tried. So once a byte was consumed, "out of memory" does not
/// hide that a named key slot is not there. With LUKS2 it may, during the search for the header and
/// after the header's last byte, when the tree of the JSON text is made. (Both inputs must know
/// their bytes for that, and the image of `luksCat` must be shorter than 2^64 bytes.)
pub fn execute<I: Source, K: Source, O: Sink>(
    alloc: Global,
    command: &Command<'_>,
    image: &mut I,
    secret: &mut K,
    out: &mut O,
) -> Report
    requires attached { has_header_file (request_of command.now) ≡ false }
    ensures run { RunsAsSpecified (request_of command.now) HeaderLocation.Attached result.message
        (record {
          input = record { before = I.to_come image.old; after = I.to_come image.new };
          payload = record { before = I.to_come image.old; after = I.to_come image.new };
          secret = record { before = K.to_come secret.old; after = K.to_come secret.new };
          output = record { before = O.written out.old; after = O.written out.new };
        }) }
    ensures work { CountsWork HeaderLocation.Attached (request_of command.now) result.message
        (record {
          image = record { before = I.to_come image.old; after = I.to_come image.new };
          passphrase = K.to_come secret.old;
          key_file = record { before = K.counts secret.old; after = K.counts secret.new };
          work = record { before = 0; after = result.work };
        }) }
    ensures honest { WritesPlain (request_of command.now) result.message
        (I.to_come image.old) (K.to_come secret.old)
        (record { before = O.written out.old; after = O.written out.new }) }
    ensures only { MayReport (request_of command.now) result.message }
    ensures unneeded { NeedsNoSecret header_of (request_of command.now) (I.to_come image.old)
        → secret.new ≡ secret.old }
    ensures reads_first { ReadsFirst (request_of command.now) → result.message ≡ Message.ReadFailed
        → out.new ≡ out.old }
    ensures calls { CountsCalls HeaderLocation.Attached
        (ReadsImage HeaderLocation.Attached (request_of command.now) result.message
        (I.to_come image.old) (K.to_come secret.old)) result.message
        (record {
          input = record { before = I.counts image.old; after = I.counts image.new };
          payload = record { before = I.counts image.old; after = I.counts image.new };
          secret = record { before = K.counts secret.old; after = K.counts secret.new };
          output = record { before = O.counts out.old; after = O.counts out.new };
        }) }
{
    let location = HeaderLocation::Attached;
    // No image has the payload alone.
    let mut no_image = MemSource::new(&[]);
    run(alloc, command, location, image, &mut no_image, secret, out)
}

/// Runs a command with a detached header over the header's file, the image with the payload, the
/// second input and the output.
///
/// This is [`execute`], except that the header and the key areas come from the header's file, and
/// the payload from the image, at the segment's own offset. Only `luksCat` reads the image, after a
/// key was found: if a write fails, no byte of the image past the current sector was consumed, and
/// if a read of it fails, all its whole sectors that were consumed are written. No clause is about
/// honestly sealed volumes, since these have attached headers.
pub fn execute_detached<H: Source, I: Source, K: Source, O: Sink>(
    alloc: Global,
    command: &Command<'_>,
    header: &mut H,
    image: &mut I,
    secret: &mut K,
    out: &mut O,
) -> Report
    requires detached { has_header_file (request_of command.now) ≡ true }
    ensures run { RunsAsSpecified (request_of command.now) HeaderLocation.Detached result.message
        (record {
          input = record { before = H.to_come header.old; after = H.to_come header.new };
          payload = record { before = I.to_come image.old; after = I.to_come image.new };
          secret = record { before = K.to_come secret.old; after = K.to_come secret.new };
          output = record { before = O.written out.old; after = O.written out.new };
        }) }
    ensures work { CountsWork HeaderLocation.Detached (request_of command.now) result.message
        (record {
          image = record { before = H.to_come header.old; after = H.to_come header.new };
          passphrase = K.to_come secret.old;
          key_file = record { before = K.counts secret.old; after = K.counts secret.new };
          work = record { before = 0; after = result.work };
        }) }
    ensures only { MayReport (request_of command.now) result.message }
    ensures unneeded { NeedsNoSecret detached_header_of (request_of command.now)
        (H.to_come header.old) → secret.new ≡ secret.old }
    ensures untouched { NeedsNoPayload (request_of command.now) result.message
        → image.new ≡ image.old }
    ensures reads_first { ReadsFirst (request_of command.now) → result.message ≡ Message.ReadFailed
        → out.new ≡ out.old }
    ensures calls { CountsCalls HeaderLocation.Detached
        (ReadsImage HeaderLocation.Detached (request_of command.now) result.message
        (H.to_come header.old) (K.to_come secret.old)) result.message
        (record {
          input = record { before = H.counts header.old; after = H.counts header.new };
          payload = record { before = I.counts image.old; after = I.counts image.new };
          secret = record { before = K.counts secret.old; after = K.counts secret.new };
          output = record { before = O.counts out.old; after = O.counts out.new };
        }) }
{
    let location = HeaderLocation::Detached;
    run(alloc, command, location, header, image, secret, out)
}

/// Runs a command whose header, if it has one, is at this location, over its first input, the image
/// with the payload if the header is detached, the second input and the output.
fn run<H: Source, I: Source, K: Source, O: Sink>(
    alloc: Global,
    command: &Command<'_>,
    location: HeaderLocation,
    input: &mut H,
    image: &mut I,
    secret: &mut K,
    out: &mut O,
) -> Report
    ensures run { RunsAsSpecified (request_of command.now) location result.message
        (record {
          input = record { before = H.to_come input.old; after = H.to_come input.new };
          payload = record { before = I.to_come image.old; after = I.to_come image.new };
          secret = record { before = K.to_come secret.old; after = K.to_come secret.new };
          output = record { before = O.written out.old; after = O.written out.new };
        }) }
    ensures work { CountsWork location (request_of command.now) result.message
        (record {
          image = record { before = H.to_come input.old; after = H.to_come input.new };
          passphrase = K.to_come secret.old;
          key_file = record { before = K.counts secret.old; after = K.counts secret.new };
          work = record { before = 0; after = result.work };
        }) }
    ensures only { MayReport (request_of command.now) result.message }
    ensures unneeded { NeedsNoSecret (reader_for location) (request_of command.now)
        (H.to_come input.old) → secret.new ≡ secret.old }
    ensures untouched { NeedsNoPayload (request_of command.now) result.message
        → image.new ≡ image.old }
    ensures reads_first { ReadsFirst (request_of command.now) → result.message ≡ Message.ReadFailed
        → out.new ≡ out.old }
    ensures calls { CountsCalls location
        (ReadsImage location (request_of command.now) result.message
        (H.to_come input.old) (K.to_come secret.old)) result.message
        (record {
          input = record { before = H.counts input.old; after = H.counts input.new };
          payload = record { before = I.counts image.old; after = I.counts image.new };
          secret = record { before = K.counts secret.old; after = K.counts secret.new };
          output = record { before = O.counts out.old; after = O.counts out.new };
        }) }
{
    let mut work = Work::new(0);
    match command {
        Command::IsLuks(_) => report(is_luks(alloc, input), &work),
        Command::LuksUuid(_) => report(print(alloc, Printout::Uuid, location, input, out), &work),
        Command::LuksDump(_) => report(print(alloc, Printout::Dump, location, input, out), &work),
        Command::LuksCheck(_) => report(print(alloc, Printout::Check, location, input, out), &work),
        Command::TestPassphrase(args) => report(
            test_passphrase(alloc, location, args.slots, input, secret, out, &mut work),
            &work,
        ),
        Command::LuksCat(args) => report(
            cat(alloc, location, args, input, image, secret, out, &mut work),
            &work,
        ),
        Command::AfSplit(args) => report(split(args, input, secret, out), &work),
        Command::AfMerge(args) => report(merge(args, input, out), &work),
    }
}

/// The report of a run that succeeded, or ended with this message, after this work.
fn report(run: Result<(), Message>, work: &Work) -> Report
    ensures { (result.message ≡ result_message run) × (result.work ≡ work.now) }
{
    match run {
        Ok(()) => Report::of(Message::Done, work.count()),
        Err(message) => Report::of(message, work.count()),
    }
}
