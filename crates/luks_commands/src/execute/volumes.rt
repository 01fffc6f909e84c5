//! `testPassphrase` and `luksCat`: volumes that a passphrase opens.

ghost use Rattle.std.specs.Prelude.{◌≡◌, ◌⊎◌, [], Bool};
ghost use Rattle.std.specs.Prelude.{IfOk, IfErr, false, is_err, true};
ghost use Rattle.luks_open.specs.Fault.{has_fault, is_read_failure};
ghost use Rattle.luks_report.specs.Faults.{message_for_volume};
ghost use Rattle.luks_io.specs.Counts.{Reads, Writes};
ghost use Rattle.luks_io.specs.Devices.{Appended, ConsumedExactly, IfKnown};
ghost use Rattle.luks_open.specs.Allowed.{pbkdf2_alone};
ghost use Rattle.luks_open.specs.Reasons.{FaultWithoutArgon2};
ghost use Rattle.luks_runs.specs.VolumeOutcome.{CommandOpeningMessage};
ghost use Rattle.luks_open.specs.Volume.{opened_of};
ghost use Rattle.luks_runs.specs.VolumeOutcome.{slot_outcome, volume_outcome_by};
ghost use Rattle.luks_open.specs.Volume.{volume_by};
ghost use Rattle.luks_report.specs.Texts.{opened_line};
ghost use Rattle.luks_runs.specs.RunMessages.{PayloadMessage};
ghost use Rattle.luks_runs.specs.Payload.{ForwardsLoaded, with_payload_allowed};
ghost use Rattle.luks_runs.specs.Run.{Prints};
ghost use Rattle.luks_request.specs.Request.{luks_cat, volume_request};
ghost use Rattle.luks_runs.specs.Run.{RunMatches};
ghost use Rattle.luks_runs.specs.Run.{is_run_read_failure, is_run_write_failure, result_message};
ghost use Rattle.luks_open.specs.Location.{LoadedFrom, reader_for};
ghost use Rattle.luks_commands.specs.Headline.{CatAllows, CountsCalls, CountsOpening, CountsReads};
ghost use Rattle.luks_commands.specs.Headline.{EndsWithoutKey, AbortedOpening};
ghost use Rattle.luks_commands.specs.Headline.{ReadsOnce, ReadsPayload};
ghost use Rattle.luks_commands.specs.Headline.{RunsAsSpecified};
ghost use Rattle.luks_commands.specs.Unlocking.{CountsUnlocking, EndsLocked, Unlocks};

use luks_header::area::HeaderArea;
use luks_io::memory::MemSource;
use luks_io::sink::{Sink, put_all};
use luks_io::source::Source;
use luks_kdf::Work;
use luks_open::allowed::pbkdf2_alone;
use luks_open::derive::Pbkdf2Alone;
use luks_open::fault::VolumeFault;
use luks_open::found::{FoundVolume, find_volume};
use luks_open::key_file::read_key_file;
use luks_open::location::HeaderLocation;
use luks_open::trying::try_slots;
use luks_open::unlocked::UnlockedVolume;
use luks_report::message::Message;
use luks_report::volume_opened::opened_text;
use luks_request::command::{SlotChoice, VolumeArgs};
use luks_runs::write_payload::write_payload;
use std::alloc::Global;

/// An open volume, with the bytes that were consumed to open it.
#[derive(Drop)]
struct LoadedVolume {
    /// The first bytes of the image, or of the file with the detached header: all that were
    /// consumed.
    area: HeaderArea,
    volume: UnlockedVolume,
}

/// The loaded bytes of a volume's image. The rest of the found volume is dropped.
fn area_of(volume: FoundVolume) -> HeaderArea
    ensures { result ≡ volume.area }
{
    volume.area
}

/// Opens a volume by the passphrase in the key file. `image` is the image with an attached header,
/// or the file of a detached one.
fn unlock<I: Source, K: Source>(
    alloc: Global,
    location: HeaderLocation,
    slots: SlotChoice,
    image: &mut I,
    secret: &mut K,
    work: &mut Work,
) -> Result<LoadedVolume, VolumeFault>
    ensures ok { IfOk result (λ unlocked. IfKnown (I.to_come image.old) (λ known.
        IfKnown (K.to_come secret.old) (λ passphrase.
        Unlocks (record {
          location = location;
          slots = pbkdf2_alone slots;
          image = known;
          image' = I.to_come image.new;
          secret = passphrase;
          secret' = K.to_come secret.new;
        }) unlocked.volume.segment (opened_of unlocked.volume) unlocked.area.bytes))) }
    ensures err { IfErr result (λ fault. IfKnown (I.to_come image.old) (λ known.
        IfKnown (K.to_come secret.old) (λ passphrase.
        EndsLocked location (pbkdf2_alone slots) known passphrase (message_for_volume fault)
        (I.to_come image.new) (K.to_come secret.new)))) }
    ensures without_argon2 { IfErr result FaultWithoutArgon2 }
    ensures unneeded { IfKnown (I.to_come image.old) (λ known.
        is_err (volume_by (reader_for location) (pbkdf2_alone slots) known) ≡ true
        → secret.new ≡ secret.old) }
    ensures counts { CountsReads ReadsOnce (has_fault is_read_failure result)
        (record { before = I.counts image.old; after = I.counts image.new })
        (record { before = K.counts secret.old; after = K.counts secret.new }) }
    ensures work { CountsUnlocking location (pbkdf2_alone slots) result
        (record {
          image = record { before = I.to_come image.old; after = I.to_come image.new };
          passphrase = K.to_come secret.old;
          key_file = record { before = K.counts secret.old; after = K.counts secret.new };
          work = record { before = work.old; after = work.new };
        }) }
    ensures loaded { IfOk result (λ unlocked. LoadedFrom unlocked.area (I.to_come image.old)
        (I.to_come image.new) (I.counts image.old) (I.counts image.new)) }
{
    let mut volume = find_volume(alloc, location, pbkdf2_alone(slots), image)?;
    let passphrase = read_key_file(alloc, secret)?;
    let opened = try_slots(&mut volume, image, &mut Pbkdf2Alone, &passphrase, work)?;
    Ok(LoadedVolume {
        area: area_of(volume),
        volume: opened,
    })
}

/// Writes the line about the key slot that opened a volume.
fn write_opened_line<O: Sink>(alloc: Global, slot: u8, out: &mut O) -> Result<(), Message>
    ensures written { Prints (opened_line slot) Message.Done (O.written out.old)
        (O.written out.new) (result_message result) }
    ensures writes { Writes (is_run_write_failure (result_message result))
        (O.counts out.old) (O.counts out.new) }
{
    let line = opened_text(alloc, slot)?;
    put_all(out, line.as_bytes())?;
    Ok(())
}

/// `testPassphrase`.
pub(super) fn test_passphrase<I: Source, K: Source, O: Sink>(
    alloc: Global,
    location: HeaderLocation,
    slots: SlotChoice,
    image: &mut I,
    secret: &mut K,
    out: &mut O,
    work: &mut Work,
) -> Result<(), Message>
    ensures run { IfKnown (I.to_come image.old)
        (λ known. IfKnown (K.to_come secret.old) (λ passphrase.
        RunMatches (AbortedOpening location (pbkdf2_alone slots) known)
        (volume_outcome_by (reader_for location) (slot_outcome passphrase)
        (pbkdf2_alone slots) known passphrase) (result_message result)
        (ConsumedExactly known (I.to_come image.new))
        (ConsumedExactly passphrase (K.to_come secret.new))
        (Appended (O.written out.old) (O.written out.new)))) }
    ensures unneeded { IfKnown (I.to_come image.old) (λ known.
        is_err (volume_by (reader_for location) (pbkdf2_alone slots) known) ≡ true
        → secret.new ≡ secret.old) }
    ensures only { CommandOpeningMessage (result_message result)
        ⊎ (result_message result ≡ Message.Done ⊎ result_message result ≡ Message.WriteFailed) }
    ensures reads_first { result_message result ≡ Message.ReadFailed → out.new ≡ out.old }
    ensures work { CountsOpening location (pbkdf2_alone slots) (result_message result)
        (record {
          image = record { before = I.to_come image.old; after = I.to_come image.new };
          passphrase = K.to_come secret.old;
          key_file = record { before = K.counts secret.old; after = K.counts secret.new };
          work = record { before = work.old; after = work.new };
        }) }
    ensures counts { CountsReads ReadsOnce (is_run_read_failure (result_message result))
        (record { before = I.counts image.old; after = I.counts image.new })
        (record { before = K.counts secret.old; after = K.counts secret.new }) }
    ensures writes { Writes (is_run_write_failure (result_message result))
        (O.counts out.old) (O.counts out.new) }
{
    let unlocked = unlock(alloc, location, slots, image, secret, work)?;
    write_opened_line(alloc, unlocked.volume.slot, out)
}

/// Writes the plaintext of an open volume's payload. `loaded` holds the first bytes of its image.
///
/// It is not inlined. `cat` calls it for several types of sources, and a stack with all frames may
/// not fit into a limited address space (`tests/test_memory.py`).
#[inline(never)]
fn write_plain<I: Source, O: Sink>(
    volume: &UnlockedVolume,
    loaded: &[u8],
    image: &mut I,
    out: &mut O,
) -> Result<(), Message>
    ensures run { ForwardsLoaded volume.now.segment (volume.now.segment.mode, volume.now.key)
        loaded.now (I.to_come image.old) (I.to_come image.new) (O.written out.old)
        (O.written out.new) (result_message result) }
    ensures only { PayloadMessage (result_message result) }
    ensures reads { (ended : Bool) × Reads (is_run_read_failure (result_message result)) ended
        (with_payload_allowed volume.now.segment (I.counts image.old)) (I.counts image.new) }
    ensures writes { Writes (is_run_write_failure (result_message result))
        (O.counts out.old) (O.counts out.new) }
{
    write_payload(volume.segment, volume.cipher(), loaded, image, out)
}

/// `luksCat`. `header` is the image with an attached header, or the file of a detached one; then
/// the payload is in `image`.
pub(super) fn cat<H: Source, I: Source, K: Source, O: Sink>(
    alloc: Global,
    location: HeaderLocation,
    args: &VolumeArgs<'_>,
    header: &mut H,
    image: &mut I,
    secret: &mut K,
    out: &mut O,
    work: &mut Work,
) -> Result<(), Message>
    ensures only { CommandOpeningMessage (result_message result)
        ⊎ PayloadMessage (result_message result) }
    ensures run { RunsAsSpecified (luks_cat (volume_request args.now)) location
        (result_message result)
        (record {
          input = record { before = H.to_come header.old; after = H.to_come header.new };
          payload = record { before = I.to_come image.old; after = I.to_come image.new };
          secret = record { before = K.to_come secret.old; after = K.to_come secret.new };
          output = record { before = O.written out.old; after = O.written out.new };
        }) }
    ensures unneeded { IfKnown (H.to_come header.old) (λ known.
        is_err (volume_by (reader_for location) (pbkdf2_alone args.now.slots) known) ≡ true
        → secret.new ≡ secret.old) }
    ensures work { CountsOpening location (pbkdf2_alone args.now.slots) (result_message result)
        (record {
          image = record { before = H.to_come header.old; after = H.to_come header.new };
          passphrase = K.to_come secret.old;
          key_file = record { before = K.counts secret.old; after = K.counts secret.new };
          work = record { before = work.old; after = work.new };
        }) }
    ensures before_key { EndsWithoutKey (result_message result) → image.new ≡ image.old }
    ensures calls { CountsCalls location
        (ReadsPayload (CatAllows location (pbkdf2_alone args.now.slots) (result_message result)
        (H.to_come header.old) (K.to_come secret.old)))
        (result_message result)
        (record {
          input = record { before = H.counts header.old; after = H.counts header.new };
          payload = record { before = I.counts image.old; after = I.counts image.new };
          secret = record { before = K.counts secret.old; after = K.counts secret.new };
          output = record { before = O.counts out.old; after = O.counts out.new };
        }) }
{
    let unlocked = unlock(alloc, location, args.slots, header, secret, work)?;
    match location {
        HeaderLocation::Detached => write_plain(&unlocked.volume, &[], image, out),
        HeaderLocation::Attached => {
            let loaded = unlocked.area.as_slice();
            if unlocked.area.has_ended() {
                // EOF was hit on the image: all of it is loaded, and it is not read again.
                return write_plain(&unlocked.volume, loaded, &mut MemSource::new(&[]), out);
            }
            write_plain(&unlocked.volume, loaded, header, out)
        }
    }
}
