//! Forwarding the payload from the image to the output.

ghost use Rattle.std.specs.Prelude.{◌≡◌, ◌≤◌, ◌⊎◌, Bool, List, [], ℕ, Option, length, take};
ghost use Rattle.luks_runs.specs.Payload.{HitsPayloadEof, ForwardsLoaded, max_payload_end};
ghost use Rattle.luks_runs.specs.Payload.{with_payload_allowed};
ghost use Rattle.luks_runs.specs.RunMessages.{PayloadMessage};
ghost use Rattle.luks_runs.specs.Run.{is_run_read_failure, is_run_write_failure, result_message};
ghost use Rattle.luks_io.specs.Devices.{ConsumedExactly};
ghost use Rattle.luks_io.specs.Counts.{Reads, Writes};
ghost use Rattle.luks_payload.specs.PumpEffects.{PositionedIn, consumed_by};

use luks_cipher::SectorCipher;
use luks_header::segment::Segment;
use luks_io::sink::Sink;
use luks_io::source::Source;
use luks_payload::pump::Pump;
use luks_payload::state::{State, Step};
use luks_report::message::Message;

/// A pump for the payload of an image whose first bytes are loaded: those of them that are in the
/// payload are forwarded first. (It is not inlined, so that the stack has one copy of the cipher
/// less at once.)
#[inline(never)]
fn pump_after<'a>(segment: Segment, cipher: SectorCipher, loaded: &'a [u8]) -> Pump<'a>
    ensures segment { result.segment ≡ segment }
    ensures cipher { result.cipher ≡ cipher }
    ensures count { result.count ≡ 0 }
    ensures early { result.consumed_before ≤ segment.offset }
    ensures state { ((result.state ≡ State.BeforePayload) × (result.prefix ≡ []))
        ⊎ (result.state ≡ State.InPayload) }
    ensures consumed_to { consumed_by result ≡ length loaded.now }
    ensures positioned { (whole : List ℕ) (left : Option (List ℕ))
        → loaded.now ≡ take (length loaded.now) whole
        → ConsumedExactly whole left (length loaded.now)
        → PositionedIn whole result left }
{
    let consumed = loaded.len() as u64;
    if consumed <= segment.offset {
        return Pump::new(segment, cipher, consumed);
    }
    Pump::with_loaded(segment, cipher, &loaded[segment.offset as usize..])
}

/// The position in the image at which its payload ends. A payload without a fixed size ends with
/// the image, and may need all that an image can have.
fn payload_end(segment: &Segment) -> u64
    ensures { result ≡ max_payload_end segment.now }
{
    match segment.size {
        Some(size) => segment.offset.saturating_add(size),
        None => u64::MAX,
    }
}

/// Writes the plaintext of the payload of an image, whose first bytes are loaded: each sector as it
/// comes. Read-ahead is allowed up to the payload's end.
pub fn write_payload<I: Source, O: Sink>(
    segment: Segment,
    cipher: SectorCipher,
    loaded: &[u8],
    image: &mut I,
    out: &mut O,
) -> Result<(), Message>
    ensures run { ForwardsLoaded segment cipher loaded.now
        (I.to_come image.old) (I.to_come image.new)
        (O.written out.old) (O.written out.new) (result_message result) }
    ensures only { PayloadMessage (result_message result) }
    ensures reads { (ended : Bool)
        × Reads (is_run_read_failure (result_message result)) ended
        (with_payload_allowed segment (I.counts image.old)) (I.counts image.new)
        × HitsPayloadEof (result_message result) ended }
    ensures writes { Writes (is_run_write_failure (result_message result))
        (O.counts out.old) (O.counts out.new) }
{
    image.allow_read_ahead(payload_end(&segment));
    let mut pump = pump_after(segment, cipher, loaded);
    'sectors: for _ in 0..u64::MAX {
        match pump.step(image, out)? {
            Step::Sector => {}
            Step::End => return Ok(()),
        }
    }
    // No payload has 2^64 - 1 sectors.
    Ok(())
}
