//! Discarding the bytes before the payload, and forwarding one sector of it.

ghost use Rattle.std.specs.Prelude.{◌≡◌, ◌-◌, ◌%◌, ◌<◌, ◌≤◌, ◌⊎◌, IfOk, IfErr, OnOk, length};
ghost use Rattle.luks_io.specs.Devices.{ConsumedExactly, ConsumedFewer, IfKnown, is_short_read};
ghost use Rattle.luks_io.specs.Counts.{Reads, Writes};
ghost use Rattle.luks_payload.specs.PumpEffects.{AbortsDiscarding, BeginsWith, FilledSector};
ghost use Rattle.luks_payload.specs.PumpEffects.{SectorEffect, is_cut_before_payload};
ghost use Rattle.luks_payload.specs.PumpEffects.{is_pump_read_failure, is_pump_write_failure};

use crate::decryption::Decryption;
use crate::fault::PayloadFault;
use luks_cipher::SectorCipher;
use luks_io::sink::{Sink, put_all};
use luks_io::source::{Source, fill};

/// Reads `count` bytes and discards them. `piece` buffers some of them at a time.
pub(crate) fn discard<S: Source>(
    source: &mut S,
    count: u64,
    piece: &mut [u8],
) -> Result<(), PayloadFault>
    requires { 0 < length piece.old }
    ensures ok { OnOk result (IfKnown (S.to_come source.old)
        (λ known. ConsumedExactly known (S.to_come source.new) count)) }
    ensures err { IfErr result (λ fault. IfKnown (S.to_come source.old)
        (λ known. AbortsDiscarding count known (S.to_come source.new) fault)) }
    ensures only { IfErr result
        (λ fault. (fault ≡ PayloadFault.CutBeforePayload) ⊎ (fault ≡ PayloadFault.Read)) }
    ensures reads { Reads (is_pump_read_failure result) (is_cut_before_payload result)
        (S.counts source.old) (S.counts source.new) }
{
    let mut remaining = count;
    'pieces: while remaining > 0 {
        let size = remaining.min(piece.len() as u64);
        if fill(source, &mut piece[..size as usize])? < size as usize {
            return Err(PayloadFault::CutBeforePayload);
        }
        remaining -= size;
    }
    Ok(())
}

/// Fills a sector with the bytes of `prefix`, and then with the next ones of the source. Returns
/// the number of bytes, which is less than the sector's only if the source is at its end.
fn fill_sector<S: Source>(
    prefix: &[u8],
    sector: &mut [u8],
    source: &mut S,
) -> Result<usize, PayloadFault>
    ensures most { IfOk result (λ got. got ≤ length sector.old) }
    ensures filled_sector { IfOk result (λ got. IfKnown (S.to_come source.old)
        (λ known. FilledSector (length sector.old) prefix.now known (S.to_come source.new)
        sector.new got)) }
    ensures begins { IfOk result (λ got. BeginsWith prefix.now sector.new) }
    ensures err { IfErr result (λ fault. IfKnown (S.to_come source.old)
        (λ known. ConsumedFewer known (S.to_come source.new)
        (length sector.old - length prefix.now))) }
    ensures only { IfErr result (λ fault. fault ≡ PayloadFault.Read) }
    ensures reads { Reads (is_pump_read_failure result) (is_short_read result (length sector.old))
        (S.counts source.old) (S.counts source.new) }
{
    let loaded = prefix.len().min(sector.len());
    sector[..loaded].copy_from_slice(&prefix[..loaded]);
    let got = fill(source, &mut sector[loaded..])?;
    Ok(loaded + got)
}

/// Consumes the sector with this data unit number, which starts with the bytes of `prefix`. Writes
/// its plaintext if it is whole. The sector is decrypted in the source if `prefix` is empty and the
/// source has all of it buffered, and otherwise in `sector`. Returns the number of bytes.
pub(crate) fn forward_sector<S: Source, O: Sink>(
    cipher: &SectorCipher,
    number: u64,
    prefix: &[u8],
    sector: &mut [u8],
    source: &mut S,
    sink: &mut O,
) -> Result<usize, PayloadFault>
    requires whole_blocks { length sector.old % 16 ≡ 0 }
    requires shortest { 16 ≤ length sector.old }
    requires longest { length sector.old ≤ 4096 }
    ensures forwards { SectorEffect cipher.now number (length sector.old) prefix.now result
        (S.to_come source.old) (S.to_come source.new) (O.written sink.old) (O.written sink.new)
        (sink.new ≡ sink.old) }
    ensures reads { Reads (is_pump_read_failure result) (is_short_read result (length sector.old))
        (S.counts source.old) (S.counts source.new) }
    ensures writes { Writes (is_pump_write_failure result)
        (O.counts sink.old) (O.counts sink.new) }
{
    // The bytes of `prefix` are not in the source: a sector that starts with them is filled in the
    // buffer.
    if prefix.is_empty() {
        let decryption = Decryption { cipher, number };
        if let Some(answer) = source.forward_buffered(sector.len(), &decryption, sink) {
            answer?;
            return Ok(sector.len());
        }
    }
    let got = fill_sector(prefix, sector, source)?;
    if got < sector.len() {
        return Ok(got);
    }
    cipher.decrypt_unit(number, sector);
    put_all(sink, sector)?;
    Ok(got)
}
