//! The key file, whose bytes are the passphrase.

ghost use Rattle.std.specs.Prelude.{◌≡◌, ◌+◌, ◌≤◌, ◌⊎◌, ◌++◌, IfOk, IfErr, MatchResult, length};
ghost use Rattle.std.specs.Prelude.{false, min, nat_lt, take, vec_len};
ghost use Rattle.luks_io.specs.Devices.{ConsumedExactly, ConsumedAtMost, IfKnown};
ghost use Rattle.luks_io.specs.Counts.{Reads};
ghost use Rattle.luks_open.specs.Fault.{is_passphrase_read_failure};
ghost use Rattle.luks_open.specs.KeyFile.{NoKeyFileRead, ReadsKeyFile, max_key_file_len};

use crate::fault::PassphraseFault;
use luks_io::source::{Source, fill};
use std::alloc::Global;

/// The length of the longest key file.
const MAX_KEY_FILE_LEN: usize = 8_388_608;

/// How many bytes are read at once.
const PIECE: usize = 4096;

/// Reads the key file: all bytes of the source, including a newline at its end. If it is too long,
/// one byte more than the maximum length is consumed.
///
/// # Errors
///
/// [`PassphraseFault::TooLong`] for more than 8,388,608 bytes, [`PassphraseFault::Memory`],
/// [`PassphraseFault::Read`].
pub fn read_key_file<S: Source>(alloc: Global, source: &mut S) -> Result<Vec<u8>, PassphraseFault>
    ensures few { IfOk result (λ secret. vec_len secret ≤ max_key_file_len) }
    ensures ok { IfOk result (λ secret. IfKnown (S.to_come source.old)
        (λ known. (secret.items ≡ known) × ConsumedExactly known (S.to_come source.new)
        (length known))) }
    ensures err { IfErr result (λ fault. IfKnown (S.to_come source.old)
        (λ known. NoKeyFileRead known (S.to_come source.new) fault)) }
    ensures reads { ReadsKeyFile result (S.counts source.old) (S.counts source.new) }
{
    let mut buffer = [0; PIECE];
    let mut secret = Vec::new(alloc);
    'pieces: while secret.len() <= MAX_KEY_FILE_LEN {
        let size = PIECE.min(MAX_KEY_FILE_LEN + 1 - secret.len());
        if read_piece(&mut buffer[..size], &mut secret, source)? < size {
            return Ok(secret);
        }
    }
    Err(PassphraseFault::TooLong)
}

/// Appends the next piece of the key file to the bytes so far. Returns its length, which is less
/// than that of the buffer only at the end. The memory for the piece is allocated before it is
/// read. Therefore all of the key file was read if its end was hit.
fn read_piece<S: Source>(
    piece: &mut [u8],
    secret: &mut Vec<u8>,
    source: &mut S,
) -> Result<usize, PassphraseFault>
    requires { vec_len secret.old + length piece.old ≤ max_key_file_len + 1 }
    ensures size { IfOk result (λ got. got ≤ length piece.old) }
    ensures len { IfOk result (λ got. vec_len secret.new ≡ vec_len secret.old + got) }
    ensures ok { IfOk result (λ got. IfKnown (S.to_come source.old)
        (λ known. (got ≡ min (length piece.old) (length known))
        × ConsumedExactly known (S.to_come source.new) got
        × (secret.new.items ≡ secret.old.items ++ take got known))) }
    ensures err { IfErr result (λ _. IfKnown (S.to_come source.old)
        (λ known. ConsumedAtMost known (S.to_come source.new) (length piece.old))) }
    ensures only { IfErr result
        (λ fault. (fault ≡ PassphraseFault.Memory) ⊎ (fault ≡ PassphraseFault.Read)) }
    ensures reads { MatchResult result
        (λ got. Reads false (nat_lt got (length piece.old))
        (S.counts source.old) (S.counts source.new))
        (λ fault. Reads (is_passphrase_read_failure fault) false
        (S.counts source.old) (S.counts source.new)) }
{
    // A byte more than the longest key file has needs no memory.
    secret.reserve(
        piece
            .len()
            .min(MAX_KEY_FILE_LEN.saturating_sub(secret.len())),
    )?;
    let got = fill(source, piece)?;
    secret.extend_from_slice(&piece[..got])?;
    Ok(got)
}
