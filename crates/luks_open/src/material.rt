//! Key material: the stripes of a volume key, encrypted in sectors of 512 bytes that are numbered
//! from the material's start.

ghost use Rattle.std.specs.Prelude.{◌≡◌, ◌+◌, ◌*◌, ◌/◌, ◌%◌, ◌≤◌, ◌++◌, List, ℕ, true, length};
ghost use Rattle.std.specs.Prelude.{take};
ghost use Rattle.luks_cipher.specs.Sector.{is_key_length};
ghost use Rattle.luks_kdf.specs.Bytes.{joined};
ghost use Rattle.luks_kdf.specs.declared.hash.Hash.{Hash as AnyHash};
ghost use Rattle.luks_kdf.specs.Stripes.{splitter_after};
ghost use Rattle.luks_format.specs.Rule.{key_material_len};
ghost use Rattle.luks_open.specs.Candidate.{material_sector, recovered};

use luks_cipher::SectorCipher;
use luks_kdf::{AfSplitter, Hash};

/// The length of a sector of key material.
const SECTOR: usize = 512;

/// The length of two of them.
const PAIR: usize = 1024;

// Decrypts one or two sectors of the key material from `offset` on, the first of which has this
// number.
fn decrypt_sectors(
    key: &SectorCipher,
    image: &[u8],
    offset: usize,
    number: usize,
    sectors: &mut [u8],
)
    requires whole { length sectors.old % 512 ≡ 0 }
    requires there { offset + 512 * number + length sectors.old ≤ length image.now }
    ensures { sectors.new
        ≡ joined (λ i. material_sector key.now image.now offset (number + i))
        (length sectors.old / 512) }
{
    let start = offset + SECTOR * number;
    sectors.copy_from_slice(&image[start..start + sectors.len()]);
    key.decrypt_units(number as u64, SECTOR, sectors);
}

// Absorbs `count` stripes of `len` bytes, none of which is the last.
fn absorb_stripes(splitter: &mut AfSplitter, stripes: &[u8], len: usize, count: usize)
    requires len { length splitter.old.block ≡ len }
    requires there { count * len ≤ length stripes.now }
    ensures absorbed { (hash : AnyHash) (before : List ℕ) (number : ℕ)
        → length before ≡ number * len
        → splitter.old ≡ splitter_after hash len before number
        → splitter.new
        ≡ splitter_after hash len (before ++ take (count * len) stripes.now) (number + count) }
    ensures len { length splitter.new.block ≡ len }
{
    'stripes: for i in 0..count {
        splitter.stripe(&stripes[i * len..i * len + len]);
    }
}

// The length of the sectors that have the last `len` bytes: one sector or two.
fn last_len(len: usize) -> usize
    requires { len ≤ 1024 }
    ensures { result ≡ (len + 511) / 512 * 512 }
{
    len.div_ceil(SECTOR) * SECTOR
}

// Merges the stripes in the key material into the key that they hold, as `recover` below does. It
// decrypts two sectors at a time into `sectors`, as long as stripes before the last one fill them.
fn recover_by(
    af: Hash,
    key: &SectorCipher,
    image: &[u8],
    offset: usize,
    stripes: usize,
    sectors: &mut [u8],
    out: &mut [u8],
)
    requires capacity { length sectors.old ≡ 1024 }
    requires key_bytes { is_key_length (length out.old) ≡ true }
    requires some { 1 ≤ stripes }
    requires few { stripes ≤ 4000 }
    requires there { offset + key_material_len (length out.old) stripes ≤ length image.now }
    ensures { out.new ≡ recovered af key.now image.now offset (length out.old) stripes }
{
    let len = out.len();
    let in_pair = PAIR / len;
    let before_last = stripes - 1;
    let pairs = before_last / in_pair;
    let rest = before_last % in_pair;
    let mut splitter = AfSplitter::new(af, len);
    'pairs: for i in 0..pairs {
        decrypt_sectors(key, image, offset, 2 * i, sectors);
        absorb_stripes(&mut splitter, sectors, len, in_pair);
    }
    let sectors = &mut sectors[..last_len(rest * len + len)];
    decrypt_sectors(key, image, offset, 2 * pairs, sectors);
    absorb_stripes(&mut splitter, sectors, len, rest);
    splitter.last(&sectors[rest * len..rest * len + len], out);
}

/// Decrypts the key material from `offset` on, and writes the key that its stripes hold. Each
/// stripe is as long as `out`.
pub(crate) fn recover(
    af: Hash,
    key: &SectorCipher,
    image: &[u8],
    offset: usize,
    stripes: usize,
    out: &mut [u8],
)
    requires key_bytes { is_key_length (length out.old) ≡ true }
    requires some { 1 ≤ stripes }
    requires few { stripes ≤ 4000 }
    requires there { offset + key_material_len (length out.old) stripes ≤ length image.now }
    ensures { out.new ≡ recovered af key.now image.now offset (length out.old) stripes }
{
    let mut sectors = [0; PAIR];
    recover_by(af, key, image, offset, stripes, &mut sectors, out);
}
