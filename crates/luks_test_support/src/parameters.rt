//! Parameters of small volumes of either format.

ghost use Rattle.std.specs.Prelude.{◌≡◌};

use luks_cipher::Mode;
use luks_format::sector_size::SectorSize;
use luks_kdf::Hash;
use luks_volume::parameters::{Seal1, Seal2, Slot1, Slot2};

/// The key of the volumes.
pub const KEY: &[u8] = b"a volume key has thirty-two byte";

/// The salt of the key's digest.
pub const SALT: [u8; 32] = [0x5a; 32];

/// Three random stripes.
const RANDOM: &[u8] = b"ninety-six bytes that nobody drew: they are only written down, once, \
    and serve as random stripes";

/// A key slot of LUKS1.
pub fn slot1(number: u32, salt: [u8; 32], passphrase: &'static [u8]) -> Slot1<'static>
    ensures number { result.number ≡ number }
    ensures salt { result.salt ≡ salt }
    ensures passphrase { result.passphrase.now ≡ passphrase.entry.now }
{
    Slot1 {
        number,
        iterations: 2,
        salt,
        passphrase,
        random: RANDOM,
    }
}

/// A volume of LUKS1.
pub fn parameters1<'a>(slots: &'a [Slot1<'a>], plain: &'a [u8]) -> Seal1<'a>
    ensures slots { result.slots.now ≡ slots.entry.now }
    ensures plain { result.plain.now ≡ plain.entry.now }
{
    Seal1 {
        hash: Hash::Sha256,
        mode: Mode::XtsPlain64,
        key: KEY,
        stripes: 4,
        payload_sectors: 72,
        uuid: b"a-uuid",
        digest_salt: SALT,
        digest_iterations: 3,
        slots,
        plain,
    }
}

/// A key slot of LUKS2.
pub fn slot2(number: u32, salt: [u8; 32], passphrase: &'static [u8]) -> Slot2<'static>
    ensures number { result.number ≡ number }
    ensures salt { result.salt ≡ salt }
    ensures passphrase { result.passphrase.now ≡ passphrase.entry.now }
{
    Slot2 {
        number,
        priority: 1,
        hash: Hash::Sha256,
        iterations: 2,
        salt,
        af_hash: Hash::Sha256,
        stripes: 4,
        passphrase,
        random: RANDOM,
    }
}

/// A volume of LUKS2.
pub fn parameters2<'a>(slots: &'a [Slot2<'a>], plain: &'a [u8]) -> Seal2<'a>
    ensures slots { result.slots.now ≡ slots.entry.now }
    ensures plain { result.plain.now ≡ plain.entry.now }
{
    Seal2 {
        hdr_size: 16_384,
        seqid: 7,
        uuid: b"a-uuid",
        label: b"a label",
        subsystem: b"",
        primary_salt: [0x71; 64],
        secondary_salt: [0x72; 64],
        mode: Mode::XtsPlain64,
        key: KEY,
        sector_size: SectorSize::B512,
        iv_tweak: 0,
        offset: 65_536,
        fixed: false,
        area_mode: Mode::XtsPlain64,
        area_key_size: 64,
        digest_hash: Hash::Sha256,
        digest_salt: SALT,
        digest_iterations: 3,
        slots,
        plain,
    }
}
