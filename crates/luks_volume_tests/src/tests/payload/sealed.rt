//! Sealed volumes, read at the offsets of the LUKS1 On-Disk Format Specification.

ghost use Rattle.std.specs.Prelude.{◌≡◌, length};

use super::fixture::{NEVER, run_pieces, sink_of};
use crate::tests::shared::{assert_of, counted};
use luks_cipher::{Mode, SectorCipher};
use luks_header::sector_size::SectorSize;
use luks_header::segment::Segment;
use luks_kdf::{Hash, Work, af_merge, pbkdf2};
use luks_payload::pump::Pump;
use luks_payload::state::Step;
use luks_test_support::bytes::at;
use luks_test_support::devices::{FlakySink, FlakySource};
use luks_test_support::parameters::{KEY, SALT, parameters1, slot1};
use luks_volume::luks1::seal1;
use std::process::Abort;

/// PBKDF2 of the key with SHA-256, 32 bytes 5a as salt and 3 iterations: Python's
/// hashlib.pbkdf2_hmac.
const DIGEST: &[u8] = &[
    0xad, 0xb4, 0xdc, 0x9a, 0xfc, 0x19, 0x7c, 0xd7, 0xd4, 0xb5, 0x85, 0x3d, 0x2c, 0x1a, 0xd4, 0x54,
    0x5a, 0xf1, 0x34, 0xdb,
];

const FIRST_SALT: [u8; 32] = [0x11; 32];

const SIXTH_SALT: [u8; 32] = [0x66; 32];

// Merges four stripes into the key.
fn merge(stripes: &[u8], key: &mut [u8])
    requires stripes { length stripes.now ≡ 128 }
    requires key { length key.old ≡ 32 }
{
    af_merge(Hash::Sha256, stripes, key);
}

// Decrypts an area of one sector.
fn decrypt(area_key: &[u8], area: &mut [u8])
    requires { length area.old ≡ 512 }
{
    if let Some(cipher) = SectorCipher::new(Mode::XtsPlain64, area_key) {
        cipher.decrypt_unit(0, area);
    }
}

// Merges the stripes in an area of one sector into the key.
fn open_area(area_key: &[u8], area: &mut [u8], key: &mut [u8])
    requires area { length area.old ≡ 512 }
    requires key { length key.old ≡ 32 }
{
    decrypt(area_key, area);
    merge(&area[..128], key);
}

// Whether the stripes at this offset hold the key for a passphrase, after two iterations.
fn opens(rt: &impl Abort, image: &[u8], offset: usize, salt: &[u8], pass: &[u8]) -> bool {
    let mut area_key = [0; 32];
    let mut work = Work::new(0);
    pbkdf2(Hash::Sha256, pass, salt, 2, &mut area_key, &mut work);
    let mut area = [0; 512];
    let found = at(image, offset, 512);
    assert!(rt; found.len() == 512);
    area.copy_from_slice(found);
    let mut key = [0; 32];
    open_area(&area_key, &mut area, &mut key);
    key.as_slice() == KEY
}

// Texts and numbers of the header, each with its offset.
static HEADER: [(usize, &[u8]); 16] = [
    (0, b"LUKS\xba\xbe\x00\x01aes"),
    (40, b"xts-plain64\x00"),
    (72, b"sha256\x00"),
    (104, b"\x00\x00\x00\x48\x00\x00\x00\x20"),
    (112, DIGEST),
    (132, &SALT),
    (164, b"\x00\x00\x00\x03"),
    (168, b"a-uuid\x00"),
    // The slots: state and iterations, then salt, offset and stripes.
    (208, b"\x00\xac\x71\xf3\x00\x00\x00\x02"),
    (216, &FIRST_SALT),
    (248, b"\x00\x00\x00\x08\x00\x00\x00\x04"),
    (256, b"\x00\x00\xde\xad\x00\x00\x00\x00"),
    (296, b"\x00\x00\x00\x10\x00\x00\x00\x04"),
    (448, b"\x00\xac\x71\xf3\x00\x00\x00\x02"),
    (488, b"\x00\x00\x00\x30\x00\x00\x00\x04"),
    (584, b"\x00\x00\x00\x40\x00\x00\x00\x04\x00\x00\x00\x00"),
];

// The payload of two sectors, which starts at byte 36,864, under the volume key.
fn payload(rt: &impl Abort) -> Pump<'static> {
    let segment = Segment::from_parts(
        Some(36_864),
        Some(None),
        Some(0),
        Some(SectorSize::B512),
        Some(Mode::XtsPlain64),
    );
    let segment = segment.expect(rt, "a segment");
    let cipher = SectorCipher::new(Mode::XtsPlain64, KEY).expect(rt, "a key");
    Pump::new(segment, cipher, 0)
}

// Whether the plaintext is written, and the image consumed to its end.
fn ends(
    pump: &mut Pump<'_>,
    source: &mut FlakySource<'_>,
    sink: &mut FlakySink,
    plain: &[u8],
) -> bool {
    let end = run_pieces(pump, source, sink);
    (end == (2, Ok(Step::End))) & (source.left() == 0) & (sink.as_slice() == plain)
}

// Whether further steps and skips report the same and call no device.
fn rests(pump: &mut Pump<'_>, source: &mut FlakySource<'_>, sink: &mut FlakySink) -> bool {
    let calls = [source.calls(), sink.calls()];
    let again = run_pieces(pump, source, sink);
    let is_skipped = pump.skip(source) == Ok(());
    (again == (0, Ok(Step::End))) & is_skipped & ([source.calls(), sink.calls()] == calls)
}

fn check_payload(rt: &(impl Abort + AllocGlobal), image: &[u8], plain: &[u8]) {
    let mut pump = payload(rt);
    let mut source = FlakySource::new(image, 5000, NEVER);
    let sink = sink_of(rt, 4096, 5000, NEVER);
    assert_of(rt, "end", ends(&mut pump, &mut source, sink, plain));
    assert_of(rt, "rest", rests(&mut pump, &mut source, sink));
}

fn sealed(rt: &(impl Abort + AllocGlobal), plain: &[u8]) -> &'static [u8] {
    let slots = [
        slot1(5, SIXTH_SALT, b"sixth"),
        slot1(0, FIRST_SALT, b"first"),
    ];
    let image = seal1(rt.alloc(), &parameters1(&slots, plain));
    image.expect(rt, "a volume").leak()
}

fn has_fields(image: &[u8], rows: &[(usize, &[u8])]) -> bool {
    let mut has = image.len() == 37_888;
    for (offset, bytes) in rows {
        has &= at(image, *offset, bytes.len()) == *bytes;
    }
    has
}

fn check_slots(rt: &impl Abort, image: &[u8]) {
    let is_first = opens(rt, image, 4096, &FIRST_SALT, b"first");
    let is_sixth = opens(rt, image, 24_576, &SIXTH_SALT, b"sixth");
    let is_other = opens(rt, image, 4096, &FIRST_SALT, b"sixth");
    assert_of(rt, "slots", is_first & is_sixth & !is_other);
}

#[test]
fn a_sealed_volume_has_its_fields_slots_and_payload(rt: HostRuntime) {
    let plain = counted(&rt, 1024);
    let image = sealed(&rt, plain);
    assert_of(&rt, "fields", has_fields(image, &HEADER));
    check_slots(&rt, image);
    check_payload(&rt, image, plain);
}
