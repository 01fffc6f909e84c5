//! The commands on headers, over LUKS2.

use super::headers::PrintedText;
use super::runs::{FINDINGS, NOT_LUKS};
use super::tables::{HEADER_ROW, Output, Row, check_rows};
use luks_test_support::header2::{SIZE, image_of};
use std::process::Abort;

// One key slot, one digest, and a payload that follows both headers and the key material.
const JSON: &str = "{\"keyslots\":{\"7\":{\"type\":\"luks2\",\"key_size\":64,\
    \"af\":{\"type\":\"luks1\",\"stripes\":4000,\"hash\":\"sha256\"},\
    \"area\":{\"type\":\"raw\",\"offset\":\"32768\",\"size\":\"258048\",\
    \"encryption\":\"aes-xts-plain64\",\"key_size\":64},\
    \"kdf\":{\"type\":\"pbkdf2\",\"hash\":\"sha256\",\"iterations\":1000,\"salt\":\"AAAA\"}}},\
    \"segments\":{\"0\":{\"type\":\"crypt\",\"offset\":\"16777216\",\
    \"size\":\"dynamic\",\"iv_tweak\":\"0\",\"encryption\":\"aes-xts-plain64\",\
    \"sector_size\":512}},\
    \"digests\":{\"0\":{\"type\":\"pbkdf2\",\"keyslots\":[\"7\"],\"segments\":[\"0\"],\
    \"hash\":\"sha256\",\"iterations\":1500,\"salt\":\"AAAA\",\
    \"digest\":\"AAAAAAAAAAAAAAAAAAAAAAAAAAAAAAAAAAAAAAAAAAA=\"}}}";

const UUID: &str = "11111111-2222-3333-4444-555555555555\n";

const DUMP: &str = "Version: 2\nHeader: primary\nSequence: 258\nHeader size: 16384\n\
    UUID: 11111111-2222-3333-4444-555555555555\nLabel: a\\x5clabel\\xc3\\x0a~\nSubsystem: \n\
    Checksum: sha256\n\
    Slot 7: USABLE priority=1 kdf=pbkdf2 hash=sha256 iterations=1000 \
    offset=32768 size=258048\n\
    Segment 0: offset=16777216 size=dynamic iv=0 encryption=aes-xts-plain64 sector=512\n\
    Digest 0: USABLE hash=sha256 iterations=1500 bytes=32 keyslots=7 segments=0\n";

/// What each command prints of the image of `image2`.
pub(super) static PRINTED_TEXTS: [PrintedText; 4] = [
    ("isLuks i", "", false),
    ("luksUUID i", UUID, false),
    ("luksDump i", DUMP, false),
    ("luksCheck i", "clean\n", false),
];

/// An image with both headers and ten bytes after them.
pub(super) fn image2(rt: &(impl Abort + AllocGlobal)) -> Vec<u8> {
    let mut image = image_of(rt.alloc(), 258, 258, JSON).expect(rt, "memory for headers");
    image
        .resize(2 * SIZE + 10, 0)
        .expect(rt, "memory for an image");
    image
}

// A row with the first `len` bytes of the image, all of which are consumed, and how it ends.
macro_rules! cut {
    ($line:literal, $len:expr, $output:literal, $reported:ident) => {
        Row {
            lines: &[$line],
            len: $len,
            output: Output::Text($output),
            reported: $reported,
            ..HEADER_ROW
        }
    };
}

static CUTS: [Row<'static>; 7] = [
    cut!(
        "luksCheck i",
        SIZE,
        "secondary header: not valid\n",
        FINDINGS
    ),
    cut!(
        "luksCheck i",
        SIZE + 4096,
        "secondary header: not valid\n",
        FINDINGS
    ),
    cut!(
        "luksCheck i",
        2 * SIZE - 1,
        "secondary header: not valid\n",
        FINDINGS
    ),
    cut!("luksUUID i", 591, "", NOT_LUKS),
    cut!("luksUUID i", 4095, "", NOT_LUKS),
    cut!("luksUUID i", 4096, "", NOT_LUKS),
    cut!("luksUUID i", SIZE - 1, "", NOT_LUKS),
];

// An image that is truncated after its primary header still has that one; an image that is
// truncated within it has none.
#[test]
fn a_truncated_image_has_what_is_whole(rt: HostRuntime) {
    check_rows(&rt, &image2(&rt), &CUTS)
}
