//! Detached headers.

use super::runs::{
    BEFORE, CAT, CAT_DETACHED, CUT, DONE, Ends, FINDINGS, Inputs, Left, NO_KEY, NOT_LUKS, OFFSET,
    TEST_DETACHED, TORN_511, check,
};
use super::tables::Output;
use super::volume::{
    AT_START, Changes, PASSPHRASE, PLAIN, USUAL_LEN, changed, payload_of, prefix2, usual,
};
use luks_test_support::bytes::at;
use std::process::Abort;

const CAT_1: &str = "luksCat --key-file f --header h --key-slot 1 i";

const DISABLED: &str = "1 luksrd: key slot 1 is disabled\n";

// The dump of a header whose payload starts at byte 0. The digest is by Python's hashlib.
const DUMP: &str = "\
Version: 1
UUID: a-uuid
Cipher: aes-xts-plain64
Hash: sha256
Payload offset: 0
Key bytes: 64
MK digest: b5ccc735b42e3cf20d376a189c2d68617781cab5
MK salt: d1d1d1d1d1d1d1d1d1d1d1d1d1d1d1d1d1d1d1d1d1d1d1d1d1d1d1d1d1d1d1d1
MK iterations: 1000
Slot 0: ENABLED iterations=1000 salt=5151515151515151515151515151515151515151515151515151515151515151 offset=8 stripes=4000
Slot 1: DISABLED
Slot 2: DISABLED
Slot 3: DISABLED
Slot 4: DISABLED
Slot 5: DISABLED
Slot 6: DISABLED
Slot 7: DISABLED
";

/// The part of a volume that a run gets as an input.
#[derive(Clone, Copy)]
enum Part {
    Nothing,
    /// The header and the key material, 260,096 bytes, with the payload at byte 0.
    Header,
    /// The payload, 1,536 bytes.
    Payload,
    /// The whole volume, whose payload does not start where the key material ends.
    Volume,
}

/// A volume, and a detached header for its payload.
#[derive(Clone, Copy)]
struct Parts<'a> {
    volume: &'a [u8],
    header: &'a [u8],
}

impl<'a> Parts<'a> {
    // The first `len` bytes of this part.
    fn of(&self, (part, len): (Part, usize)) -> &'a [u8] {
        match part {
            Part::Nothing => &[],
            Part::Header => at(self.header, 0, len),
            Part::Payload => at(payload_of(self.volume), 0, len),
            Part::Volume => at(self.volume, 0, len),
        }
    }
}

/// A line, the detached header and the image, the key file, what the run prints and reports, and
/// how many bytes of each input it leaves.
type Row<'a> = (
    &'a str,
    [(Part, usize); 2],
    &'a [u8],
    (Output, &'a str),
    Left,
);

const NOTHING: (Part, usize) = (Part::Nothing, 0);

const HEADER: (Part, usize) = (Part::Header, 260_096);

const PAYLOAD: (Part, usize) = (Part::Payload, 1536);

const VOLUME: (Part, usize) = (Part::Volume, USUAL_LEN);

const WHOLE: [(Part, usize); 2] = [HEADER, PAYLOAD];

const UNREAD: Left = (259_504, 1536, 13);

// The header and the key material have 260,096 bytes, and the payload has 1,536.
static ROWS: [Row<'static>; 15] = [
    // Lines that write nothing of the payload.
    (
        "isLuks --header h i",
        WHOLE,
        PASSPHRASE,
        (Output::Text(""), DONE),
        UNREAD,
    ),
    (
        "luksUUID --header h i",
        WHOLE,
        PASSPHRASE,
        (Output::Text("a-uuid\n"), DONE),
        UNREAD,
    ),
    (
        "luksDump --header h i",
        WHOLE,
        PASSPHRASE,
        (Output::Text(DUMP), DONE),
        UNREAD,
    ),
    (
        "luksCheck --header h i",
        WHOLE,
        PASSPHRASE,
        (Output::Text("clean\n"), DONE),
        UNREAD,
    ),
    (
        TEST_DETACHED,
        WHOLE,
        PASSPHRASE,
        (Output::Text("Key slot 0 opens the volume.\n"), DONE),
        (0, 1536, 0),
    ),
    (
        CAT_1,
        WHOLE,
        PASSPHRASE,
        (Output::Text(""), DISABLED),
        UNREAD,
    ),
    (
        CAT_DETACHED,
        [(Part::Header, 260_095), PAYLOAD],
        PASSPHRASE,
        (Output::Text(""), CUT),
        (0, 1536, 0),
    ),
    (
        CAT_DETACHED,
        [HEADER, (Part::Payload, 0)],
        PASSPHRASE,
        (Output::Text(""), DONE),
        (0, 0, 0),
    ),
    // The image is not read before the key is found, nor if the detached header is not a LUKS
    // header.
    (
        CAT_DETACHED,
        WHOLE,
        b"wrong",
        (Output::Text(""), NO_KEY),
        (0, 1536, 0),
    ),
    (
        CAT_DETACHED,
        [PAYLOAD, HEADER],
        PASSPHRASE,
        (Output::Text(""), NOT_LUKS),
        (0, 260_096, 13),
    ),
    // As an attached header, it is refused.
    (
        CAT,
        [NOTHING, HEADER],
        PASSPHRASE,
        (Output::Text(""), OFFSET),
        (0, 259_504, 13),
    ),
    (
        "luksCheck i",
        [NOTHING, HEADER],
        PASSPHRASE,
        (Output::Text("segment: offset\nslot 0: area\n"), FINDINGS),
        (0, 259_504, 13),
    ),
    // The payload is written, up to its last whole sector.
    (
        CAT_DETACHED,
        WHOLE,
        PASSPHRASE,
        (Output::Plain(1536), DONE),
        (0, 0, 0),
    ),
    (
        CAT_DETACHED,
        [HEADER, (Part::Payload, 1535)],
        PASSPHRASE,
        (Output::Plain(1024), TORN_511),
        (0, 0, 0),
    ),
    // A volume can also be its own detached header.
    (
        CAT_DETACHED,
        [VOLUME, VOLUME],
        PASSPHRASE,
        (Output::Plain(1536), DONE),
        (USUAL_LEN - 260_096, 0, 0),
    ),
];

fn check_row<'a>(
    rt: &(impl Abort + AllocGlobal),
    parts: &Parts<'a>,
    (line, [header, image], secret, (output, reported), left): Row<'a>,
) {
    let inputs: Inputs<'_> = [parts.of(header), parts.of(image), secret];
    check(rt, line, inputs, (output.bytes(), reported), left)
}

fn check_parts(rt: &(impl Abort + AllocGlobal), parts: &Parts<'_>) {
    for row in &ROWS {
        check_row(rt, parts, *row);
    }
}

#[test]
fn a_header_may_be_detached(rt: HostRuntime) {
    let volume = usual(&rt);
    let header = changed(&rt, &volume, 260_096, AT_START);
    let parts = Parts {
        volume: &volume,
        header: &header,
    };
    check_parts(&rt, &parts)
}

const SHORT: &str = "4 luksrd: image ends 512 bytes before the segment does\n";

const CLEAN: Ends<'static> = (b"clean\n", DONE);

const ONE_FINDING: Ends<'static> = (b"segment: offset\n", FINDINGS);

/// The payload's offset and size as a LUKS2 header has them, how many bytes the image has before
/// the payload, how many bytes of the plaintext are written, what is reported, how many bytes
/// remain, and the findings of a check of the header.
type SegmentRow = (
    (&'static str, &'static str),
    usize,
    (usize, &'static str),
    Left,
    Ends<'static>,
);

static SEGMENTS: [SegmentRow; 6] = [
    (("0", "dynamic"), 0, (1536, DONE), (0, 0, 0), CLEAN),
    (("0", "1024"), 0, (1024, DONE), (0, 512, 0), CLEAN),
    (("0", "2048"), 0, (1536, SHORT), (0, 0, 0), CLEAN),
    (("1024", "dynamic"), 1024, (1536, DONE), (0, 0, 0), CLEAN),
    (("4096", "dynamic"), 1024, (0, BEFORE), (0, 0, 0), CLEAN),
    (
        ("100", "dynamic"),
        0,
        (0, OFFSET),
        (512, 1536, 13),
        ONE_FINDING,
    ),
];

// The image has the last `before` of the 1,024 bytes that precede the payload.
fn check_segment(
    rt: &(impl Abort + AllocGlobal),
    image: &[u8],
    ((offset, size), before, (written, reported), left, found): SegmentRow,
) {
    let header = prefix2(rt, offset, size);
    let image = at(image, 1024usize.saturating_sub(before), 2560);
    let inputs: Inputs<'_> = [header.as_slice(), image, PASSPHRASE];
    let ends = (at(&PLAIN, 0, written), reported);
    check(rt, CAT_DETACHED, inputs, ends, left);
    let left = (512, image.len(), 13);
    check(rt, "luksCheck --header h i", inputs, found, left)
}

// These bytes replace the 1,024 bytes before the payload, which starts at byte 2,097,152.
const FILLER: Changes = &[(2_096_128, &[0xee; 1024])];

#[test]
fn a_header_of_luks2_may_be_detached(rt: HostRuntime) {
    let volume = usual(&rt);
    let volume = changed(&rt, &volume, USUAL_LEN, FILLER);
    for row in &SEGMENTS {
        check_segment(&rt, at(&volume, 2_096_128, 2560), *row);
    }
}
