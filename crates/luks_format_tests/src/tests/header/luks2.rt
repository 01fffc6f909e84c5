//! Images of LUKS2, read whole: the binary header and its JSON text.

use super::fixture::{check_fault, read_from, verdicts};
use super::validation::has_digest;
use crate::tests::shared::assert_of;
use luks_header::derivation::Limits;
use luks_header::fault::HeaderFault;
use luks_header::header::{Header, HeaderRole, PairFinding};
use luks_header::header_segment::segment;
use luks_header::header_slots::verdict_kind;
use luks_header::refusal::SegmentFault;
use luks_io::memory::MemSource;
use luks_test_support::header2::{SIZE, empty_image, write_header};
use std::process::Abort;

const TEXT: &str = r#"{"keyslots":{},"segments":{},"digests":{}}"#;

// An image whose only header is a primary one with this text: zeros replace the secondary header,
// and 100 zeros follow it.
fn image_of(rt: &(impl Abort + AllocGlobal), json: &str) -> &'static mut [u8] {
    let mut image = empty_image(rt.alloc()).expect(rt, "an image");
    write_header(image.as_mut_slice(), 0, 7, json);
    image.resize(2 * SIZE + 100, 0).expect(rt, "an image");
    image.leak()
}

fn has_fields(header: &Header) -> bool {
    match header {
        Header::V2(second, _metadata) => {
            let uuid = b"11111111-2222-3333-4444-555555555555".as_slice();
            (second.role == HeaderRole::Primary)
                & (second.sequence == 7)
                & (second.uuid.as_bytes() == uuid)
                & (second.finding == Some(PairFinding::SecondaryNotValid))
        }
        Header::V1(_) => false,
    }
}

fn check_header(rt: &(impl Abort + AllocGlobal), header: &Header) {
    let fault = segment(header).err();
    assert_of(rt, "segment", fault == Some(SegmentFault::Segments));
    assert_of(
        rt,
        "slot 0",
        verdict_kind(header, Limits::without_argon2(None), 0).is_none(),
    );
    assert_of(rt, "digest", !has_digest(rt, header, 0));
    assert_of(rt, "slots", verdicts(rt, header, None).is_empty());
    assert_of(rt, "fields", has_fields(header));
}

// Both headers are read, and no more.
#[test]
fn a_header_of_luks2_is_read(rt: HostRuntime) {
    let mut source = MemSource::new(image_of(&rt, TEXT));
    let (header, area) = read_from(&rt, &mut source);
    check_header(&rt, header);
    assert_of(
        &rt,
        "lengths",
        [area.len(), source.left().len()] == [2 * SIZE, 100],
    );
}

static TEXTS: [&str; 4] = ["{", "[]", "", r#"{"keyslots":{},"segments":{}}"#];

#[test]
fn a_text_that_cannot_be_read_is_reported(rt: HostRuntime) {
    for text in &TEXTS {
        check_fault(&rt, image_of(&rt, text), HeaderFault::Json, 100);
    }
}

#[test]
fn a_damaged_header_is_not_luks(rt: HostRuntime) {
    let image = image_of(&rt, TEXT);
    assert!(rt; 5000 < image.len());
    image[5000] = b'x';
    check_fault(&rt, image, HeaderFault::NotLuks, 0);
}
