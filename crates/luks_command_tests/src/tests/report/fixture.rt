//! The findings in a header.

use luks_header::header::{Header, read_header};
use luks_io::memory::MemSource;
use luks_report::check::check_text;
use luks_report::findings::findings;
use luks_report::message::Message;
use std::process::Abort;

/// The header of an image.
pub fn read(rt: &(impl Abort + AllocGlobal), image: &[u8]) -> Header {
    let read = read_header(rt.alloc(), &mut MemSource::new(image));
    let (header, _area) = read.expect(rt, "a header");
    header
}

/// Asserts that a text is the expected one.
pub fn assert_text(rt: &impl Abort, shown: &str, wanted: &str) {
    assert!(rt; shown == wanted, "{shown}, and not {wanted}");
}

/// The header of an image has these findings, and a check prints them and ends with the message for
/// them.
pub fn check_findings(rt: &(impl Abort + AllocGlobal), image: &[u8], wanted: &str) {
    let header = read(rt, image);
    let found = findings(rt.alloc(), &header).expect(rt, "memory");
    assert_text(rt, found.as_str(), wanted);
    let (shown, ending) = if wanted.is_empty() {
        ("clean\n", Ok(()))
    } else {
        (wanted, Err(Message::Findings))
    };
    let checked = check_text(rt.alloc(), &header).expect(rt, "memory");
    assert_text(rt, checked.0.as_str(), shown);
    assert!(rt; checked.1 == ending, "{shown}");
}
