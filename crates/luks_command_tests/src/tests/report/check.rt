//! The findings in LUKS1 headers, and how a check reports them.

use super::fixture::check_findings;
use luks_io::memory::MemSink;
use luks_report::message::Message;
use luks_test_support::bytes::{put, put_numbers};
use std::process::Abort;

// The numbers of a header without key slots in use, and with a payload from sector 4096 on.
static NUMBERS: [(usize, u32); 11] = [
    (104, 4096),
    (108, 64),
    (164, 1000),
    (208, 0xdead),
    (256, 0xdead),
    (304, 0xdead),
    (352, 0xdead),
    (400, 0xdead),
    (448, 0xdead),
    (496, 0xdead),
    (544, 0xdead),
];

// Enables a key slot, with 1000 iterations, and 4000 stripes of 64 bytes from this sector on. The
// stripes are 500 sectors.
fn enable(bytes: &mut [u8], slot: u8, sector: u32) {
    let offset = 208 + 48 * usize::from(slot);
    let state = [(offset, 0x00ac_71f3), (offset + 4, 1000)];
    put_numbers(bytes, &state);
    put_numbers(bytes, &[(offset + 40, sector), (offset + 44, 4000)]);
}

// A header with these key slots in use, each with the first sector of its area, and with these
// other numbers.
fn header_of(
    rt: &(impl Abort + AllocGlobal),
    slots: &[(u8, u32)],
    numbers: &[(usize, u32)],
) -> Vec<u8> {
    let mut bytes = vec![in rt.alloc(); 0; 592].expect(rt, "memory");
    let header = bytes.as_mut_slice();
    put(header, 0, b"LUKS\xba\xbe\0\x01aes");
    put(header, 40, b"xts-plain64");
    put(header, 72, b"sha256");
    put_numbers(header, &NUMBERS);
    for (slot, sector) in slots {
        enable(header, *slot, *sector);
    }
    put_numbers(header, numbers);
    bytes
}

// The hash function's name ripemd160.
const RIPEMD: &[(usize, u32)] = &[(72, 0x7269_7065), (76, 0x6d64_3136), (80, 0x3000_0000)];

const MANY: &[(usize, u32)] = &[
    (496 + 4, 0),
    (352, 1),
    (72, 0x7269_7065),
    (76, 0x6d64_3136),
    (80, 0x3000_0000),
];

const SHARE: &str = "slots 3 and 5: areas overlap\n";

// Key slots in use, each with the first sector of its area; other numbers; and the findings. Slot i
// starts with its state, at 208 + 48 * i; its iterations are 4 bytes and its stripes 44 bytes after
// that. The number of iterations has no limit for a check. Areas that only touch share nothing; the
// last byte of the stripes counts up to the end of its sector; and only slots that can be tried
// overlap.
static ROWS: [(&[(u8, u32)], &[(usize, u32)], &str); 17] = [
    (&[], &[], ""),
    (&[(0, 8)], &[], ""),
    (&[(0, 8)], &[(208 + 4, 0xffff_ffff), (164, 0xffff_ffff)], ""),
    (&[(0, 8), (1, 508)], &[], ""),
    (&[(0, 508), (1, 8)], &[], ""),
    (&[(0, 8), (1, 3000)], &[], ""),
    (&[(0, 3000), (1, 8)], &[], ""),
    (&[(3, 8), (5, 507)], &[], SHARE),
    (&[(3, 507), (5, 8)], &[], SHARE),
    (&[(3, 8), (5, 8)], &[], SHARE),
    (&[(3, 300), (5, 301)], &[], SHARE),
    (&[(0, 8), (1, 9)], &[(208 + 44, 8)], ""),
    (
        &[(0, 8), (1, 9)],
        &[(208 + 44, 9)],
        "slots 0 and 1: areas overlap\n",
    ),
    (&[(0, 8), (1, 8)], &[(256, 0xdead)], ""),
    (&[(0, 8), (1, 8)], &[(256 + 44, 4001)], "slot 1: stripes\n"),
    (&[], RIPEMD, "segment: hash\n"),
    (
        &[(0, 8), (2, 8), (7, 8), (6, 1000)],
        MANY,
        "segment: hash\nslot 3: state\nslot 6: iterations\nslots 0 and 2: areas overlap\n\
         slots 0 and 7: areas overlap\nslots 2 and 7: areas overlap\n",
    ),
];

#[test]
fn what_is_found_in_a_header(rt: HostRuntime) {
    for (slots, numbers, wanted) in &ROWS {
        check_findings(&rt, &header_of(&rt, slots, numbers), wanted);
    }
}

#[test]
fn a_check_with_findings_ends_with_status_1(rt: HostRuntime) {
    assert!(rt; Message::Findings.status() == 1);
    let mut out = MemSink::new(rt.alloc(), 100).expect(&rt, "memory");
    assert!(rt; Message::Findings.print(&mut out).is_ok());
    assert!(rt; out.as_slice() == b"luksrd: the header has findings\n".as_slice());
}
