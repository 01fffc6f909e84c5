//! A volume of LUKS2 with slots of Argon2: which are tried within which limits, which slot each
//! passphrase opens, and how many blocks that fills.
//!
//! Derived keys are by the program `argon2` and Python's hashlib, key material by hashlib and the
//! package cryptography (AES in its mode XTS).

use hex::decode_to_slice;
use luks_access::options::Options;
use luks_access::volume::Volume;
use luks_access::{HeaderLocation, SlotChoice, VolumeFault};
use luks_header::area::HeaderArea;
use luks_header::derivation::{Argon2Limits, Limits};
use luks_header::header::{Header, read_header};
use luks_header::header_segment::segment;
use luks_header::refusal::SkipReason;
use luks_io::memory::MemSource;
use luks_kdf::Work;
use luks_open::fault::OpenFault;
use luks_open::opening::{Opened, Underived, open_by};
use luks_open::order::{Order, key_material_end};
use luks_open::ordering::{order, order_within};
use luks_open::with_argon2::WithArgon2;
use luks_test_support::header2::image_of;
use luks_test_support::scarce::Scarcity;
use std::process::Abort;

// | Slot | Derived by | Passes | KiB | Lanes | Priority | Passphrase |
// |---|---|---|---|---|---|---|
// | 0 | argon2id | 1 | 32 | 1 | 1 | first |
// | 1 | argon2i | 3 | 75 | 2 | 1 | second |
// | 2 | pbkdf2, 5 iterations | | | | 1 | third |
// | 3 | argon2id | 2 | 96 | 3 | 2 | fourth |
//
// Slot 1 fills 72 blocks in each pass: four for each lane, as often as they fit.
static PARTS: [&str; 18] = [
    "{'keyslots':{",
    "'0':{'type':'luks2','key_size':32,'af':{'type':'luks1','stripes':2,'hash':'sha256'},",
    "'area':{'type':'raw','offset':'32768','size':'512','encryption':'aes-xts-plain64',\
     'key_size':32},",
    "'kdf':{'type':'argon2id','time':1,'memory':32,'cpus':1,'salt':'c2FsdCBvZiBzbG90IDA='}},",
    "'1':{'type':'luks2','key_size':32,'af':{'type':'luks1','stripes':2,'hash':'sha256'},",
    "'area':{'type':'raw','offset':'33280','size':'512','encryption':'aes-xts-plain64',\
     'key_size':32},",
    "'kdf':{'type':'argon2i','time':3,'memory':75,'cpus':2,'salt':'c2FsdCBvZiBzbG90IDE='}},",
    "'2':{'type':'luks2','key_size':32,'af':{'type':'luks1','stripes':2,'hash':'sha256'},",
    "'area':{'type':'raw','offset':'33792','size':'512','encryption':'aes-xts-plain64',\
     'key_size':32},",
    "'kdf':{'type':'pbkdf2','hash':'sha256','iterations':5,'salt':'c2FsdCBvZiBzbG90IDI='}},",
    "'3':{'type':'luks2','key_size':32,'priority':2,'af':{'type':'luks1','stripes':2,\
     'hash':'sha256'},",
    "'area':{'type':'raw','offset':'34304','size':'512','encryption':'aes-xts-plain64',\
     'key_size':32},",
    "'kdf':{'type':'argon2id','time':2,'memory':96,'cpus':3,'salt':'c2FsdCBvZiBzbG90IDM='}}",
    "},'tokens':{},'segments':",
    "{'0':{'type':'crypt','offset':'65536','size':'dynamic','iv_tweak':'0',\
     'encryption':'aes-xts-plain64','sector_size':512}},'digests':{'0':{",
    "'type':'pbkdf2','keyslots':['0','1','2','3'],'segments':['0'],'hash':'sha256',\
     'iterations':3,",
    "'salt':'c2FsdCBvZiB0aGUgZGlnZXN0',\
     'digest':'CuPwjk45M4p0YGv5ccq4RnSM9LQrHh42k3cd87lsF/E='}},",
    "'config':{'json_size':'12288','keyslots_size':'32768'}}",
];

// The first 64 bytes of each slot's area: two stripes. What follows them is not looked at.
static AREAS: [&str; 4] = [
    "6b3ccdc19c226547bec8058c275cdb8f449926243ba9b0609cb94cdb61b47771\
     5a15a1d48383b7895fef6780f3eb70d7cc9288e44b86ee13cf02f0abc54b5b00",
    "87283b57ee1263ea31ee661c47ba32a3863637f1ba52d3ff01c69f236bf1ad06\
     dcb2f16bffba826464810b8aba67e4fa5df3f88aa536785dc456d53e727f8348",
    "27cd507842e6c00575ff1b96b3f7accd966be667fb36edabda52ce628ae264c5\
     120a0337acd3a31299cb7167ace7adfa5feb20342ccec7b18e24dd32c7c70b75",
    "801d7f870b201a4e73b04906453de53ff00832934d4d1f7ad5743d9b0903d04b\
     92d759c142422f1a779bcf3c97d37460fda8adcd55416c51e97904f18516eec7",
];

const KEY: &str = "22e46475321af7d4b697c0766f0650c2884d4b8c45d9ee542ecddacbd8982d90";

fn image(rt: &(impl Abort + AllocGlobal)) -> Vec<u8> {
    let text = PARTS.concat(rt.alloc()).expect(rt, "memory");
    let text = text.replace(rt.alloc(), '\'', "\"").expect(rt, "memory");
    let mut image = image_of(rt.alloc(), 1, 1, text.as_str()).expect(rt, "memory");
    image.resize(65_536, 0).expect(rt, "memory");
    for i in 0..AREAS.len() {
        let start = 32_768 + 512 * i;
        assert!(rt; start + 64 <= image.len());
        decode_to_slice(AREAS[i], &mut image[start..start + 64]).expect(rt, "an area");
    }
    image
}

// These limits on the memory and on the fill of a slot, in KiB.
fn within(memory_kib: u32, fill_kib: u64) -> Limits {
    Limits {
        max_iterations: None,
        argon2: Some(Argon2Limits {
            memory_kib,
            fill_kib,
        }),
    }
}

// The header with all key material, and the order within these limits.
fn read_order(
    rt: &(impl Abort + AllocGlobal),
    image: &[u8],
    named: Option<u8>,
    limits: Limits,
) -> (Header, HeaderArea, Order) {
    let mut source = MemSource::new(image);
    let (header, mut area) = read_header(rt.alloc(), &mut source).expect(rt, "a header");
    let order = order_within(rt.alloc(), &header, named, limits).expect(rt, "an order");
    let loaded = area.extend_to(&mut source, key_material_end(&order));
    assert!(rt; loaded == Ok(true) && segment(&header).is_ok());
    (header, area, order)
}

// A named slot, the limits in KiB, and the numbers of the slots that are tried.
static ORDERS: [(Option<u8>, (u32, u64), &[u8]); 9] = [
    (None, (96, 225), &[3, 0, 1, 2]),
    (None, (u32::MAX, u64::MAX), &[3, 0, 1, 2]),
    (None, (95, 225), &[0, 1, 2]),
    (None, (96, 224), &[3, 0, 2]),
    (None, (74, 225), &[0, 2]),
    (None, (96, 192), &[3, 0, 2]),
    (None, (96, 191), &[0, 2]),
    (None, (31, 32), &[2]),
    (Some(1), (75, 225), &[1]),
];

#[test]
fn slots_are_tried_within_the_limits(rt: HostRuntime) {
    let image = image(&rt);
    for (named, (memory_kib, fill_kib), want) in &ORDERS {
        let limits = within(*memory_kib, *fill_kib);
        let (_header, _area, order) = read_order(&rt, &image, *named, limits);
        let mut same = order.entries().len() == want.len();
        for (entry, number) in order.entries().iter().zip(want.iter()) {
            same = same & (entry.number == *number);
        }
        assert!(rt; same, "{named:?}, {memory_kib}, {fill_kib}");
    }
}

// A named slot, whether Argon2 is allowed, and why the slot is skipped.
static SKIPPED: [(u8, Option<(u32, u64)>, SkipReason); 6] = [
    (0, None, SkipReason::Argon2id),
    (1, None, SkipReason::Argon2i),
    (3, None, SkipReason::Argon2id),
    (0, Some((31, 32)), SkipReason::Argon2MemoryLimit(32)),
    (1, Some((75, 224)), SkipReason::Argon2FillLimit(225)),
    (3, Some((0, 0)), SkipReason::Argon2MemoryLimit(96)),
];

#[test]
fn a_named_slot_above_a_limit_is_skipped(rt: HostRuntime) {
    let image = image(&rt);
    let read = read_header(rt.alloc(), &mut MemSource::new(&image));
    let (header, _area) = read.expect(&rt, "a header");
    for (number, limits, reason) in &SKIPPED {
        let limits = match limits {
            Some((memory_kib, fill_kib)) => within(*memory_kib, *fill_kib),
            None => Limits::without_argon2(None),
        };
        let answer = order_within(rt.alloc(), &header, Some(*number), limits);
        let is_so = answer.err() == Some(OpenFault::NamedSkipped(*number, *reason));
        assert!(rt; is_so, "{number}, {reason:?}");
    }
}

// Without limits for Argon2 no slot that needs it is tried.
#[test]
fn the_order_without_argon2_is_that_of_pbkdf2_alone(rt: HostRuntime) {
    let image = image(&rt);
    let read = read_header(rt.alloc(), &mut MemSource::new(&image));
    let (header, _area) = read.expect(&rt, "a header");
    let order = order(rt.alloc(), &header, None, None).expect(&rt, "an order");
    let entries = order.entries();
    assert!(rt; entries.len() == 1 && entries[0].number == 2);
}

// A passphrase, a named slot, the limits, and whether memory is to be refused.
#[derive(Clone, Copy)]
struct Question<'a> {
    pass: &'a [u8],
    named: Option<u8>,
    limits: Limits,
    scarce: bool,
}

// How opening ends under a passphrase, by a named slot and these limits. If memory is to be refused,
// all of it is taken first.
fn opening(
    rt: &(impl Abort + AllocGlobal),
    image: &[u8],
    question: Question<'_>,
    derive: &mut WithArgon2,
    work: &mut Work,
) -> Result<Result<Opened, OpenFault>, Underived> {
    let pass = question.pass;
    assert!(rt; pass.len() < 100);
    let mut source = MemSource::new(image);
    let (header, mut area) = read_header(rt.alloc(), &mut source).expect(rt, "a header");
    let Ok(_) = segment(&header) else {
        panic!(rt; "the segment is refused");
    };
    let order = match order_within(rt.alloc(), &header, question.named, question.limits) {
        Ok(order) => order,
        Err(_) => panic!(rt; "no order"),
    };
    let Ok(true) = area.extend_to(&mut source, key_material_end(&order)) else {
        panic!(rt; "the image is cut");
    };
    let _scarcity = if question.scarce {
        Some(Scarcity::new(rt.alloc(), 400, 1100).expect(rt, "memory"))
    } else {
        None
    };
    open_by(derive, &header, &area, &order, pass, work)
}

fn is_key(rt: &(impl Abort + AllocGlobal), opened: &Opened) -> bool {
    let mut key = [0u8; 32];
    decode_to_slice(KEY, &mut key).expect(rt, "a key");
    opened.key.as_slice() == key.as_slice()
}

// A passphrase, a named slot, the slot that opens, the evaluations of HMAC and the filled blocks.
// The digest takes 3 evaluations for each slot, slot 2 takes 5 more. Slot 3 fills 192 blocks, slot 0
// 32, and slot 1 216.
static OPENINGS: [(&[u8], Option<u8>, Option<u8>, u128, u128); 8] = [
    (b"fourth", None, Some(3), 3, 192),
    (b"first", None, Some(0), 6, 224),
    (b"second", None, Some(1), 9, 440),
    (b"third", None, Some(2), 17, 440),
    (b"fifth", None, None, 17, 440),
    (b"second", Some(1), Some(1), 3, 216),
    (b"second", Some(0), None, 3, 32),
    (b"third", Some(2), Some(2), 8, 0),
];

#[test]
fn each_passphrase_opens_its_slot(rt: HostRuntime) {
    let image = image(&rt);
    let limits = within(u32::MAX, u64::MAX);
    for (pass, named, slot, evaluations, blocks) in &OPENINGS {
        let mut work = Work::new(0);
        let mut derive = WithArgon2::new(rt.alloc());
        let question = Question {
            pass,
            named: *named,
            limits,
            scarce: false,
        };
        let answer = opening(&rt, &image, question, &mut derive, &mut work);
        let opening = answer.ok().expect(&rt, "memory");
        let opens = match (&opening, slot) {
            (Ok(opened), Some(slot)) => opened.slot == *slot && is_key(&rt, opened),
            (Err(OpenFault::NoKey(skipped)), None) => skipped.as_slice().is_empty(),
            _ => false,
        };
        let counts = [work.count(), derive.filled_blocks()];
        assert!(rt;
            opens && counts == [*evaluations, *blocks],
            "{slot:?}: {counts:?}"
        );
    }
}

// A passphrase, what Argon2 may cost, and the slot that the library opens. Without Argon2 it opens
// slot 2 alone, as luksCat does.
static VOLUMES: [(&[u8], Option<(u32, u64)>, Option<u8>); 8] = [
    (b"first", Some((96, 225)), Some(0)),
    (b"second", Some((96, 225)), Some(1)),
    (b"third", Some((96, 225)), Some(2)),
    (b"fourth", Some((96, 225)), Some(3)),
    (b"second", Some((74, 225)), None),
    (b"fourth", Some((96, 191)), None),
    (b"third", None, Some(2)),
    (b"fourth", None, None),
];

#[test]
fn the_library_opens_volumes_within_the_limits(rt: HostRuntime) {
    let image = image(&rt);
    let mut key = [0u8; 32];
    decode_to_slice(KEY, &mut key).expect(&rt, "a key");
    for (pass, limits, slot) in &VOLUMES {
        let limits = match limits {
            Some((memory_kib, fill_kib)) => within(*memory_kib, *fill_kib),
            None => Limits::without_argon2(None),
        };
        let options = Options {
            location: HeaderLocation::Attached,
            slots: SlotChoice {
                named: None,
                max_iterations: None,
            },
            argon2: limits.argon2,
        };
        let mut source = MemSource::new(&image);
        let opens = match (
            Volume::open_from(rt.alloc(), &options, &mut source, pass),
            slot,
        ) {
            (Ok(volume), Some(slot)) => volume.slot() == *slot && volume.key() == key.as_slice(),
            (Err(VolumeFault::Slots(OpenFault::NoKey(_))), None) => true,
            _ => false,
        };
        assert!(rt; opens, "{slot:?}, {limits:?}");
    }
}

// The library counts the same, in the memory of the passphrase before.
#[test]
fn the_library_counts_what_opening_costs(rt: HostRuntime) {
    let image = image(&rt);
    let mut derive = WithArgon2::new(rt.alloc());
    for (pass, named, slot, evaluations, blocks) in &OPENINGS {
        let mut work = Work::new(0);
        let before = derive.filled_blocks();
        let options = Options {
            location: HeaderLocation::Attached,
            slots: SlotChoice {
                named: *named,
                max_iterations: None,
            },
            argon2: within(u32::MAX, u64::MAX).argon2,
        };
        let mut source = MemSource::new(&image);
        let answer = Volume::open_counted(
            rt.alloc(),
            &options,
            &mut source,
            pass,
            &mut derive,
            &mut work,
        );
        let opens = match (&answer, slot) {
            (Ok(volume), Some(slot)) => volume.slot() == *slot,
            (Err(VolumeFault::Slots(OpenFault::NoKey(_))), None) => true,
            _ => false,
        };
        let counts = [work.count(), derive.filled_blocks().saturating_sub(before)];
        assert!(rt;
            opens && counts == [*evaluations, *blocks],
            "{slot:?}: {counts:?}"
        );
    }
}

// The memory of one passphrase serves for the next, and what was counted stays.
#[test]
fn several_passphrases_share_one_memory(rt: HostRuntime) {
    let image = image(&rt);
    let mut work = Work::new(0);
    let mut derive = WithArgon2::new(rt.alloc());
    for pass in [b"x".as_slice(), b"fourth", b"y", b"fourth"] {
        let question = Question {
            pass,
            named: Some(3),
            limits: within(96, 192),
            scarce: false,
        };
        let answer = opening(&rt, &image, question, &mut derive, &mut work);
        let opening = answer.ok().expect(&rt, "memory");
        assert!(rt; opening.is_ok() == (pass == b"fourth".as_slice()));
    }
    assert!(rt; [work.count(), derive.filled_blocks()] == [12, 768]);
}

// Slot 3 comes first. Its memory is refused, and no other slot is tried.
#[test]
fn refused_memory_ends_opening(rt: HostRuntime) {
    let image = image(&rt);
    let mut work = Work::new(0);
    let mut derive = WithArgon2::new(rt.alloc());
    let question = Question {
        pass: b"first",
        named: None,
        limits: within(96, 225),
        scarce: true,
    };
    let answer = opening(&rt, &image, question, &mut derive, &mut work);
    let stop = answer.err().expect(&rt, "no memory");
    assert!(rt; [u32::from(stop.slot), stop.memory_kib] == [3, 96]);
    assert!(rt; [work.count(), derive.filled_blocks()] == [0, 0]);
}
