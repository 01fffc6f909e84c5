//! Any part of a volume's plaintext, for C: what `c/luksrd.h` declares.
//!
//! The structs are plain numbers that C keeps. A contract here is about the bytes behind the
//! pointers that C passes; the C caller must pass pointers as the header requires.
#![tactic(auto)]

ghost use Rattle.std.specs.Prelude.{◌≡◌, ◌≢◌, ◌+◌, ◌-◌, ◌*◌, ◌/◌, ◌%◌, ◌^◌, ◌<◌, ◌≤◌, List, ℕ};
ghost use Rattle.std.specs.Prelude.{if◌then◌else◌, drop, length, replicate, take};
ghost use Rattle.std.specs.Prelude.{false, nat_le, true, unwrap_or};
ghost use Rattle.luks_access.specs.Opens.{cipher_of, plaintext_of};
ghost use Rattle.luks_access.specs.Sectors.{AreStored, IsRangeOf, plain_at};
ghost use Rattle.luks_access.specs.Steps.{IsNextStep};
ghost use Rattle.luks_open.specs.declared.unlocked.UnlockedVolume.{UnlockedVolume};
ghost use Rattle.luks_payload.specs.Plain.{ending_of, sector_len};
ghost use Rattle.luks_format.specs.SectorSize.{bytes_of};
ghost use Rattle.luks_format.specs.Area.{max_loaded_len};
ghost use Rattle.luks_access.specs.Keys.{headers_end};
ghost use Rattle.luks_c.specs.Keys.{AnswersComparing, AnswersOpeningByKey};
ghost use Rattle.luks_c.specs.Stored.{AnswersOpening, DecryptsAs, EndsAs, EndsIn, Filled};
ghost use Rattle.luks_c.specs.Stored.{Stores, StoresCode, decrypt_code, fault_bytes, is_range};
ghost use Rattle.luks_c.specs.Stored.{plaintext_len_in};
ghost use Rattle.luks_c.specs.Steps.{Finishes, IsNoCipher, IsNoStep, IsPrepared, Plans};
ghost use Rattle.luks_c.specs.Steps.{finish_code, plan_code, prepare_code, step_in};

use crate::cipher::{LuksrdCipher, prepare};
use crate::code::{BAD_RANGE, BAD_VOLUME, OK, answer_code, answer_message};
use crate::message::LuksrdMessage;
use crate::open_volume::{compare_key, open_by_key, open_volume};
use crate::options::LuksrdOptions;
use crate::step::LuksrdStep;
use crate::volume::LuksrdVolume;
use crate::wiping::{wiped_after_opening, wiped_after_preparing};
use luks_access::headers::headers_end;
use luks_access::sectors::{decrypt_sectors, payload_ending, plaintext_len};
use luks_access::step::{finish, plan};
use luks_format::sector_size::SectorSize;
use luks_payload::fault::PayloadFault;
use luks_report::message::Message;
use std::alloc::Global;

pub mod cipher;
mod code;
pub mod message;
mod open_volume;
pub mod options;
pub mod step;
pub mod volume;
mod wiping;

/// The version of this library: major * 65536 + minor * 256 + patch.
const VERSION: u32 = 0x0001_0300;

/// The number of an image's first bytes that decide everything about opening.
const HEADER_BYTES: u64 = 33_554_432;

/// Opens a volume by a passphrase, from the first bytes of its image or of its detached header.
///
/// `luksCat` opens each image with these first 33,554,432 bytes in the same way.
#[unsafe(no_mangle)]
pub extern "C" fn luksrd_open(
    alloc: Global,
    header: &[u8],
    passphrase: &[u8],
    options: &LuksrdOptions,
    volume: &mut LuksrdVolume,
    message: &mut LuksrdMessage,
) -> u32
    ensures { AnswersOpening options.now header.now passphrase.now
        result volume.new message.new }
{
    wiped_after_opening(open_volume(alloc, header, passphrase, options, volume, message))
}

/// Compares a volume key with the digest in a header, from the first bytes of its image or of the
/// file of a detached header.
#[unsafe(no_mangle)]
pub extern "C" fn luksrd_check_key(
    alloc: Global,
    header: &[u8],
    key: &[u8],
    options: &LuksrdOptions,
    message: &mut LuksrdMessage,
) -> u32
    ensures { AnswersComparing options.now header.now key.now result message.new }
{
    wiped_after_opening(compare_key(alloc, header, key, options, message))
}

/// Opens a volume by a volume key that is known, from the first bytes of its image or of its
/// detached header: as `luksrd_check_key`, and if the key matches, the volume is filled.
#[unsafe(no_mangle)]
pub extern "C" fn luksrd_open_by_key(
    alloc: Global,
    header: &[u8],
    key: &[u8],
    options: &LuksrdOptions,
    volume: &mut LuksrdVolume,
    message: &mut LuksrdMessage,
) -> u32
    ensures { AnswersOpeningByKey options.now header.now key.now
        result volume.new message.new }
{
    wiped_after_opening(open_by_key(alloc, header, key, options, volume, message))
}

/// The number of first bytes of an image, or of the file of a detached header, that hold its
/// headers, or 33,554,432 if these first bytes of it do not say.
#[unsafe(no_mangle)]
pub extern "C" fn luksrd_header_len(header: &[u8]) -> u64
    ensures { result ≡ unwrap_or (headers_end header.now) max_loaded_len }
{
    headers_end(header).unwrap_or(HEADER_BYTES)
}

/// The length in bytes of the volume's plaintext, if its payload's image has this length. It is 0
/// for a struct without a sector size, or that does not say whether the payload's length is fixed.
#[unsafe(no_mangle)]
pub extern "C" fn luksrd_len(volume: &LuksrdVolume, image_len: u64) -> u64
    ensures value { result ≡ plaintext_len_in volume.now image_len }
    ensures stored { (v : UnlockedVolume) (image : List ℕ) → Stores volume.now v
        → length image ≡ image_len
        → result ≡ length (plaintext_of v image) }
{
    let Some(sector_size) = volume::sector_size(volume) else {
        return 0;
    };
    let Some(size) = volume::size(volume) else {
        return 0;
    };
    plaintext_len(volume.offset, size, sector_size, image_len)
}

/// How the payload ends in an image of this length, if the struct has a sector size and says
/// whether the payload's length is fixed.
#[unsafe(no_mangle)]
pub extern "C" fn luksrd_ending(
    volume: &LuksrdVolume,
    image_len: u64,
    bytes: &mut u64,
    message: &mut LuksrdMessage,
) -> u32
    ensures value { EndsIn volume.now image_len result bytes.new message.new }
    ensures stored { (v : UnlockedVolume) (image : List ℕ) → Stores volume.now v
        → length image ≡ image_len
        → EndsAs (ending_of v.segment image) result bytes.new message.new }
{
    *bytes = 0;
    let Some(sector_size) = volume::sector_size(volume) else {
        return answer_code(BAD_VOLUME, message);
    };
    let Some(size) = volume::size(volume) else {
        return answer_code(BAD_VOLUME, message);
    };
    match payload_ending(volume.offset, size, sector_size, image_len) {
        Ok(_) => answer_message(&Message::Done, message),
        Err(fault) => {
            *bytes = fault_bytes(fault);
            answer_message(&Message::from(fault), message)
        }
    }
}

/// The number of bytes in an ending's message.
fn fault_bytes(fault: PayloadFault) -> u64
    ensures { result ≡ fault_bytes fault }
{
    match fault {
        PayloadFault::Tail(bytes) | PayloadFault::Short(bytes) => bytes,
        _ => 0,
    }
}

/// Whether `len` bytes are whole sectors of this size, from number `first` on, and the number after
/// that of the last one is below 2^64.
fn is_range(sector_size: SectorSize, first: u64, len: usize) -> bool
    ensures value { result ≡ is_range sector_size first len }
    ensures whole { result ≡ true → len % bytes_of sector_size ≡ 0 }
    ensures numbers { result ≡ true → first + len / bytes_of sector_size < 2 ^ 64 }
{
    let size = sector_size.bytes();
    len % size == 0 && (len / size) as u64 <= u64::MAX - first
}

/// Expands the keys of a volume. If the code is not 0, the struct is all zero.
#[unsafe(no_mangle)]
pub extern "C" fn luksrd_prepare(volume: &LuksrdVolume, cipher: &mut LuksrdCipher) -> u32
    ensures code { result ≡ prepare_code volume.now }
    ensures filled { (v : UnlockedVolume) → Filled volume.now v → result ≡ 0 }
    ensures volume { result ≡ 0 → cipher.new.volume ≡ volume.now }
    ensures prepared { result ≡ 0 → IsPrepared cipher.new }
    ensures cleared { result ≢ 0 → IsNoCipher cipher.new }
{
    wiped_after_preparing(prepare(volume, cipher))
}

/// The next step of reading `len` bytes of the plaintext from `offset` on. If the code is not 0,
/// the struct is all zero.
#[unsafe(no_mangle)]
pub extern "C" fn luksrd_plan(
    cipher: &LuksrdCipher,
    image_len: u64,
    offset: u64,
    len: u64,
    step: &mut LuksrdStep,
) -> u32
    ensures code { result ≡ plan_code cipher.now.volume image_len offset len }
    ensures plans { result ≡ 0 → Plans cipher.now.volume image_len offset len step.new }
    ensures stored { (v : UnlockedVolume) (image : List ℕ) → Stores cipher.now.volume v
        → length image ≡ image_len → result ≡ 0
        → IsNextStep v.segment (length (plaintext_of v image)) offset len (step_in step.new) }
    ensures within { (v : UnlockedVolume) (image : List ℕ) → Stores cipher.now.volume v
        → length image ≡ image_len
        → result ≡ (if nat_le (offset + len) (length (plaintext_of v image)) then 0 else 17) }
    ensures cleared { result ≢ 0 → IsNoStep step.new }
{
    let Some(segment) = volume::segment(&cipher.volume) else {
        step.clear();
        return BAD_VOLUME;
    };
    let all = plaintext_len(segment.offset, segment.size, segment.sector_size, image_len);
    match plan(&segment, all, offset, len as usize) {
        Some(next) => {
            step.store(&next);
            OK
        }
        None => {
            step.clear();
            BAD_RANGE
        }
    }
}

/// Decrypts the bytes that a step has read, and moves those that the range gets to their beginning.
/// The bytes after them become zeros. If the code is not 0, the bytes are as they were.
#[unsafe(no_mangle)]
pub extern "C" fn luksrd_finish(cipher: &LuksrdCipher, step: &LuksrdStep, bytes: &mut [u8]) -> u32
    ensures value { result ≡ 0 → IsPrepared cipher.now
        → Finishes cipher.now.volume step.now bytes.old bytes.new }
    ensures stored { result ≡ 0 → IsPrepared cipher.now
        → (v : UnlockedVolume) (image : List ℕ) → Stores cipher.now.volume v
        → AreStored v.segment image step.now.first_sector bytes.old
        → IsRangeOf (plaintext_of v image)
        (step.now.first_sector * sector_len v.segment + step.now.skip)
        (take step.now.count bytes.new) }
    ensures rest { result ≡ 0 → drop step.now.count bytes.new
        ≡ replicate (length bytes.old - step.now.count) 0 }
    ensures kept { result ≢ 0 → bytes.new ≡ bytes.old }
    ensures code { result ≡ finish_code cipher.now.volume step.now (length bytes.old) }
{
    let Some(segment) = volume::segment(&cipher.volume) else {
        return BAD_VOLUME;
    };
    if !is_range(segment.sector_size, step.first_sector, bytes.len()) {
        return BAD_RANGE;
    }
    if !step.is_within(bytes.len()) {
        return BAD_RANGE;
    }
    finish(&segment, &cipher.keys, &step.stored(), bytes);
    clear_after(bytes, step.count as usize);
    OK
}

/// Fills the bytes after the first `count` with zeros.
fn clear_after(bytes: &mut [u8], count: usize)
    requires { count ≤ length bytes.old }
    ensures first { take count bytes.new ≡ take count bytes.old }
    ensures rest { drop count bytes.new ≡ replicate (length bytes.old - count) 0 }
{
    bytes[count..].fill(0);
}

/// Decrypts whole sectors in place, the first of which has this number. If the code is not 0, the
/// bytes are as they were.
#[unsafe(no_mangle)]
pub extern "C" fn luksrd_decrypt(cipher: &LuksrdCipher, first_sector: u64, bytes: &mut [u8]) -> u32
    ensures value { result ≡ 0 → IsPrepared cipher.now
        → DecryptsAs cipher.now.volume first_sector bytes.old bytes.new }
    ensures stored { result ≡ 0 → IsPrepared cipher.now
        → (v : UnlockedVolume) (image : List ℕ) → Stores cipher.now.volume v
        → AreStored v.segment image first_sector bytes.old
        → bytes.new ≡ plain_at v.segment (cipher_of v) image
        (first_sector * sector_len v.segment) (length bytes.old) }
    ensures kept { result ≢ 0 → bytes.new ≡ bytes.old }
    ensures code { result ≡ decrypt_code cipher.now.volume first_sector (length bytes.old) }
{
    let Some(segment) = volume::segment(&cipher.volume) else {
        return BAD_VOLUME;
    };
    if !is_range(segment.sector_size, first_sector, bytes.len()) {
        return BAD_RANGE;
    }
    decrypt_sectors(&segment, &cipher.keys, first_sector, bytes);
    OK
}

/// Fills the bytes with zeros.
#[unsafe(no_mangle)]
pub extern "C" fn luksrd_wipe(bytes: &mut [u8])
    ensures { bytes.new ≡ replicate (length bytes.old) 0 }
{
    bytes.fill(0);
}

/// The status and the sentence of a number alone.
#[unsafe(no_mangle)]
pub extern "C" fn luksrd_status_text(code: u32, message: &mut LuksrdMessage)
    ensures { StoresCode message.new code }
{
    answer_code(code, message);
}

/// The version of this library.
#[unsafe(no_mangle)]
pub extern "C" fn luksrd_version() -> u32
    ensures { result ≡ 1 * 65536 + 3 * 256 }
{
    VERSION
}
