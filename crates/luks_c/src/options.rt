//! How a volume is opened, as C passes it.

ghost use Rattle.std.specs.Prelude.{◌≡◌, IfSome, MatchOption, false, true};
ghost use Rattle.luks_c.specs.Keys.{are_bad_for_a_key};
ghost use Rattle.luks_c.specs.Stored.{AreOptions, are_bad, argon2_limits_in, is_of_this_version};
ghost use Rattle.luks_c.specs.Stored.{limit_in, or_default};
ghost use Rattle.luks_c.specs.Stored.{location_in, named_in, names_no_slot};

use luks_access::options::Options;
use luks_access::{HeaderLocation, SlotChoice};
use luks_header::derivation::Argon2Limits;

/// How a volume is opened.
#[repr(C)]
pub struct LuksrdOptions {
    /// The size of this struct in bytes.
    pub size: u32,
    /// Not 0: the bytes are those of a detached header.
    pub detached: u32,
    /// Not 0: only the key slot of number `key_slot` is tried.
    pub has_key_slot: u32,
    /// The number of the key slot, 0 to 31.
    pub key_slot: u32,
    /// The maximum number of iterations of a key slot and of a digest, or 0 for no limit.
    pub max_iterations: u32,
    /// The most memory that Argon2 may need for a key slot, in KiB, or 0 for 4,194,304.
    pub argon2_memory_kib: u32,
    /// The most memory that Argon2 may fill in all passes for a key slot, in MiB, or 0 for 65,536.
    pub argon2_fill_mib: u32,
    /// Not 0: key slots that need Argon2 are skipped.
    pub no_argon2: u32,
    /// Always 0.
    pub reserved: [u8; 32],
}

// Whether the struct is of this version: it has its size, and zeros in the reserved part.
fn is_of_this_version(options: &LuksrdOptions) -> bool
    ensures { result ≡ is_of_this_version options.now }
{
    options.size == 64 && options.reserved.as_slice() == [0; 32].as_slice()
}

// The key slot that is named, if any is, or `None` if its number is above 31.
fn named_slot(options: &LuksrdOptions) -> Option<Option<u8>>
    ensures { MatchOption result (names_no_slot options.now ≡ true) (λ slot.
        (names_no_slot options.now ≡ false) × (slot ≡ named_in options.now)) }
{
    if options.has_key_slot == 0 {
        return Some(None);
    }
    if options.key_slot <= 31 {
        Some(Some(options.key_slot as u8))
    } else {
        None
    }
}

// The limit on iterations, if there is one.
fn max_iterations(options: &LuksrdOptions) -> Option<u32>
    ensures { result ≡ limit_in options.now }
{
    if options.max_iterations == 0 {
        None
    } else {
        Some(options.max_iterations)
    }
}

// The number, or this one if it is 0.
fn or_default(number: u32, default: u32) -> u32
    ensures { result ≡ or_default number default }
{
    if number == 0 { default } else { number }
}

// What Argon2 may cost for a key slot, or `None` if key slots that need it are skipped.
fn argon2_limits(options: &LuksrdOptions) -> Option<Argon2Limits>
    ensures { result ≡ argon2_limits_in options.now }
{
    if options.no_argon2 != 0 {
        return None;
    }
    Some(Argon2Limits {
        memory_kib: or_default(options.argon2_memory_kib, 4_194_304),
        fill_kib: u64::from(or_default(options.argon2_fill_mib, 65_536)) * 1024,
    })
}

// Where the header is.
fn location(options: &LuksrdOptions) -> HeaderLocation
    ensures { result ≡ location_in options.now }
{
    if options.detached == 0 {
        HeaderLocation::Attached
    } else {
        HeaderLocation::Detached
    }
}

/// The options that C passes, or `None` if they name a key slot by a number above 31 or are of
/// another version.
pub(crate) fn options_in(options: &LuksrdOptions) -> Option<Options>
    ensures named { MatchOption result (are_bad options.now ≡ true)
        (λ _. are_bad options.now ≡ false) }
    ensures made { IfSome result (λ made. AreOptions options.now made) }
{
    if !is_of_this_version(options) {
        return None;
    }
    let named = named_slot(options)?;
    let location = location(options);
    let max_iterations = max_iterations(options);
    let argon2 = argon2_limits(options);
    Some(Options {
        location,
        slots: SlotChoice {
            named,
            max_iterations,
        },
        argon2,
    })
}

/// Where the header is that a volume key is compared with, and the limit on iterations, or `None`
/// if the options name a key slot or are of another version.
pub(crate) fn header_in(options: &LuksrdOptions) -> Option<(HeaderLocation, Option<u32>)>
    ensures { MatchOption result (are_bad_for_a_key options.now ≡ true)
        (λ header. (are_bad_for_a_key options.now ≡ false)
        × (header.0 ≡ location_in options.now) × (header.1 ≡ limit_in options.now)) }
{
    if !is_of_this_version(options) || options.has_key_slot != 0 {
        return None;
    }
    Some((location(options), max_iterations(options)))
}
