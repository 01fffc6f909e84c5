//! Opening a volume by a passphrase or by its key, and comparing a volume key with a header.
//! Nothing here is inlined in the functions for C, which write over the stack that this uses.

ghost use Rattle.std.specs.Prelude.{◌≡◌, ◌≢◌, MatchOption};
ghost use Rattle.luks_c.specs.Keys.{AnswersComparing, AnswersOpeningByKey, IsOfKey, check_code};
ghost use Rattle.luks_c.specs.Stored.{AnswersOpening};

use crate::code::{BAD_OPTIONS, answer_code, answer_fault, answer_message, code_of_check};
use crate::message::LuksrdMessage;
use crate::options::{LuksrdOptions, header_in, options_in};
use crate::volume::LuksrdVolume;
use luks_access::key::{KeyCheck, check_key_from};
use luks_access::volume::Volume;
use luks_header::segment::Segment;
use luks_io::memory::MemSource;
use luks_report::message::Message;
use std::alloc::Global;

/// Opens a volume by a passphrase. If the code is not 0, the struct of the volume is all zero.
#[inline(never)]
pub(crate) fn open_volume(
    alloc: Global,
    header: &[u8],
    passphrase: &[u8],
    options: &LuksrdOptions,
    volume: &mut LuksrdVolume,
    message: &mut LuksrdMessage,
) -> u32
    ensures { AnswersOpening options.now header.now passphrase.now
        result volume.new message.new }
{
    let Some(options) = options_in(options) else {
        volume.clear();
        return answer_code(BAD_OPTIONS, message);
    };
    match Volume::open_from(alloc, &options, &mut MemSource::new(header), passphrase) {
        Ok(opened) => {
            volume.store(&opened.segment(), opened.slot(), opened.key());
            answer_message(&Message::Done, message)
        }
        Err(fault) => {
            volume.clear();
            answer_fault(fault, message)
        }
    }
}

/// The segment that belongs to a key that was compared with its header, if the key matches.
fn segment_if(check: KeyCheck, segment: Segment) -> Option<Segment>
    ensures { MatchOption result (check_code check ≢ 0)
        (λ s. (check ≡ KeyCheck.Matches) × (s ≡ segment)) }
{
    match check {
        KeyCheck::Matches => Some(segment),
        KeyCheck::Differs | KeyCheck::NoDigest => None,
    }
}

/// Compares a volume key with the digest in a header. Returns the code, and the header's segment if
/// the key matches.
fn compared(
    alloc: Global,
    header: &[u8],
    key: &[u8],
    options: &LuksrdOptions,
    message: &mut LuksrdMessage,
) -> (u32, Option<Segment>)
    ensures compares { AnswersComparing options.now header.now key.now result.0 message.new }
    ensures segment { MatchOption result.1 (result.0 ≢ 0)
        (λ s. (result.0 ≡ 0) × IsOfKey options.now header.now key.now s) }
{
    let Some((location, max_iterations)) = header_in(options) else {
        return (answer_code(BAD_OPTIONS, message), None);
    };
    let source = &mut MemSource::new(header);
    match check_key_from(alloc, location, max_iterations, source, key) {
        Ok((check, segment)) => (
            answer_code(code_of_check(check), message),
            segment_if(check, segment),
        ),
        Err(fault) => (answer_message(&Message::from(fault), message), None),
    }
}

/// Compares a volume key with the digest in a header.
#[inline(never)]
pub(crate) fn compare_key(
    alloc: Global,
    header: &[u8],
    key: &[u8],
    options: &LuksrdOptions,
    message: &mut LuksrdMessage,
) -> u32
    ensures { AnswersComparing options.now header.now key.now result message.new }
{
    compared(alloc, header, key, options, message).0
}

/// Opens a volume by a volume key that is known. If the code is not 0, the struct of the volume is
/// all zero.
#[inline(never)]
pub(crate) fn open_by_key(
    alloc: Global,
    header: &[u8],
    key: &[u8],
    options: &LuksrdOptions,
    volume: &mut LuksrdVolume,
    message: &mut LuksrdMessage,
) -> u32
    ensures { AnswersOpeningByKey options.now header.now key.now
        result volume.new message.new }
{
    let (code, segment) = compared(alloc, header, key, options, message);
    match segment {
        Some(segment) => volume.store(&segment, 0, key),
        None => volume.clear(),
    }
    code
}
