//! Open volumes.

ghost use Rattle.std.specs.Prelude.{◌≡◌, ◌≢◌, ◌+◌, ◌-◌, ◌%◌, ◌^◌, ◌<◌};
ghost use Rattle.std.specs.Prelude.{◌≤◌, Bool, List, ℕ, Err};
ghost use Rattle.std.specs.Prelude.{IfErr, IfOk, OnOk, length, replicate, true};
ghost use Rattle.luks_cipher.specs.Expanded.{AreExpanded};
ghost use Rattle.luks_io.specs.Counts.{Reads};
ghost use Rattle.luks_io.specs.Devices.{IfKnown};
ghost use Rattle.luks_open.specs.Costs.{CountsOfImage};
ghost use Rattle.luks_open.specs.Fault.{has_fault, is_read_failure};
ghost use Rattle.luks_open.specs.Location.{reader_for};
ghost use Rattle.luks_payload.specs.Plain.{ending_of, sector_len};
ghost use Rattle.luks_access.specs.Sectors.{FailsAtStart, FailsInRange, IsRangeOf};
ghost use Rattle.luks_access.specs.Opens.{EndsOpening, OpensVolume, RefusesVolume};
ghost use Rattle.luks_access.specs.Opens.{allowed_by, plaintext_of};

use crate::fault::RangeFault;
use crate::image::ReadAt;
use crate::options::{Options, allowed_by};
use crate::range::Plaintext;
use crate::sectors::{payload_ending, plaintext_len};
use crate::source::{FailedRead, StartSource};
use crate::step::is_within;
use luks_cipher::ExpandedKeys;
use luks_header::segment::Segment;
use luks_io::source::Source;
use luks_kdf::Work;
use luks_open::fault::{PassphraseFault, VolumeFault};
use luks_open::found::find_volume;
use luks_open::trying::try_slots;
use luks_open::unlocked::UnlockedVolume;
use luks_open::with_argon2::WithArgon2;
use luks_payload::fault::PayloadFault;
use luks_payload::state::Step;
use std::alloc::Global;
use std::marker::{Brand, Model};

/// The length of the longest passphrase in bytes, which is also that of the longest key file.
pub const MAX_PASSPHRASE_LEN: usize = 8_388_608;

/// An open volume. Its view is its segment, the key slot that opened, and the volume key, whose
/// length fits the segment's mode.
#[derive(Drop)]
pub struct Volume {
    unlocked: UnlockedVolume,
    keys: ExpandedKeys,
}

impl Model for Volume {
    ghost use Rattle.luks_cipher.specs.Expanded.{AreExpanded};
    ghost use Rattle.luks_open.specs.declared.unlocked.UnlockedVolume.{UnlockedVolume};

    ghost Value = { UnlockedVolume };

    ghost view = { λ v. v.unlocked };

    ghost invariant = { λ v. AreExpanded v.unlocked.key v.unlocked.segment.mode v.keys };
}

impl Volume {
    /// Opens a volume by a passphrase. The source gives the bytes of its image, or of its detached
    /// header.
    ///
    /// Key slots that need Argon2 are tried if the options have limits for it, within these limits.
    /// Memory is asked for when a slot's turn comes. If it is refused, opening ends with
    /// [`VolumeFault::Argon2Memory`], and no later slot is tried.
    ///
    /// Without such limits, the volume is the one that `luksCat` opens with these options, and a
    /// fault is the one that `luksCat` reports. A passphrase longer than [`MAX_PASSPHRASE_LEN`] is
    /// refused, as a key file is.
    ///
    /// The source is consumed as `testPassphrase` consumes it: for the header, and up to the end of
    /// the last key material to be tried, which may be that of a slot by Argon2. If a read fails or
    /// memory runs out, no more than that is consumed.
    pub fn open_from<S: Source>(
        alloc: Global,
        options: &Options,
        source: &mut S,
        pass: &[u8],
    ) -> Result<Volume, VolumeFault>
        ensures answers { IfKnown (S.to_come source.old) (λ known. EndsOpening options.now known
            pass.now result (S.to_come source.new)) }
        ensures reads { (ended : Bool) × Reads (has_fault is_read_failure result) ended
            (S.counts source.old) (S.counts source.new) }
    {
        let mut derive = WithArgon2::new(alloc);
        Volume::open_counted(alloc, options, source, pass, &mut derive, &mut Work::new(0))
    }

    /// Opens a volume by a passphrase, as [`Volume::open_from`] does, and counts what that costs:
    /// the evaluations of HMAC in `work`, and the blocks of 1 KiB that Argon2 fills in `derive`.
    ///
    /// What counts are the key slots that are tried, the one that opens included, or those before
    /// the one for which memory is refused. Clauses say this of sources that know their bytes.
    /// `derive` keeps its memory, so that several passphrases share it.
    pub fn open_counted<S: Source>(
        alloc: Global,
        options: &Options,
        source: &mut S,
        pass: &[u8],
        derive: &mut WithArgon2,
        work: &mut Work,
    ) -> Result<Volume, VolumeFault>
        ensures answers { IfKnown (S.to_come source.old) (λ known. EndsOpening options.now known
            pass.now result (S.to_come source.new)) }
        ensures costs { IfKnown (S.to_come source.old) (λ known. CountsOfImage
            (reader_for options.now.location) (allowed_by options.now) known pass.now result
            (record { work = work.old; blocks = derive.old })
            (record { work = work.new; blocks = derive.new })) }
        ensures reads { (ended : Bool) × Reads (has_fault is_read_failure result) ended
            (S.counts source.old) (S.counts source.new) }
    {
        let mut found = find_volume(alloc, options.location, allowed_by(options), source)?;
        if pass.len() > MAX_PASSPHRASE_LEN {
            return Err(VolumeFault::Passphrase(PassphraseFault::TooLong));
        }
        let unlocked = try_slots(&mut found, source, derive, pass, work)?;
        let keys = ExpandedKeys::new(unlocked.segment.mode, unlocked.key.as_slice());
        Ok(Volume { unlocked, keys })
    }

    /// Opens a volume by a passphrase, as [`Volume::open_from`] does, from its image or its
    /// detached header. At most the first 33,554,432 bytes of it are read.
    ///
    /// A failed read is reported only if a read of one of these bytes fails, or if the image has
    /// become shorter.
    pub fn open<I: ReadAt>(
        alloc: Global,
        options: &Options,
        image: &I,
        pass: &[u8],
    ) -> Result<Volume, VolumeFault>
        ensures opens { IfKnown (I.image image.now)
            (λ known. IfOk result (OpensVolume options.now known pass.now)) }
        ensures refuses { IfKnown (I.image image.now)
            (λ known. IfErr result (RefusesVolume options.now known pass.now)) }
        ensures failed { has_fault is_read_failure result ≡ true
            → FailsAtStart (I.image image.now) (I.fails image.now) }
    {
        open_start::<I, Brand>(alloc, options, image, pass)
    }

    /// The segment: where the payload is in its image.
    pub fn segment(&self) -> Segment
        ensures { result ≡ self.now.segment }
    {
        self.unlocked.segment
    }

    /// The number of the key slot that opened.
    pub fn slot(&self) -> u8
        ensures { result ≡ self.now.slot }
    {
        self.unlocked.slot
    }

    /// The volume key.
    pub fn key(&self) -> &[u8]
        ensures { result.now ≡ self.now.key }
    {
        self.unlocked.key.as_slice()
    }

    /// The expanded volume key.
    pub fn keys(&self) -> &ExpandedKeys
        ensures { AreExpanded self.now.key self.now.segment.mode result.now }
    {
        &self.keys
    }

    /// The length in bytes of the plaintext in an image of this length: all whole sectors.
    pub fn len(&self, image_len: u64) -> u64
        ensures value { (image : List ℕ) → length image ≡ image_len
            → result ≡ length (plaintext_of self.now image) }
        ensures within { result ≤ image_len - self.now.segment.offset }
        ensures counted { self.now.segment.offset + result < 2 ^ 64 }
        ensures multiple { result % sector_len self.now.segment ≡ 0 }
    {
        let segment = &self.unlocked.segment;
        plaintext_len(segment.offset, segment.size, segment.sector_size, image_len)
    }

    /// How the payload ends in an image of `image_len` bytes, as `luksCat` reports it.
    ///
    /// # Errors
    ///
    /// [`PayloadFault::CutBeforePayload`], [`PayloadFault::Tail`] or [`PayloadFault::Short`] if the
    /// image is truncated.
    pub fn payload_ending(&self, image_len: u64) -> Result<Step, PayloadFault>
        ensures { (image : List ℕ) → length image ≡ image_len
            → result ≡ ending_of self.now.segment image }
    {
        let segment = &self.unlocked.segment;
        payload_ending(segment.offset, segment.size, segment.sector_size, image_len)
    }

    /// Fills the buffer with the plaintext from `offset` on.
    ///
    /// [`RangeFault::PastEnd`] leaves the buffer as it was: the range ends past the plaintext.
    /// After any other fault the buffer is all zero.
    pub fn read_at<I: ReadAt>(
        &self,
        image: &I,
        offset: u64,
        buf: &mut [u8],
    ) -> Result<(), RangeFault>
        ensures plain { OnOk result (IfKnown (I.image image.now)
            (λ known. IsRangeOf (plaintext_of self.now known) offset buf.new)) }
        ensures within { OnOk result (IfKnown (I.image image.now)
            (λ known. offset + length buf.new ≤ length (plaintext_of self.now known))) }
        ensures past { result ≡ Err RangeFault.PastEnd → (buf.new ≡ buf.old)
            × IfKnown (I.image image.now)
            (λ known. length (plaintext_of self.now known) < offset + length buf.old) }
        ensures blank { IfErr result (λ fault. fault ≢ RangeFault.PastEnd
            → buf.new ≡ replicate (length buf.old) 0) }
        ensures whole { IfKnown (I.image image.now)
            (λ known. result ≢ Err RangeFault.Shorter) }
        ensures failed { result ≡ Err RangeFault.Read
            → FailsInRange self.now.segment (I.fails image.now) offset (length buf.old) }
    {
        let len = self.len(image.len());
        if !is_within(len, offset, buf.len()) {
            return Err(RangeFault::PastEnd);
        }
        let plaintext = Plaintext {
            volume: self,
            image,
            len,
        };
        let answer = plaintext.read_range(offset, buf);
        if answer.is_err() {
            buf.fill(0);
        }
        answer
    }
}

/// Opens a volume from the start of its image or its detached header. `B` says whether a read of it
/// may fail.
fn open_start<I: ReadAt, B: FailedRead>(
    alloc: Global,
    options: &Options,
    image: &I,
    pass: &[u8],
) -> Result<Volume, VolumeFault>
    requires { FailsAtStart (I.image image.now) (I.fails image.now) → B.may_fail ≡ true }
    ensures opens { IfKnown (I.image image.now)
        (λ known. IfOk result (OpensVolume options.now known pass.now)) }
    ensures refuses { IfKnown (I.image image.now)
        (λ known. IfErr result (RefusesVolume options.now known pass.now)) }
    ensures failed { has_fault is_read_failure result ≡ true → B.may_fail ≡ true }
{
    let mut source = StartSource::<I, B>::new(image);
    Volume::open_from(alloc, options, &mut source, pass)
}
