//! Reading a range of a plaintext, step by step: the sectors that overlap it, and no others.

ghost use Rattle.std.specs.Prelude.{◌≡◌, ◌+◌, ◌%◌, ◌<◌, ◌≤◌, ◌^◌, ◌⊎◌, ℕ, Err};
ghost use Rattle.std.specs.Prelude.{IfErr, IfOk, Ok, length, take};
ghost use Rattle.luks_payload.specs.Plain.{sector_len};
ghost use Rattle.luks_access.specs.Opens.{cipher_of};
ghost use Rattle.luks_access.specs.Sectors.{ReadsRange};
ghost use Rattle.luks_access.specs.Steps.{IsStep};

use crate::fault::RangeFault;
use crate::image::ReadAt;
use crate::step::{ReadStep, finish, plan};
use crate::volume::Volume;

/// The length of the longest sector in bytes.
const MAX_SECTOR_LEN: usize = 4096;

/// The plaintext of a volume in an image: `len` bytes, which are whole sectors. They are stored at
/// offsets below 2^64.
#[derive(Drop)]
pub(crate) struct Plaintext<'a, I> {
    pub(crate) volume: &'a Volume,
    pub(crate) image: &'a I,
    pub(crate) len: u64,
    ghost counted: { volume.now.segment.offset + len < 2 ^ 64 },
    ghost multiple: { len % sector_len volume.now.segment ≡ 0 },
}

impl<'a, I: ReadAt> Plaintext<'a, I> {
    /// Reads the bytes of a step, and decrypts them: the first of them become those of the range.
    fn read_step(&self, step: &ReadStep, bytes: &mut [u8]) -> Result<(), RangeFault>
        requires long { length bytes.old ≡ step.now.read_len }
        requires whole { step.now.read_len % sector_len self.now.volume.now.segment ≡ 0 }
        requires part { step.now.skip + step.now.count ≤ step.now.read_len }
        ensures { (offset count : ℕ)
            → IsStep self.now.volume.now.segment self.now.len offset count step.now
            → ReadsRange self.now.volume.now.segment (cipher_of self.now.volume.now) self.now.len
            (I.image self.now.image.now) (I.fails self.now.image.now) offset result
            (take step.now.count bytes.new) }
    {
        match self.image.read_at(step.read_offset, bytes) {
            Ok(()) => {
                finish(&self.volume.segment(), self.volume.keys(), step, bytes);
                Ok(())
            }
            Err(fault) => Err(RangeFault::from(fault)),
        }
    }

    /// Reads the bytes of a step that gives a part of one sector, through a buffer for the whole of
    /// it.
    fn read_part(
        &self,
        step: &ReadStep,
        sector: &mut [u8],
        buf: &mut [u8],
    ) -> Result<(), RangeFault>
        requires whole { step.now.read_len % sector_len self.now.volume.now.segment ≡ 0 }
        requires part { step.now.skip + step.now.count ≤ step.now.read_len }
        requires one { step.now.read_len ≡ sector_len self.now.volume.now.segment }
        requires capacity { length sector.old ≡ MAX_SECTOR_LEN }
        requires given { length buf.old ≡ step.now.count }
        ensures { (offset count : ℕ)
            → IsStep self.now.volume.now.segment self.now.len offset count step.now
            → ReadsRange self.now.volume.now.segment (cipher_of self.now.volume.now) self.now.len
            (I.image self.now.image.now) (I.fails self.now.image.now) offset result buf.new }
    {
        let bytes = &mut sector[..step.read_len];
        let answer = self.read_step(step, bytes);
        buf.copy_from_slice(&bytes[..step.count]);
        answer
    }

    /// Reads what a step gives: whole sectors in place, or a part of one.
    fn read_given(&self, step: &ReadStep, buf: &mut [u8]) -> Result<(), RangeFault>
        requires whole { step.now.read_len % sector_len self.now.volume.now.segment ≡ 0 }
        requires part { step.now.skip + step.now.count ≤ step.now.read_len }
        requires placed { (step.now.read_len ≡ step.now.count)
            ⊎ (step.now.read_len ≡ sector_len self.now.volume.now.segment) }
        requires given { length buf.old ≡ step.now.count }
        ensures { (offset count : ℕ)
            → IsStep self.now.volume.now.segment self.now.len offset count step.now
            → ReadsRange self.now.volume.now.segment (cipher_of self.now.volume.now) self.now.len
            (I.image self.now.image.now) (I.fails self.now.image.now) offset result buf.new }
    {
        if step.read_len == step.count {
            self.read_step(step, buf)
        } else {
            self.read_part(step, &mut [0; MAX_SECTOR_LEN], buf)
        }
    }

    /// Reads the first step of a range of at least one byte. Returns how many bytes of the range it
    /// gave.
    fn read_next(&self, offset: u64, buf: &mut [u8]) -> Result<usize, RangeFault>
        requires some { 0 < length buf.old }
        requires inside { offset + length buf.old ≤ self.now.len }
        ensures some { IfOk result (λ count. 0 < count) }
        ensures most { IfOk result (λ count. count ≤ length buf.old) }
        ensures ok { IfOk result (λ count. ReadsRange self.now.volume.now.segment
            (cipher_of self.now.volume.now) self.now.len (I.image self.now.image.now)
            (I.fails self.now.image.now) offset (Ok tt) (take count buf.new)) }
        ensures err { IfErr result (λ fault. ReadsRange self.now.volume.now.segment
            (cipher_of self.now.volume.now) self.now.len (I.image self.now.image.now)
            (I.fails self.now.image.now) offset (Err fault) buf.new) }
    {
        let Some(step) = plan(&self.volume.segment(), self.len, offset, buf.len()) else {
            return Err(RangeFault::PastEnd);
        };
        match self.read_given(&step, &mut buf[..step.count]) {
            Ok(()) => Ok(step.count),
            Err(fault) => Err(fault),
        }
    }

    /// Fills the buffer with the plaintext from `offset` on.
    ///
    /// Only the sectors that overlap the range are read. Whole ones are decrypted in the buffer.
    /// After a fault the buffer may hold any bytes.
    pub(crate) fn read_range(&self, offset: u64, buf: &mut [u8]) -> Result<(), RangeFault>
        requires { offset + length buf.old ≤ self.now.len }
        ensures { ReadsRange self.now.volume.now.segment (cipher_of self.now.volume.now)
            self.now.len (I.image self.now.image.now) (I.fails self.now.image.now) offset result
            buf.new }
    {
        let mut done = 0;
        'steps: while done < buf.len() {
            match self.read_next(offset + done as u64, &mut buf[done..]) {
                Ok(count) => done += count,
                Err(fault) => return Err(fault),
            }
        }
        Ok(())
    }
}
