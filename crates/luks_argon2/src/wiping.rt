//! Writing over the stack that held what was derived from a password.
//!
//! A compiler may drop a write to memory that nothing reads afterwards. So a value that the caller
//! needs is read together with one of the zeros, in a call that is not inlined, at an index that
//! the compiler cannot know. That keeps today's compiler from dropping the writes, and promises
//! nothing.
//!
//! Not wiped: what the processor's registers hold, copies of them that the kernel makes, the stack
//! of a caller, and the caller's password, salt and tag.

ghost use Rattle.std.specs.Prelude.{◌≡◌, ◌<◌, length, replicate};

/// The bytes of stack that are written over after a derivation: more than it uses, by reading its
/// code. No clause speaks of the stack.
const STACK: usize = 32_768;

// The byte, read together with the zero at an index.
#[inline(never)]
fn byte_over_zeros(byte: u8, zeros: &[u8], index: usize, len: usize) -> u8
    requires some { 0 < len }
    requires wiped { zeros.now ≡ replicate len 0 }
    ensures { result ≡ byte }
{
    byte | zeros[index % len]
}

/// The first byte of a tag. The stack of the call that derived the tag is written over; `index` is
/// any number that the compiler cannot know.
#[inline(never)]
pub(crate) fn wiped_after_tag(byte: u8, index: usize) -> u8
    ensures { result ≡ byte }
{
    let zeros = [0u8; STACK];
    byte_over_zeros(byte, &zeros, index, STACK)
}
