//! Writing over the stack that a call has used.
//!
//! A function for C does its work in one call, which is not inlined, and then calls a function of
//! this module, whose array of zeros is where the stack of that call was. No clause speaks of the
//! stack: that the array covers all that was used is tested (`tests/test_library.py`).

ghost use Rattle.std.specs.Prelude.{◌≡◌, ◌<◌, replicate};

/// The bytes that are written over after an opening or a comparison of a key: more than both use.
/// The deepest use is that of a JSON area with the deepest nesting that is read.
const OPENING: usize = 245_760;

/// The bytes that are written over after an expansion of keys: more than it uses.
const PREPARING: usize = 81_920;

// The code, read together with one of the zeros. The compiler cannot know which one, nor that it is
// a zero, so it has to write all of them.
#[inline(never)]
fn code_over_zeros(code: u32, zeros: &[u8], len: usize) -> u32
    requires some { 0 < len }
    requires wiped { zeros.now ≡ replicate len 0 }
    ensures { result ≡ code }
{
    code | u32::from(zeros[code as usize % len])
}

/// The code of an opening, or of a comparison of a key. Its stack is written over.
#[inline(never)]
pub(crate) fn wiped_after_opening(code: u32) -> u32
    ensures { result ≡ code }
{
    let zeros = [0u8; OPENING];
    code_over_zeros(code, &zeros, OPENING)
}

/// The code of an expansion of keys. Its stack is written over.
#[inline(never)]
pub(crate) fn wiped_after_preparing(code: u32) -> u32
    ensures { result ≡ code }
{
    let zeros = [0u8; PREPARING];
    code_over_zeros(code, &zeros, PREPARING)
}
