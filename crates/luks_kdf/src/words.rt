//! Words in bytes, as SHA-1 and SHA-2 read them (FIPS 180-4, section 3.1), and arrays of words.

ghost use Rattle.std.specs.Prelude.{◌≡◌, ◌+◌, ◌≤◌, [], ◌∷◌, length};
ghost use Rattle.sha2.specs.Sha256.{word_at};
ghost use Rattle.sha2.specs.Sha512.{word_at as word64_at};

/// The word at byte `i`, with its most significant byte first.
pub(crate) fn load_be(bytes: &[u8], i: usize) -> u32
    requires { i + 4 ≤ length bytes.now }
    ensures { result ≡ word_at bytes.now i }
{
    u32::from_be_bytes([bytes[i], bytes[i + 1], bytes[i + 2], bytes[i + 3]])
}

/// The word of 64 bits at byte `i`, with its most significant byte first.
pub(crate) fn load_be64(bytes: &[u8], i: usize) -> u64
    requires { i + 8 ≤ length bytes.now }
    ensures { result ≡ word64_at bytes.now i }
{
    u64::from_be_bytes([
        bytes[i],
        bytes[i + 1],
        bytes[i + 2],
        bytes[i + 3],
        bytes[i + 4],
        bytes[i + 5],
        bytes[i + 6],
        bytes[i + 7],
    ])
}

/// The array of these values, of any type. Arrays of vectors of `N` lanes are made here: the prover
/// does not cover an array literal of such vectors while the number of lanes is generic.
#[inline(always)]
pub(crate) fn five<T: Copy>(a: T, b: T, c: T, d: T, e: T) -> [T; 5]
    ensures { result ≡ a ∷ b ∷ c ∷ d ∷ e ∷ [] }
{
    [a, b, c, d, e]
}

/// The array of these values, made here for the same reason as in `five`.
#[inline(always)]
pub(crate) fn sixteen<T: Copy>(
    a: T,
    b: T,
    c: T,
    d: T,
    e: T,
    f: T,
    g: T,
    h: T,
    i: T,
    j: T,
    k: T,
    l: T,
    m: T,
    n: T,
    o: T,
    p: T,
) -> [T; 16]
    ensures { result ≡ a ∷ b ∷ c ∷ d ∷ e ∷ f ∷ g ∷ h ∷ i ∷ j ∷ k ∷ l ∷ m ∷ n ∷ o ∷ p ∷ [] }
{
    [a, b, c, d, e, f, g, h, i, j, k, l, m, n, o, p]
}
