//! A weakness: what it is, where, by which number or name, and how severe.

ghost use Rattle.std.specs.Prelude.{◌≡◌};
ghost use Rattle.luks_audit.specs.Weakness.{severity_name, weakness_name};

use crate::text::Text;

/// What is weak about a part of a header.
#[derive(Clone, Copy)]
pub enum Weakness {
    /// The data or the key material is not encrypted.
    NullCipher,
    /// Sectors are encrypted in ECB mode.
    EcbMode,
    /// A key slot has fewer iterations of PBKDF2 than are requested, or than OWASP recommends.
    FewIterations,
    /// A hash function is SHA-1.
    BrokenHash,
    /// Sectors are encrypted in CBC mode.
    CbcMode,
    /// The cipher's key has fewer than 256 bits.
    ShortKey,
    /// A key slot uses Argon2 with less than 64 MiB of memory.
    LittleMemory,
    /// A key slot uses Argon2 with fewer passes than RFC 9106 recommends for its memory.
    FewPasses,
    /// A digest has fewer than 1,000 iterations.
    FewDigestIterations,
}

impl Weakness {
    /// The name, as it is printed.
    pub fn name(self) -> &'static str
        ensures { result.now ≡ weakness_name self }
    {
        match self {
            Weakness::NullCipher => "null-cipher",
            Weakness::EcbMode => "ecb",
            Weakness::FewIterations => "iterations",
            Weakness::BrokenHash => "sha1",
            Weakness::CbcMode => "cbc",
            Weakness::ShortKey => "short-key",
            Weakness::LittleMemory => "argon2-memory",
            Weakness::FewPasses => "argon2-time",
            Weakness::FewDigestIterations => "digest-iterations",
        }
    }
}

/// How severe a weakness is.
#[derive(Clone, Copy)]
pub enum Severity {
    /// It falls short of a recommendation.
    Low,
    /// What is encrypted, or its passphrase, can be found with less effort than it should take.
    High,
}

impl Severity {
    /// The name, as it is printed.
    pub fn name(self) -> &'static str
        ensures { result.now ≡ severity_name self }
    {
        match self {
            Severity::Low => "low",
            Severity::High => "high",
        }
    }
}

/// A part of a header.
#[derive(Clone, Copy)]
pub enum Part {
    /// The segment.
    Segment,
    /// The key slot of this number.
    Slot(u8),
    /// The digest of this number.
    Digest(u8),
}

/// A weakness.
#[derive(Drop)]
pub struct WeakRow {
    /// What it is.
    pub weakness: Weakness,
    /// Where it is.
    pub part: Part,
    /// The name of the cipher or the hash function, if that is weak.
    pub text: Option<Text>,
    /// The number, if one is weak and the header has it.
    pub number: Option<u64>,
    /// The least number that is not weak.
    pub limit: Option<u64>,
    /// How severe it is.
    pub severity: Severity,
}
