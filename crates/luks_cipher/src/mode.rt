//! The modes in which sectors are encrypted.

ghost use Rattle.std.specs.Prelude.{◌≡◌};
ghost use Rattle.luks_cipher.specs.Sector.{is_mode_key_length, mode_name, mode_named};

/// A mode of AES over sectors, and how a sector's unit number enters it (the kernel's documentation
/// of dm-crypt).
#[derive(Clone, Copy, PartialEq, Eq, Debug)]
pub enum Mode {
    /// XTS under the sector's unit number.
    XtsPlain64,
    /// XTS under the unit number's 32 low bits.
    XtsPlain,
    /// CBC whose IV is the unit number, encrypted under the SHA-256 digest of the key.
    CbcEssivSha256,
    /// CBC whose IV is the unit number.
    CbcPlain64,
}

impl Mode {
    /// The mode of exactly this name, or `None` for any other text.
    pub fn from_name(name: &str) -> Option<Mode>
        ensures { result ≡ mode_named name.now }
    {
        Mode::from_bytes(name.as_bytes())
    }

    /// The mode whose name these bytes are, or `None` for any others.
    pub fn from_bytes(name: &[u8]) -> Option<Mode>
        ensures { result ≡ mode_named name.now }
    {
        if name == b"xts-plain64".as_slice() {
            Some(Mode::XtsPlain64)
        } else if name == b"xts-plain".as_slice() {
            Some(Mode::XtsPlain)
        } else if name == b"cbc-essiv:sha256".as_slice() {
            Some(Mode::CbcEssivSha256)
        } else if name == b"cbc-plain64".as_slice() {
            Some(Mode::CbcPlain64)
        } else {
            None
        }
    }

    /// Whether a key of the mode can have `len` bytes: 32 or 64 for XTS, 16 or 32 for CBC.
    pub fn has_key_length(self, len: usize) -> bool
        ensures { result ≡ is_mode_key_length self len }
    {
        match self {
            Mode::XtsPlain64 | Mode::XtsPlain => len == 32 || len == 64,
            Mode::CbcEssivSha256 | Mode::CbcPlain64 => len == 16 || len == 32,
        }
    }

    /// Its name, as `from_name` accepts it.
    pub fn name(self) -> &'static str
        ensures { result.now ≡ mode_name self }
    {
        match self {
            Mode::XtsPlain64 => "xts-plain64",
            Mode::XtsPlain => "xts-plain",
            Mode::CbcEssivSha256 => "cbc-essiv:sha256",
            Mode::CbcPlain64 => "cbc-plain64",
        }
    }
}
