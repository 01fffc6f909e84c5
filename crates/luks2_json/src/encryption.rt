//! How sectors are encrypted.

ghost use Rattle.std.specs.Prelude.{◌≡◌};
ghost use Rattle.luks2_json.specs.Member.{is_length_for, encryption_mode};

use luks_cipher::Mode;

/// The mode that a string names after `aes-`, if that mode is known.
#[tactic(auto, unfolding(crate::specs::Member::encryption_mode))]
pub fn encryption_mode(encryption: &str) -> Option<Mode>
    ensures { result ≡ encryption_mode encryption.now }
{
    Mode::from_name(encryption.strip_prefix("aes-")?)
}

/// Whether a key of the mode can have this many bytes, or, if the mode is not known, a key of some
/// mode.
#[tactic(auto, unfolding(crate::specs::Member::is_length_for))]
pub fn is_length_for(mode: Option<Mode>, bytes: u64) -> bool
    ensures { result ≡ is_length_for mode bytes }
{
    match mode {
        Some(mode) => mode.has_key_length(bytes as usize),
        None => bytes == 16 || bytes == 32 || bytes == 64,
    }
}
