//! The key slots that may be tried.

ghost use Rattle.std.specs.Prelude.{◌≡◌};
ghost use Rattle.luks_open.specs.Allowed.{pbkdf2_alone};

use luks_header::derivation::Limits;

/// The key slots of a volume that may be tried.
#[derive(Clone, Copy, PartialEq, Eq, Debug)]
pub struct SlotChoice {
    /// The only key slot to try. If none is named, all that can be tried are tried.
    pub named: Option<u8>,
    /// The most iterations that a key slot or a digest may have.
    pub max_iterations: Option<u32>,
}

/// The key slots of a volume that may be tried.
#[derive(Clone, Copy)]
pub struct AllowedSlots {
    /// The only key slot to try. If none is named, all that can be tried are tried.
    pub named: Option<u8>,
    /// What deriving the key of a slot may cost. Slots that cost more are not tried.
    pub limits: Limits,
}

/// The key slots that a command may try: none that needs Argon2.
pub fn pbkdf2_alone(slots: SlotChoice) -> AllowedSlots
    ensures { result ≡ pbkdf2_alone slots }
{
    AllowedSlots {
        named: slots.named,
        limits: Limits::without_argon2(slots.max_iterations),
    }
}
