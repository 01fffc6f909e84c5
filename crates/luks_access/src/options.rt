//! How a volume is opened.

ghost use Rattle.std.specs.Prelude.{◌≡◌};
ghost use Rattle.luks_access.specs.Opens.{allowed_by};

use luks_header::derivation::{Argon2Limits, Limits};
use luks_open::allowed::{AllowedSlots, SlotChoice};
use luks_open::location::HeaderLocation;

/// How a volume is opened.
#[derive(Clone, Copy)]
pub struct Options {
    /// Whether the header is attached to the payload's image or detached.
    pub location: HeaderLocation,
    /// The key slots that may be tried. `luksCat` gets them and the location from its arguments.
    pub slots: SlotChoice,
    /// What Argon2 may cost for one key slot, or `None` if slots that need it are skipped, as
    /// `luksCat` skips them.
    pub argon2: Option<Argon2Limits>,
}

/// The key slots that these options allow.
pub(crate) fn allowed_by(options: &Options) -> AllowedSlots
    ensures { result ≡ allowed_by options.now }
{
    AllowedSlots {
        named: options.slots.named,
        limits: Limits {
            max_iterations: options.slots.max_iterations,
            argon2: options.argon2,
        },
    }
}
