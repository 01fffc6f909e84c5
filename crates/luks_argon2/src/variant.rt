//! The variants of Argon2.

ghost use Rattle.std.specs.Prelude.{◌≡◌};
ghost use Rattle.luks_argon2.specs.Addressing.{variant_number};

/// Which blocks are chosen by addresses that do not depend on the password (RFC 9106, section 3.4).
/// Argon2d, which has none of them, is left out.
#[derive(Clone, Copy, PartialEq, Eq, Debug, Drop)]
pub enum Variant {
    /// All blocks.
    Argon2i,
    /// Those of the first two slices of the first pass.
    Argon2id,
}

/// y, the number of the variant (section 3.1).
pub(crate) fn variant_number(variant: Variant) -> u32
    ensures { result ≡ variant_number variant }
{
    match variant {
        Variant::Argon2i => 1,
        Variant::Argon2id => 2,
    }
}
