//! Whether luksrd can try a key slot, and if not, why.

ghost use Rattle.std.specs.Prelude.{◌≡◌, option_map};
ghost use Rattle.luks_audit.specs.Verdict.{is_kind_usable, kind_text, reason_in};

use luks_format::slot::VerdictKind;

/// Whether luksrd can try a slot, as it is printed.
pub(crate) fn kind_text(kind: VerdictKind) -> &'static str
    ensures { result.now ≡ kind_text kind }
{
    match kind {
        VerdictKind::Usable(_) => "usable",
        VerdictKind::Disabled => "disabled",
        VerdictKind::Skipped(_) => "skipped",
    }
}

/// Why a slot is skipped.
pub(crate) fn reason_text(kind: VerdictKind) -> Option<&'static str>
    ensures { option_map (λ t. t.now) result ≡ reason_in kind }
{
    match kind {
        VerdictKind::Skipped(reason) => Some(reason.text()),
        VerdictKind::Usable(_) | VerdictKind::Disabled => None,
    }
}

/// Whether luksrd can try a slot.
pub(crate) fn is_kind_usable(kind: VerdictKind) -> bool
    ensures { result ≡ is_kind_usable kind }
{
    matches!(kind, VerdictKind::Usable(_))
}
