//! Why no header was read, in words: the one table of these texts.

ghost use Rattle.std.specs.Prelude.{◌≡◌};
ghost use Rattle.luks_report.specs.HeaderFault.{fault_listed, fault_sentence};

use luks_header::fault::HeaderFault;

/// The fault as luksrd and the library for C say it, without a newline.
pub fn fault_sentence(fault: HeaderFault) -> &'static str
    ensures { result.now ≡ fault_sentence fault }
{
    match fault {
        HeaderFault::NotLuks => "luksrd: not a LUKS image",
        HeaderFault::Cut => "luksrd: image ends inside the header or a key area",
        HeaderFault::Json => "luksrd: LUKS2 JSON area is not readable",
        HeaderFault::Read => "luksrd: read failed",
        HeaderFault::Memory => "luksrd: out of memory",
    }
}

/// The fault as luksrd-audit lists it.
pub fn fault_listed(fault: HeaderFault) -> &'static str
    ensures { result.now ≡ fault_listed fault }
{
    match fault {
        HeaderFault::NotLuks => "no LUKS header",
        HeaderFault::Cut => "header is truncated",
        HeaderFault::Json => "JSON area cannot be read",
        HeaderFault::Read => "read failed",
        HeaderFault::Memory => "out of memory",
    }
}
