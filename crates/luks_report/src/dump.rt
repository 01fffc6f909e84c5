//! The texts of a header.

ghost use Rattle.std.specs.Prelude.{◌≡◌, IfOk, string_bytes};
ghost use Rattle.luks_report.specs.Dump.{dump_of, uuid_of};

use luks_header::header::Header;
use std::alloc::{AllocError, Global};

mod luks1;
pub(crate) mod luks2;

pub use luks2::role_text;

/// The text that `luksUUID` prints.
pub fn uuid_text(alloc: Global, header: &Header) -> Result<String, AllocError>
    ensures { IfOk result (λ lines. string_bytes lines ≡ uuid_of header.now) }
{
    match header {
        Header::V1(header) => luks1::uuid_text(alloc, header),
        Header::V2(header, _) => luks2::uuid_text(alloc, header),
    }
}

/// The text that `luksDump` prints.
pub fn dump_text(alloc: Global, header: &Header) -> Result<String, AllocError>
    ensures { IfOk result (λ lines. string_bytes lines ≡ dump_of header.now) }
{
    match header {
        Header::V1(header) => luks1::dump_text(alloc, header),
        Header::V2(binary, metadata) => luks2::dump_text(alloc, header, binary, metadata),
    }
}
