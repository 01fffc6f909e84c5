//! The places of an image at which headers are.

ghost use Rattle.std.specs.Prelude.{◌≡◌, IfOk, Err};
ghost use Rattle.luks_header.specs.Header.{header_of};
ghost use Rattle.luks_audit_run.specs.Places.{found_in};

use crate::magic::may_have_header;
use luks_header::fault::HeaderFault;
use luks_header::header::{Header, header_of_bytes};
use luks_io::source::ReadFault;
use std::alloc::{AllocError, Global};

/// The sectors of an image that are searched at most: those of 2^63 bytes.
pub(crate) const MAX_SECTORS: u64 = 18_014_398_509_481_984;

/// A place of an image at which a header is.
#[derive(Drop)]
pub struct Place {
    /// The offset in bytes, a multiple of 512.
    pub offset: u64,
    /// The header that the rest of the image has.
    pub header: Header,
}

/// Why a search was aborted.
#[derive(Clone, Copy)]
pub enum SearchFault {
    /// A read of the image failed.
    Read,
    /// Memory ran out.
    Memory,
}

impl From<AllocError> for SearchFault {
    ghost use Rattle.luks_audit_run.specs.declared.place.SearchFault.{SearchFault};

    ghost from_gives = { λ _ fault. fault ≡ SearchFault.Memory };

    fn from(_error: AllocError) -> SearchFault {
        SearchFault::Memory
    }
}

impl From<ReadFault> for SearchFault {
    ghost use Rattle.luks_audit_run.specs.declared.place.SearchFault.{SearchFault};

    ghost from_gives = { λ _ fault. fault ≡ SearchFault.Read };

    fn from(_fault: ReadFault) -> SearchFault {
        SearchFault::Read
    }
}

/// What one step of a search did.
#[derive(Drop)]
pub(crate) enum Step {
    /// There are no further bytes.
    End,
    /// There are no headers at some sectors.
    Skipped,
    /// There is a header at the last of some sectors.
    Found(Place),
}

/// The header that these bytes begin with, if there is one.
///
/// # Errors
///
/// `SearchFault::Memory` if memory runs out.
pub(crate) fn header_here(alloc: Global, bytes: &[u8]) -> Result<Option<Header>, SearchFault>
    ensures found { IfOk result (λ found. found ≡ found_in (header_of bytes.now)) }
    ensures only { result ≡ Err SearchFault.Read → ⊥ }
{
    if !may_have_header(bytes) {
        return Ok(None);
    }
    match header_of_bytes(alloc, bytes) {
        Ok(header) => Ok(Some(header)),
        Err(HeaderFault::Memory) => Err(SearchFault::Memory),
        Err(_) => Ok(None),
    }
}
