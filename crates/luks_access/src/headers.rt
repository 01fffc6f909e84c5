//! Where the headers of an image end.

ghost use Rattle.std.specs.Prelude.{◌≡◌};
ghost use Rattle.luks_access.specs.Keys.{headers_end};

use luks_format::header::{HEADER1_LEN, is_header1};
use luks_format::header2_search::{Search, header2};

/// The number of first bytes of an image, or of the file of a detached header, that hold its
/// headers: 592 for LUKS1, both headers for LUKS2. `None` if these, its first bytes, do not say: it
/// does not start as LUKS1, and none of its LUKS2 headers is whole in them and valid. This
/// allocates nothing.
pub fn headers_end(bytes: &[u8]) -> Option<u64>
    ensures { result ≡ headers_end bytes.now }
{
    if is_header1(bytes) {
        return Some(HEADER1_LEN as u64);
    }
    Some(header2(bytes, Search::new())?.end())
}
