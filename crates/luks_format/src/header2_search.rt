//! Finds the LUKS2 header of an image, and how far to load it for that.

ghost use Rattle.std.specs.Prelude.{◌≡◌, ℕ, ◌+◌, ◌≤◌, List, Some};
ghost use Rattle.std.specs.List.{find};
ghost use Rattle.luks_format.specs.Choice2.{chosen2_of, is_valid as is_valid_at};
ghost use Rattle.luks_format.specs.ReadLen2.{IsNextEnd, probe2_len, probe_end};
ghost use Rattle.luks_format.specs.Search2.{IsSearchOf, offsets};
ghost use Rattle.luks_format.specs.declared.header2_search.Search.{Search};

use crate::binary_header2::{BINARY_LEN, Header2, HeaderRole, PairFinding};
use crate::choice2::{valid_header, with_valid_primary};
use crate::validity2::{fitting_size, is_valid, offsets};

/// How far the search for the first valid header of an image came in its loaded bytes. With it no
/// checksum is computed twice.
#[derive(Clone, Copy)]
pub enum Search {
    /// The first valid header is at this offset.
    Found(u32),
    /// The first so many offsets have none.
    Passed(usize),
}

impl Search {
    /// A search that has not begun.
    #[tactic(auto, unfolding(crate::specs::ReadLen2::furthest))]
    pub fn new() -> Search
        ensures { (loaded : List ℕ) → IsSearchOf loaded result }
    {
        Search::Passed(0)
    }
}

// The first of these offsets with a valid header.
fn valid_among(bytes: &[u8], offsets: &[u32]) -> Option<u32>
    ensures { result ≡ find (is_valid_at bytes.now) offsets.now }
{
    offsets
        .iter()
        .copied()
        .find(|offset| is_valid(bytes, *offset as usize))
}

// The first offset with a valid header.
fn first_valid(bytes: &[u8], search: Search) -> Option<u32>
    requires { IsSearchOf bytes.now search }
    ensures { result ≡ find (is_valid_at bytes.now) offsets }
{
    match search {
        Search::Found(offset) => Some(offset),
        Search::Passed(count) => {
            let offsets = offsets();
            valid_among(bytes, &offsets[count.min(offsets.len())..])
        }
    }
}

// The header of an image whose first valid header is at this offset.
fn chosen_at(bytes: &[u8], offset: u32) -> Option<Header2>
    requires { find (is_valid_at bytes.now) offsets ≡ Some offset }
    ensures { result ≡ chosen2_of bytes.now }
{
    if offset == 0 {
        return with_valid_primary(bytes);
    }
    let finding = Some(PairFinding::PrimaryNotValid);
    valid_header(bytes, offset as usize, HeaderRole::Secondary, finding)
}

/// The header of an image with these bytes, if it has one (LUKS2 On-Disk Format Specification 1.1,
/// section 2). The image is one that does not start as LUKS1.
pub fn header2(bytes: &[u8], search: Search) -> Option<Header2>
    requires { IsSearchOf bytes.now search }
    ensures { result ≡ chosen2_of bytes.now }
{
    chosen_at(bytes, first_valid(bytes, search)?)
}

// The end of the bytes that are read to check an offset.
#[tactic(auto, unfolding(crate::specs::ReadLen2::probe_end))]
fn probe_end(bytes: &[u8], offset: u32) -> usize
    ensures value { result ≡ probe_end bytes.now offset }
    ensures range { result ≤ offset + 4194304 }
{
    let offset = offset as usize;
    let least = offset + BINARY_LEN;
    match fitting_size(bytes, offset) {
        Some(size) => least.max(offset + size),
        None => least,
    }
}

// The end of the bytes that are to be loaded next if the first valid header is at this offset.
fn found_end(bytes: &[u8], offset: u32, search: &mut Search) -> usize
    requires { IsSearchOf bytes.now (Search.Found offset) }
    ensures next { IsNextEnd probe2_len bytes.now result }
    ensures searched { IsSearchOf bytes.now search.new }
{
    *search = Search::Found(offset);
    if offset > 0 {
        return 0;
    }
    2 * probe_end(bytes, 0)
}

/// How far to load next an image that starts with these bytes: past them, unless all bytes that are
/// read for its header are loaded. The image is one that does not start as LUKS1. This carries on
/// the search as far as the loaded bytes allow.
pub fn next_end2(bytes: &[u8], search: &mut Search) -> usize
    requires { IsSearchOf bytes.now search.old }
    ensures next { IsNextEnd probe2_len bytes.now result }
    ensures searched { IsSearchOf bytes.now search.new }
{
    let count = match *search {
        Search::Found(offset) => return found_end(bytes, offset, search),
        Search::Passed(count) => count,
    };
    let offsets = offsets();
    for index in count..offsets.len() {
        let end = probe_end(bytes, offsets[index]);
        // The walk over the offsets stops here if bytes that are read to check it are missing, or
        // a valid header is there.
        if bytes.len() < end {
            return end;
        }
        if is_valid(bytes, offsets[index] as usize) {
            return found_end(bytes, offsets[index], search);
        }
        *search = Search::Passed(index + 1);
    }
    0
}
