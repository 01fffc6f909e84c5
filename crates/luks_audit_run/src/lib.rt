//! The runs of `luksrd-audit`, over images that a host opens and a sink.
//!
//! A [`Search`](search::Search) finds the headers that begin at a multiple of 512 bytes of an image,
//! in one pass. It holds 32 MiB of the image, and reads each header from there.
#![tactic(auto)]

mod buffer;
pub mod host;
pub mod image;
mod magic;
pub mod place;
pub mod run;
pub mod search;
