//! What is in a LUKS header, and what is weak about it, as JSON.
//!
//! A header of either format becomes the same [`rows`], which say what each field is;
//! [`audit_header`](audit::audit_header) lists them with the header's findings and weaknesses.
//! [`audit_image`](image::audit_image) reads an image's header and returns the line about it.
#![tactic(auto)]

pub mod audit;
mod cipher;
mod finding;
mod float;
pub mod image;
mod key_len;
pub mod line;
mod luks1;
mod luks2;
mod mark;
mod members;
pub mod program;
pub mod rows;
mod rule;
mod shape;
mod table;
pub mod text;
mod token;
pub mod tree;
mod verdict;
mod weak_array;
pub mod weak_row;
pub mod weakness;
