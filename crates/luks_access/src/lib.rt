//! Any part of a volume's plaintext, from an image that is read at offsets.
//!
//! A [`Volume`](volume::Volume) is opened by a passphrase as `luksCat` opens it, or also by key
//! slots that need Argon2. Each range that it reads is that part of what `luksCat` writes.
#![tactic(auto)]

pub use luks_header::derivation::Argon2Limits;
pub use luks_header::fault::HeaderFault;
pub use luks_header::refusal::SegmentFault;
pub use luks_kdf::Work;
pub use luks_open::allowed::SlotChoice;
pub use luks_open::fault::{OpenFault, PassphraseFault, VolumeFault};
pub use luks_open::location::HeaderLocation;
pub use luks_open::with_argon2::WithArgon2;
pub use luks_report::message::Message;

pub mod fault;
pub mod file;
pub mod headers;
pub mod image;
pub mod key;
pub mod memory;
pub mod options;
pub mod range;
pub mod sectors;
pub mod source;
pub mod step;
pub mod volume;
