//! Opening a volume by a passphrase: its header, at its location; the order in which its key slots
//! are tried, within limits; the keys that they give, by PBKDF2 and Argon2; the volume key, and the
//! digest that it has to match.
#![tactic(auto)]

pub mod allowed;
pub mod derive;
mod digest_match;
mod entry;
pub mod fault;
pub mod found;
mod held;
pub mod key;
pub mod key_file;
pub mod location;
mod material;
pub mod opening;
pub mod order;
pub mod ordering;
pub mod skipped;
pub mod trying;
pub mod unlocked;
pub mod volume_key;
pub mod with_argon2;
