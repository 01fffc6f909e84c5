//! Tests, by the crate that they test.

mod argon2;
mod cipher;
mod host;
mod io;
mod kdf;
