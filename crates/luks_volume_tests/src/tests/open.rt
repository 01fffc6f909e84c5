//! Small volumes that are opened.

mod argon2;
mod opening;
mod ordering;
mod volumes;
