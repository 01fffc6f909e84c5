//! Volumes of both formats made from values that are all passed in, for tests and for proofs about
//! honest volumes: `seal1` of `luks1` makes one of LUKS1, `seal2` of `luks2` one of LUKS2.
//!
//! Nothing is generated: the caller passes in each salt and each random stripe. The parameters, the
//! ranges that both formats share, and the pieces that images are put together from are here, too.
//! [`Pump`], which reads the payload of a volume, comes from `luks_payload`.
#![tactic(auto)]

pub use luks_payload::fault::PayloadFault;
pub use luks_payload::pump::Pump;
pub use luks_payload::state::Step;
pub use luks1::seal1;
pub use luks2::seal2;
pub use parameters::{Seal1, Seal2, SealFault};

pub mod luks1;
pub mod luks2;
pub mod parameters;
pub mod pieces;
pub mod ranges;
pub mod slots;
pub mod typed;
