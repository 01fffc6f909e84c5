//! What the programs do with the files and the devices of their host: what they ask of the system,
//! how inputs are opened, which files standard output must not write to, and how a run ends.
#![tactic(auto)]

pub mod descriptors;
pub mod device_number;
pub mod ending;
pub mod file_kind;
pub mod input;
pub mod is_output;
pub mod loop_device;
pub mod open_input;
pub mod output;
pub mod storage;
pub mod system;
