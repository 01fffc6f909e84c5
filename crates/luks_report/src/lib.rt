//! Every text that luksrd prints: messages with their statuses, and the texts of a header, which
//! are its UUID, its dump and the findings in it.
#![tactic(auto)]

pub mod check;
pub mod dump;
pub mod dump_line;
pub mod escaping;
mod fault_messages;
pub mod findings;
pub mod header_fault;
pub mod input_not_opened;
pub mod message;
pub mod message_line;
pub mod report;
pub mod usage;
pub mod volume_opened;
pub mod wording;
