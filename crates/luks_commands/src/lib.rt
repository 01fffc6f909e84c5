//! The commands of luksrd, run over sources and a sink.
//!
//! Also re-exports what the program needs from the layers below: the command line and the report of
//! a run.
#![tactic(auto)]

pub use luks_args::planning::{PlanFault, plan};
pub use luks_report::input_not_opened::{NOT_OPENED, not_opened_text};
pub use luks_report::message::Message;
pub use luks_report::report::Report;
pub use luks_request::command::{Command, MergeArgs, SlotChoice, SplitArgs, VolumeArgs};
pub use luks_request::number::{KeyBytes, StripeCount};

pub mod execute;
pub mod plan_fault;
