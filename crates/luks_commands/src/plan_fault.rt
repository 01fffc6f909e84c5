//! The report of a run whose arguments give no command.

ghost use Rattle.std.specs.Prelude.{◌≡◌};
ghost use Rattle.luks_commands.specs.NoCommand.{message_for_plan};

use luks_args::planning::PlanFault;
use luks_report::message::Message;
use luks_report::report::Report;

/// The report if the arguments gave no command.
pub fn report_of_fault(fault: PlanFault) -> Report
    ensures message { result.message ≡ message_for_plan fault }
    ensures work { result.work ≡ 0 }
{
    match fault {
        PlanFault::Usage => Report::of(Message::Usage, 0),
        PlanFault::Memory => Report::of(Message::OutOfMemory, 0),
    }
}
