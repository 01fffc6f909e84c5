//! An image as one line: its header, or why it has none.

ghost use Rattle.std.specs.Prelude.{◌≡◌, Bool, IfOk, OnErr};
ghost use Rattle.luks_io.specs.Counts.{Reads};
ghost use Rattle.luks_io.specs.Devices.{IfKnown};
ghost use Rattle.luks_audit.specs.Image.{IsAudited, IsAuditedAnyway, fault_line};
ghost use Rattle.luks_audit.specs.Image.{fault_state, header_line, header_state};

use crate::audit::audit_header;
use crate::line::{Format, error_tree, line_text};
use crate::weak_row::Severity;
use luks_header::fault::HeaderFault;
use luks_header::header::{Header, read_header};
use luks_io::source::Source;
use luks_report::header_fault::fault_listed;
use std::alloc::{AllocError, Global};

/// How headers are audited and printed.
#[derive(Clone, Copy)]
pub struct Policy {
    /// The least number of PBKDF2 iterations that is not weak; without one, OWASP's figures apply.
    pub minimum: Option<u32>,
    /// How severe a weakness must be to make a header flawed.
    pub fail_on: Severity,
    /// How objects are printed.
    pub format: Format,
}

/// What the audit of an image showed.
#[derive(Clone, Copy)]
pub enum State {
    /// Nothing is wrong, and nothing weak that the policy counts.
    Clean,
    /// Something is, or there is no header.
    Flawed,
    /// The image could not be read.
    Unread,
}

/// The line of an image, and what its audit showed.
#[derive(Drop)]
pub struct ImageLine {
    /// The line.
    pub line: Vec<u8>,
    /// What the audit showed.
    pub state: State,
}

// What the audit showed if there is no header.
fn fault_state(fault: HeaderFault) -> State
    ensures { result ≡ fault_state fault }
{
    match fault {
        HeaderFault::NotLuks | HeaderFault::Cut | HeaderFault::Json => State::Flawed,
        HeaderFault::Read | HeaderFault::Memory => State::Unread,
    }
}

/// The line of an image without a header.
///
/// # Errors
///
/// `AllocError` if memory runs out.
pub fn fault_line(
    alloc: Global,
    format: Format,
    file: &str,
    fault: HeaderFault,
) -> Result<Vec<u8>, AllocError>
    ensures { IfOk result (λ line. line.items ≡ fault_line format file.now fault) }
{
    let tree = error_tree(alloc, file, fault_listed(fault))?;
    line_text(alloc, format, &tree)
}

/// The line of a header that was found in a file at this offset, and what its audit showed.
///
/// # Errors
///
/// `AllocError` if memory runs out.
pub fn header_line(
    alloc: Global,
    policy: Policy,
    file: &str,
    offset: u64,
    header: &Header,
) -> Result<ImageLine, AllocError>
    ensures { IfOk result (λ made.
        (made.line.items ≡ header_line policy file.now offset header.now)
        × (made.state ≡ header_state policy header.now)) }
{
    let audit = audit_header(alloc, policy, file, offset, header)?;
    let line = line_text(alloc, policy.format, &audit.tree)?;
    let state = if audit.is_clean {
        State::Clean
    } else {
        State::Flawed
    };
    Ok(ImageLine { line, state })
}

/// Reads the header at an image's start, and returns its line. The image is read no further than
/// [`read_header`] reads it.
///
/// # Errors
///
/// `AllocError` if memory ran out while the line was made.
pub fn audit_image<S: Source>(
    alloc: Global,
    policy: Policy,
    file: &str,
    source: &mut S,
) -> Result<ImageLine, AllocError>
    ensures audited { IfOk result (λ made. (failed : Bool) × (ended : Bool)
        × Reads failed ended (S.counts source.old) (S.counts source.new)
        × IfKnown (S.to_come source.old) (λ image.
        IsAudited failed policy file.now image made.line.items made.state)
        × IsAuditedAnyway failed policy file.now made.line.items made.state) }
    ensures aborted { OnErr result ((failed : Bool) × (ended : Bool)
        × Reads failed ended (S.counts source.old) (S.counts source.new)) }
{
    match read_header(alloc, source) {
        Ok((header, _)) => {
            let made = header_line(alloc, policy, file, 0, &header)?;
            Ok(made)
        }
        Err(fault) => {
            let line = fault_line(alloc, policy.format, file, fault)?;
            Ok(ImageLine {
                line,
                state: fault_state(fault),
            })
        }
    }
}
