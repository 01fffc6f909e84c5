//! The inputs of a run, over the readers that the program opens.

ghost use Rattle.std.specs.Prelude.{◌≡◌};
ghost use Rattle.luks_io.specs.CallOutcomes.{GivesNext, OutcomeConsumes};
ghost use Rattle.luks_host.specs.Inputs.{is_refused};

use crate::storage::FileKind;
use luks_io::adapters::{CallOutcome, RawReader};

/// Whether an input of this kind is refused: a directory is, and so is the target of standard
/// output, since a run would read what it writes, or overwrite what it reads.
pub fn is_refused(kind: FileKind, is_output: bool) -> bool
    ensures { result ≡ is_refused kind is_output }
{
    match kind {
        FileKind::Directory => true,
        FileKind::Regular | FileKind::BlockDevice | FileKind::Other => is_output,
    }
}

/// An open input: a file, a pipe or a device with a name, standard input, or none. Each is read
/// only as far as a command requests or allows, so that the next program can read the rest.
#[derive(Drop)]
pub enum Input<F, S> {
    Named(F),
    Standard(S),
    Empty,
}

impl<F: RawReader, S: RawReader> RawReader for Input<F, S> {
    ghost use Rattle.luks_host.specs.Inputs.{answers_of, remaining_of, HasSameKind, HasEnded};

    ghost bytes = { remaining_of F.bytes S.bytes };

    ghost answers = { answers_of F.answers S.answers };

    /// Reads once from the reader that the input holds, and returns its answer. Without a reader,
    /// the answer is the end.
    fn call(&mut self, buf: &mut [u8]) -> CallOutcome
        ensures next { GivesNext (answers_of F.answers S.answers self.old) result
            (answers_of F.answers S.answers self.new) }
        ensures moved { OutcomeConsumes (remaining_of F.bytes S.bytes self.old)
            (remaining_of F.bytes S.bytes self.new) result buf.new }
        ensures same { HasSameKind self.old self.new }
        ensures empty { HasEnded self.old result }
    {
        match self {
            Input::Named(file) => file.call(buf),
            Input::Standard(standard) => standard.call(buf),
            Input::Empty => CallOutcome::Moved(0),
        }
    }
}
