//! What is told on standard error of a call of the tool that wasn't Done.
use crate::outcomes::ToolOutcome;
use std::fmt;
use std::fmt::{Display, Formatter, Write};

/// The modes and the statuses, behind the line about words of another form.
const USAGE: &str = "modes:
  check FILE          says whether the store in the file is whole
  convert OLD NEW     writes a store of the old form, one journal, as one of two areas
  salvage FILE NEW    writes what can be read of a damaged store as a new one
  summary PAGE        tells in short what a page tells
  follow PAGE ID      tells the lines of a page that name an application, an attempt, a container or a node
  draw PAGE           draws the run of a page, as an SVG
statuses:
  0 done   1 words   2 a file not read   3 the page not written   5 no page   7 the new file failed, or is there already
  8 no whole store   9 the operations don't fit   11 out of memory
manual: docs/OPERATING.md and docs/FORMATS.md";

/// What is told of a call: one line, and behind that the modes and statuses where the words ask for nothing.
#[derive(Clone, Copy)]
pub struct Message<'a, C> {
    pub outcome: ToolOutcome,
    /// The program's path, and the file that the line is about.
    pub program: &'a str,
    pub file: &'a str,
    /// Why the system refused, where it did.
    pub cause: Option<C>,
}

impl<C: Display> Display for Message<'_, C> {
    fn fmt<W: Write>(&self, f: &mut Formatter<W>) -> fmt::Result {
        let outcome = self.outcome;
        write!(f, "{}: ", self.program.escape_default())?;
        match outcome {
            ToolOutcome::Usage => return write!(f, "{outcome}\n{USAGE}"),
            ToolOutcome::WriteFault { .. } | ToolOutcome::Memory => write!(f, "{outcome}")?,
            _ => write!(f, "{}: {outcome}", self.file.escape_default())?,
        }
        match &self.cause {
            Some(cause) => write!(f, ": {cause}"),
            None => Ok(()),
        }
    }
}
