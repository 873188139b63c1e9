ghost use Rattle.std.specs.Prelude.{◌≡◌, [], ◌++◌, OnOk};
ghost use Rattle.std.specs.Fmt.{decimal};
ghost use Rattle.rm_formats.specs.IdTexts.{app_text, attempt_text, container_text};
ghost use Rattle.rm_formats.specs.Page.{line_of};

use itoa::{Buffer, Integer};
use rm_formats::ids::{write_app, write_attempt, write_container};
use rm_page::entry_line;
use rm_types::{AppId, AttemptId, ContainerId, Entry, NoMemory};
use std::alloc::Global;
use std::marker::Model;

/// What is written of a report so far. Contracts see the list of its bytes.
///
/// Each function that writes adds its text at the end. Where it answers `NoMemory`, some beginning of the text may have been
/// added, and the report is to be given up.
#[derive(Drop)]
pub(crate) struct Sheet {
    bytes: Vec<u8>,
}

impl Model for Sheet {
    ghost use Rattle.std.specs.Prelude.{List, ℕ};

    ghost Value = { List ℕ };

    ghost view = { λ a. a.bytes.items };
}

impl Sheet {
    /// The empty report. It takes no memory.
    pub(crate) fn new(alloc: Global) -> Sheet
        ensures { result ≡ [] }
    {
        Sheet {
            bytes: Vec::new(alloc),
        }
    }

    /// Hands the bytes over, without a copy.
    pub(crate) fn into_bytes(self) -> Vec<u8>
        ensures { result.items ≡ self }
    {
        self.bytes
    }

    /// Writes bytes as they are.
    pub(crate) fn text(&mut self, bytes: &[u8]) -> Result<(), NoMemory>
        ensures { OnOk result (self.new ≡ self.old ++ bytes.now) }
    {
        self.bytes.extend_from_slice(bytes)?;
        Ok(())
    }

    /// Writes a name and then a number in decimal.
    pub(crate) fn number<N: Integer>(&mut self, name: &[u8], number: N) -> Result<(), NoMemory>
        ensures { OnOk result (self.new ≡ self.old ++ name.now ++ N.text number) }
    {
        let mut buffer = Buffer::new();
        self.text(name)?;
        self.text(buffer.format(number).as_bytes())
    }

    /// Writes the id of an application.
    pub(crate) fn app(&mut self, id: AppId) -> Result<(), NoMemory>
        ensures { OnOk result (self.new ≡ self.old ++ app_text id) }
    {
        write_app(id, &mut self.bytes)
    }

    /// Writes the id of an attempt.
    pub(crate) fn attempt(&mut self, id: AttemptId) -> Result<(), NoMemory>
        ensures { OnOk result (self.new ≡ self.old ++ attempt_text id) }
    {
        write_attempt(id, &mut self.bytes)
    }

    /// Writes the id of a container.
    pub(crate) fn container(&mut self, id: ContainerId) -> Result<(), NoMemory>
        ensures { OnOk result (self.new ≡ self.old ++ container_text id) }
    {
        write_container(id, &mut self.bytes)
    }

    /// Writes the line of an entry, as a page has it.
    pub(crate) fn line(&mut self, alloc: Global, entry: &Entry) -> Result<(), NoMemory>
        ensures { OnOk result (self.new ≡ self.old ++ line_of entry.now) }
    {
        let line = entry_line(alloc, entry)?;
        self.text(line.as_slice())
    }
}
