ghost use Rattle.std.specs.Prelude.{◌≡◌, [], ◌∷◌, ◌++◌, decimal, OnOk};
ghost use Rattle.rm_formats.specs.IdTexts.{app_text, attempt_text, container_text};

use itoa::Buffer;
use rm_formats::ids::{write_app, write_attempt, write_container};
use rm_types::{AppId, AttemptId, ContainerId, NoMemory};
use std::alloc::Global;
use std::marker::Model;

/// What is written of a page so far. Contracts see the list of its bytes.
///
/// Each function that writes adds its text at the end. Where it answers `NoMemory`, some beginning of
/// the text may have been added, and the page is to be given up.
#[derive(Drop)]
pub struct Lines {
    bytes: Vec<u8>,
}

impl Model for Lines {
    ghost use Rattle.std.specs.Prelude.{List, ℕ};

    ghost Value = { List ℕ };

    ghost view = { λ a. a.bytes.items };
}

impl Lines {
    /// The empty page. It takes no memory.
    pub fn new(alloc: Global) -> Lines
        ensures { result ≡ [] }
    {
        Lines {
            bytes: Vec::new(alloc),
        }
    }

    /// Hands the bytes over, without a copy.
    pub fn into_bytes(self) -> Vec<u8>
        ensures { result.items ≡ self }
    {
        self.bytes
    }

    /// Writes bytes as they are.
    pub fn text(&mut self, bytes: &[u8]) -> Result<(), NoMemory>
        ensures { OnOk result (self.new ≡ self.old ++ bytes.now) }
    {
        self.bytes.extend_from_slice(bytes)?;
        Ok(())
    }

    /// Writes one byte.
    pub fn byte(&mut self, byte: u8) -> Result<(), NoMemory>
        ensures { OnOk result (self.new ≡ self.old ++ byte ∷ []) }
    {
        self.bytes.push(byte)?;
        Ok(())
    }

    /// Writes a number in decimal.
    pub fn number(&mut self, number: u64) -> Result<(), NoMemory>
        ensures { OnOk result (self.new ≡ self.old ++ decimal number) }
    {
        let mut buffer = Buffer::new();
        self.text(buffer.format(number).as_bytes())
    }

    /// Writes a name and then a text, as `queue=Q`.
    pub fn text_field(&mut self, name: &[u8], text: &[u8]) -> Result<(), NoMemory>
        ensures { OnOk result (self.new ≡ self.old ++ name.now ++ text.now) }
    {
        self.text(name)?;
        self.text(text)
    }

    /// Writes a name and then a number, as `memory=M`.
    pub fn number_field(&mut self, name: &[u8], number: u64) -> Result<(), NoMemory>
        ensures { OnOk result (self.new ≡ self.old ++ name.now ++ decimal number) }
    {
        self.text(name)?;
        self.number(number)
    }

    /// Writes the id of an application.
    pub fn app(&mut self, id: AppId) -> Result<(), NoMemory>
        ensures { OnOk result (self.new ≡ self.old ++ app_text id) }
    {
        write_app(id, &mut self.bytes)
    }

    /// Writes the id of an attempt.
    pub fn attempt(&mut self, id: AttemptId) -> Result<(), NoMemory>
        ensures { OnOk result (self.new ≡ self.old ++ attempt_text id) }
    {
        write_attempt(id, &mut self.bytes)
    }

    /// Writes the id of a container. Epoch 0 is not shown.
    pub fn container(&mut self, id: ContainerId) -> Result<(), NoMemory>
        ensures { OnOk result (self.new ≡ self.old ++ container_text id) }
    {
        write_container(id, &mut self.bytes)
    }
}
