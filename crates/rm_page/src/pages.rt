ghost use Rattle.std.specs.Prelude.{◌≡◌, ◌++◌, IfOk, OnOk};
ghost use Rattle.std.specs.List.{flat_map};
ghost use Rattle.rm_formats.specs.Page.{line_of, moves_line, letters, page, store_page};

use crate::entries::{lane_letter, lane_of_entry};
use crate::writing::Lines;
use rm_types::{Entry, Items, NoMemory, Op};
use std::alloc::Global;

/// The page of a log: a line for each entry in its order, but none for `Handed` and `Quiet`. With
/// `moves`, and where the log isn't empty, a last line has a letter for each entry, silent ones too.
///
/// `NoMemory` comes where no memory was found for the page. Nothing is kept of it then.
pub fn page(alloc: Global, log: &Items<Entry>, moves: bool) -> Result<Vec<u8>, NoMemory>
    ensures { IfOk result (λ bytes. bytes.items ≡ page log.now moves) }
{
    let mut lines = Lines::new(alloc);
    lines.entries(log)?;
    if moves {
        lines.moves_line(log)?;
    }
    Ok(lines.into_bytes())
}

/// The line of one entry, as a page has it, with its end: nothing for `Handed` and `Quiet`.
///
/// `NoMemory` comes where no memory was found for the line. Nothing is kept of it then.
pub fn entry_line(alloc: Global, entry: &Entry) -> Result<Vec<u8>, NoMemory>
    ensures { IfOk result (λ bytes. bytes.items ≡ line_of entry.now) }
{
    let mut lines = Lines::new(alloc);
    lines.entry(entry)?;
    Ok(lines.into_bytes())
}

/// The page of a store: a line `kept OP` for each operation, in its order.
///
/// `NoMemory` comes where no memory was found for the page. Nothing is kept of it then.
pub fn store_page(alloc: Global, ops: &Items<Op>) -> Result<Vec<u8>, NoMemory>
    ensures { IfOk result (λ bytes. bytes.items ≡ store_page ops.now) }
{
    let mut lines = Lines::new(alloc);
    'ops: for op in ops.as_slice() {
        lines.op_line(b"kept", op)?;
    }
    Ok(lines.into_bytes())
}

impl Lines {
    /// Writes the lines of the entries.
    fn entries(&mut self, log: &Items<Entry>) -> Result<(), NoMemory>
        ensures { OnOk result (self.new ≡ self.old ++ flat_map line_of log.now) }
    {
        'entries: for entry in log.as_slice() {
            self.entry(entry)?;
        }
        Ok(())
    }

    /// Writes the line of the moves, where there are any.
    fn moves_line(&mut self, log: &Items<Entry>) -> Result<(), NoMemory>
        ensures { OnOk result (self.new ≡ self.old ++ moves_line log.now) }
    {
        if log.is_empty() {
            return Ok(());
        }
        self.text(b"moves ")?;
        self.letters(log)?;
        self.text(b"\n")?;
        Ok(())
    }

    /// Writes the letter of each entry's lane.
    fn letters(&mut self, log: &Items<Entry>) -> Result<(), NoMemory>
        ensures { OnOk result (self.new ≡ self.old ++ letters log.now) }
    {
        'letters: for entry in log.as_slice() {
            self.byte(lane_letter(lane_of_entry(entry)))?;
        }
        Ok(())
    }
}
