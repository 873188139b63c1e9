ghost use Rattle.std.specs.Prelude.{◌≡◌, ◌++◌, OnOk};
ghost use Rattle.rm_report.specs.Summaries.{end_of, life_end_text, life_text, lives_text};

use crate::sheet::Sheet;
use rm_types::{Entry, NoMemory};

/// How a life ended.
#[derive(Clone, Copy)]
pub(crate) enum LifeEnd {
    /// The manager went down.
    AtCrash,
    /// The store's device refused a call after so many.
    AtRefusal(u32),
    /// Not by the end of the page.
    AtPageEnd,
}

/// Writes a line for each life.
pub(crate) fn put_lives(sheet: &mut Sheet, entries: &[Entry]) -> Result<(), NoMemory>
    ensures { OnOk result (sheet.new ≡ sheet.old ++ lives_text 0 entries.now) }
{
    let mut number: usize = 0;
    let mut rest = entries;
    'entries: while let [entry, more @ ..] = rest {
        if let Entry::Opened {
            landed,
            epoch,
            stamp,
        } = entry
        {
            number += 1;
            put_life(sheet, number, *landed, *epoch, *stamp, end_of(more))?;
        }
        rest = more;
    }
    Ok(())
}

fn put_life(
    sheet: &mut Sheet,
    number: usize,
    landed: u32,
    epoch: u32,
    stamp: u64,
    end: LifeEnd,
) -> Result<(), NoMemory>
    ensures { OnOk result (sheet.new ≡ sheet.old ++ life_text number landed epoch stamp end) }
{
    sheet.number(b"life ", number)?;
    sheet.number(b": epoch ", epoch)?;
    sheet.number(b", stamp ", stamp)?;
    sheet.number(b", landed ", landed)?;
    put_end(sheet, end)?;
    Ok(())
}

fn put_end(sheet: &mut Sheet, end: LifeEnd) -> Result<(), NoMemory>
    ensures { OnOk result (sheet.new ≡ sheet.old ++ life_end_text end) }
{
    match end {
        LifeEnd::AtCrash => sheet.text(b", went down\n"),
        LifeEnd::AtRefusal(passed) => {
            sheet.number(b", kept no more after ", passed)?;
            sheet.text(b" device calls\n")?;
            Ok(())
        }
        LifeEnd::AtPageEnd => sheet.text(b", open at the end of the page\n"),
    }
}

/// How the life ends that goes on before these entries.
fn end_of(entries: &[Entry]) -> LifeEnd
    ensures { result ≡ end_of entries.now }
{
    let mut rest = entries;
    'entries: while let [entry, more @ ..] = rest {
        match entry {
            Entry::Opened { .. } => return LifeEnd::AtPageEnd,
            Entry::Blown { passed } => return LifeEnd::AtRefusal(*passed),
            Entry::Down => return LifeEnd::AtCrash,
            _ => rest = more,
        }
    }
    LifeEnd::AtPageEnd
}
