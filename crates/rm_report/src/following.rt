ghost use Rattle.std.specs.Prelude.{◌≡◌, ◌++◌, ℕ, IfOk, OnOk, Err, count_by};
ghost use Rattle.rm_types.specs.Ranges.{IsText};
ghost use Rattle.rm_types.specs.declared.texts.TextKind.TheVariants as kinds;
ghost use Rattle.rm_page_reader.specs.Told.{IsNoPage};
ghost use Rattle.rm_report.specs.Naming.{names_subject};
ghost use Rattle.rm_report.specs.Following.{marks_life, line_told, rows, subject_text, follow_text, explained, row, mark, IsFollowed};

use crate::errors::ReportError;
use crate::meanings::meaning;
use crate::sheet::Sheet;
use crate::subjects::Subject;
use rm_page_reader::read_page;
use rm_types::{Entry, NoMemory};
use std::alloc::Global;

/// The lines of a page that name an application, an attempt, a container or a node, each with its number and what it means;
/// an application's attempts and containers and an attempt's containers are followed too. Between them stand, without numbers, the
/// lines at which a life begins or ends.
///
/// `NotAnId` comes only where the text is no id and can't be a node's name; `NotAPage` comes only where the bytes are no
/// page, and names the first line that is none of one; `Memory` may come of any bytes.
pub fn follow(alloc: Global, page: &[u8], id: &str) -> Result<Vec<u8>, ReportError>
    ensures told { IfOk result (λ report. IsFollowed page.now id.now report.items) }
    ensures not_an_id { result ≡ Err ReportError.NotAnId → IsText kinds.Node id.now → ⊥ }
    ensures not_a_page { (line : ℕ) → result ≡ Err (ReportError.NotAPage line) → IsNoPage page.now }
{
    let subject = Subject::read(alloc, id.as_bytes())?;
    let page = read_page(alloc, page)?;
    let mut sheet = Sheet::new(alloc);
    put_followed(alloc, &mut sheet, &subject, page.entries())?;
    Ok(sheet.into_bytes())
}

/// Writes what the id is taken for, how many lines name it, and then these lines.
fn put_followed(
    alloc: Global,
    sheet: &mut Sheet,
    subject: &Subject,
    entries: &[Entry],
) -> Result<(), NoMemory>
    ensures { OnOk result (sheet.new ≡ sheet.old ++ follow_text subject.now entries.now) }
{
    put_subject(sheet, subject)?;
    sheet.number(b": ", lines_naming(subject, entries))?;
    sheet.number(b" of ", entries.len())?;
    sheet.text(b" lines\n")?;
    put_rows(alloc, sheet, subject, entries)
}

/// Writes what an id is taken for.
fn put_subject(sheet: &mut Sheet, subject: &Subject) -> Result<(), NoMemory>
    ensures { OnOk result (sheet.new ≡ sheet.old ++ subject_text subject.now) }
{
    match subject {
        Subject::App(id) => sheet.app(*id),
        Subject::Attempt(id) => sheet.attempt(*id),
        Subject::Container(id) => sheet.container(*id),
        Subject::Node(node) => {
            sheet.text(b"node ")?;
            sheet.text(node.bytes())
        }
    }
}

/// How many of the lines name the subject.
fn lines_naming(subject: &Subject, entries: &[Entry]) -> usize
    ensures { result ≡ count_by (names_subject subject.now) entries.now }
{
    let mut naming = 0;
    'entries: for entry in entries {
        if subject.is_named_by(entry) {
            naming += 1;
        }
    }
    naming
}

/// Writes what is told of each line, in order.
fn put_rows(
    alloc: Global,
    sheet: &mut Sheet,
    subject: &Subject,
    entries: &[Entry],
) -> Result<(), NoMemory>
    ensures { OnOk result (sheet.new ≡ sheet.old ++ rows subject.now 0 entries.now) }
{
    let mut above: usize = 0;
    let mut rest = entries;
    'entries: while let [entry, more @ ..] = rest {
        above += 1;
        put_told(alloc, sheet, subject, above, entry)?;
        rest = more;
    }
    Ok(())
}

/// Writes what is told of one line: the line with its number, where it names the subject; the line alone where a life begins
/// or ends there; and else nothing.
fn put_told(
    alloc: Global,
    sheet: &mut Sheet,
    subject: &Subject,
    number: usize,
    entry: &Entry,
) -> Result<(), NoMemory>
    ensures { OnOk result (sheet.new ≡ sheet.old ++ line_told subject.now number entry.now) }
{
    if subject.is_named_by(entry) {
        put_row(alloc, sheet, number, entry)
    } else if marks_life(entry) {
        put_mark(alloc, sheet, entry)
    } else {
        Ok(())
    }
}

fn put_row(alloc: Global, sheet: &mut Sheet, number: usize, entry: &Entry) -> Result<(), NoMemory>
    ensures { OnOk result (sheet.new ≡ sheet.old ++ row number entry.now) }
{
    sheet.number(b"", number)?;
    sheet.text(b": ")?;
    put_line(alloc, sheet, entry)
}

fn put_mark(alloc: Global, sheet: &mut Sheet, entry: &Entry) -> Result<(), NoMemory>
    ensures { OnOk result (sheet.new ≡ sheet.old ++ mark entry.now) }
{
    sheet.text(b"-- ")?;
    put_line(alloc, sheet, entry)
}

/// Writes the line of an entry, and below it what it means.
fn put_line(alloc: Global, sheet: &mut Sheet, entry: &Entry) -> Result<(), NoMemory>
    ensures { OnOk result (sheet.new ≡ sheet.old ++ explained entry.now) }
{
    sheet.line(alloc, entry)?;
    sheet.text(b"    ")?;
    sheet.text(meaning(entry))?;
    sheet.text(b"\n")
}

/// Whether a life begins or ends with the entry.
fn marks_life(entry: &Entry) -> bool
    ensures { result ≡ marks_life entry.now }
{
    matches!(
        entry,
        Entry::Opened { .. } | Entry::Blown { .. } | Entry::Down
    )
}
