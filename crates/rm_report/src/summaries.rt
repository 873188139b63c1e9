ghost use Rattle.std.specs.Prelude.{◌≡◌, ◌++◌, ℕ, All, Err, IfOk, OnOk, sum_by};
ghost use Rattle.rm_page.specs.Ranges.{IsEntry};
ghost use Rattle.rm_page_reader.specs.Told.{IsNoPage, entries_of};
ghost use Rattle.rm_report.specs.Counting.{kept_bytes_in};
ghost use Rattle.rm_report.specs.Summaries.{IsSummary, summary_text, log_text, head_text, jobs_text, replies_text, grants_text, endings_text, store_text, soak_summary};

use crate::counting::{
    Done, Failed, Finished, Gone, Granted, Issued, Jobs, Kept, Killed, Lives, Lost, Over, Passes,
    Released, Removed, Served, Taken, total,
};
use crate::lives::put_lives;
use crate::longest::longest;
use crate::sheet::Sheet;
use crate::tallies::{Answers, Denials, put_tally};
use rm_frame::Encoder;
use rm_page_reader::{Page, PageError, SoakLine, read_page};
use rm_types::{Entry, NoMemory};
use std::alloc::Global;

/// A screen that tells what a page comes to: its lives and how each ended; the jobs whose submission is kept, by their final word;
/// replies by their word, and denials by queue, each with no more than forty names; containers that were granted, taken in again and
/// ended, by cause; the longest list; and the operations with the bytes of their frames. Of a soak's line it tells the numbers.
///
/// `NotAPage` comes only where the bytes are no page, and names the first line that is none of one; `Memory` may come of any bytes.
#[tactic(auto, using(crate::proofs::ToldRanges::told_ranges))]
pub fn summary(alloc: Global, page: &[u8]) -> Result<Vec<u8>, PageError>
    ensures told { IfOk result (λ report. IsSummary page.now report.items) }
    ensures not_a_page { (line : ℕ) → result ≡ Err (PageError.NotAPage line) → IsNoPage page.now }
{
    let page = read_page(alloc, page)?;
    let mut sheet = Sheet::new(alloc);
    put_summary(alloc, &mut sheet, &page)?;
    Ok(sheet.into_bytes())
}

fn put_summary(alloc: Global, sheet: &mut Sheet, page: &Page) -> Result<(), NoMemory>
    requires { All IsEntry (entries_of page.now) }
    ensures { OnOk result (sheet.new ≡ sheet.old ++ summary_text page.now) }
{
    match page {
        Page::Log { entries, moves } => put_log(alloc, sheet, entries.as_slice(), *moves),
        Page::Soak(soak) => put_soak(sheet, *soak),
    }
}

fn put_log(alloc: Global, sheet: &mut Sheet, entries: &[Entry], moves: bool) -> Result<(), NoMemory>
    requires { All IsEntry entries.now }
    ensures { OnOk result (sheet.new ≡ sheet.old ++ log_text entries.now moves) }
{
    put_head(sheet, entries, moves)?;
    put_lives(sheet, entries)?;
    put_jobs(sheet, entries)?;
    put_replies(alloc, sheet, entries)?;
    put_grants(sheet, entries)?;
    put_endings(sheet, entries)?;
    put_store(alloc, sheet, entries)?;
    Ok(())
}

fn put_head(sheet: &mut Sheet, entries: &[Entry], moves: bool) -> Result<(), NoMemory>
    ensures { OnOk result (sheet.new ≡ sheet.old ++ head_text entries.now moves) }
{
    sheet.number(b"", entries.len())?;
    sheet.number(b" lines, ", total::<Lives>(entries))?;
    sheet.text(b" lives")?;
    if moves {
        sheet.text(b", with the moves")?;
    }
    sheet.text(b"\n")?;
    Ok(())
}

fn put_jobs(sheet: &mut Sheet, entries: &[Entry]) -> Result<(), NoMemory>
    ensures { OnOk result (sheet.new ≡ sheet.old ++ jobs_text entries.now) }
{
    let kept = total::<Jobs>(entries);
    let finished = total::<Finished>(entries);
    let failed = total::<Failed>(entries);
    let killed = total::<Killed>(entries);
    let living = kept
        .saturating_sub(finished)
        .saturating_sub(failed)
        .saturating_sub(killed);
    sheet.number(b"jobs: ", kept)?;
    sheet.number(b" kept, ", finished)?;
    sheet.number(b" FINISHED, ", failed)?;
    sheet.number(b" FAILED, ", killed)?;
    sheet.number(b" KILLED, ", living)?;
    sheet.number(b" live, ", total::<Removed>(entries))?;
    sheet.text(b" removed\n")?;
    Ok(())
}

fn put_replies(alloc: Global, sheet: &mut Sheet, entries: &[Entry]) -> Result<(), NoMemory>
    ensures { OnOk result (sheet.new ≡ sheet.old ++ replies_text entries.now) }
{
    sheet.number(b"replies: ", total::<Served>(entries))?;
    sheet.text(b":")?;
    put_tally::<Answers>(alloc, sheet, entries)?;
    sheet.text(b"\ndenials:")?;
    put_tally::<Denials>(alloc, sheet, entries)?;
    sheet.text(b"\n")?;
    Ok(())
}

fn put_grants(sheet: &mut Sheet, entries: &[Entry]) -> Result<(), NoMemory>
    ensures { OnOk result (sheet.new ≡ sheet.old ++ grants_text entries.now) }
{
    sheet.number(b"containers: ", total::<Granted>(entries))?;
    sheet.number(b" granted in ", total::<Passes>(entries))?;
    sheet.number(b" passes, ", total::<Taken>(entries))?;
    sheet.text(b" taken in again\n")?;
    Ok(())
}

fn put_endings(sheet: &mut Sheet, entries: &[Entry]) -> Result<(), NoMemory>
    ensures { OnOk result (sheet.new ≡ sheet.old ++ endings_text entries.now) }
{
    sheet.number(b"endings: ", total::<Done>(entries))?;
    sheet.number(b" done, ", total::<Released>(entries))?;
    sheet.number(b" released, ", total::<Lost>(entries))?;
    sheet.number(b" node, ", total::<Over>(entries))?;
    sheet.number(b" attempt, ", total::<Gone>(entries))?;
    sheet.text(b" gone\n")?;
    Ok(())
}

fn put_store(alloc: Global, sheet: &mut Sheet, entries: &[Entry]) -> Result<(), NoMemory>
    requires { All IsEntry entries.now }
    ensures { OnOk result (sheet.new ≡ sheet.old ++ store_text entries.now) }
{
    sheet.number(b"longest list: ", longest(entries))?;
    sheet.number(b"\noperations: ", total::<Issued>(entries))?;
    sheet.number(b" issued, ", total::<Kept>(entries))?;
    sheet.number(b" kept of ", kept_bytes(alloc, entries)?)?;
    sheet.text(b" bytes\n")?;
    Ok(())
}

/// The bytes of the frames of all operations that are kept.
fn kept_bytes(alloc: Global, entries: &[Entry]) -> Result<u128, NoMemory>
    requires { All IsEntry entries.now }
    ensures { IfOk result (λ bytes. bytes ≡ sum_by kept_bytes_in entries.now) }
{
    let mut encoder = Encoder::new(alloc);
    let mut total = 0;
    'entries: for entry in entries {
        total += frame_bytes(&mut encoder, entry)? as u128;
    }
    Ok(total)
}

/// The bytes of the frame of the operation that the entry keeps; none, where it keeps none.
fn frame_bytes(encoder: &mut Encoder, entry: &Entry) -> Result<usize, NoMemory>
    requires { IsEntry entry.now }
    ensures { IfOk result (λ bytes. bytes ≡ kept_bytes_in entry.now) }
{
    match entry {
        Entry::Kept { op } => Ok(encoder.frame(op.get())?.len()),
        _ => Ok(0),
    }
}

fn put_soak(sheet: &mut Sheet, soak: SoakLine) -> Result<(), NoMemory>
    ensures { OnOk result (sheet.new ≡ sheet.old ++ soak_summary soak) }
{
    sheet.number(b"a soak of ", soak.apps)?;
    sheet.number(b" applications\nlives: ", soak.lives)?;
    sheet.number(b"\nmessages: ", soak.served)?;
    sheet.number(b" served\ncontainers: ", soak.grants)?;
    sheet.number(b" granted\njobs: ", soak.finished)?;
    sheet.number(b" FINISHED\noperations: ", soak.kept)?;
    sheet.text(b" kept\n")?;
    Ok(())
}
