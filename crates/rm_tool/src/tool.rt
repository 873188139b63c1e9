ghost use Rattle.std.specs.Prelude.{◌≡◌, ◌⊎◌, ◌<◌, true, false, Err, IfErr, IfOk, Some, length, map, string_bytes};
ghost use Rattle.rm_types.specs.Counts.{Rose};
ghost use Rattle.rm_tool.specs.Outcomes.{IsBeforePage};
ghost use Rattle.rm_tool.specs.Runs.{Checks, Comes, Converts, FollowsReport, IsNotRead, IsNotReadWhole, IsPageFileReport, ToolIsUnread, IsToolText, KeepsStore, Reports, Salvages, ToolWrites};
ghost use Rattle.rm_outside.specs.Shelves.{WereRead};
ghost use Rattle.rm_report.specs.Following.{IsFollowed};
ghost use Rattle.rm_report.specs.Summaries.{IsSummary};
ghost use Rattle.rm_tool.specs.Words.{requested, request_of};

use crate::outcomes::{ToolOutcome, after_page, of_fault, of_page, of_report, of_write};
use crate::pages::{check_page, convert_page, salvage_page};
use crate::salvage::{
    ConvertError, FixedDisk, Salvaged, check, kept_operations, old_operations, salvage, write_anew,
};
use crate::store_files::bring_to_size;
use crate::words::{Mode, mode_of};
use rm_disk::Disk;
use rm_formats::STORE_SIZE;
use rm_outside::{MOST_READ, Shelf, ShelfError, Sink, write_all};
use rm_report::chart::draw;
use rm_report::{follow, summary};
use rm_types::{Items, NoMemory};
use std::alloc::Global;

/// What the tool does by its words: it reads the named file from the shelf, writes the store that was asked for on the new disk, and then its page
/// to the sink; or what was asked for of a page.
///
/// - `comes`: `Usage` comes exactly where the words are of another form, unless it is `Memory`. A check is `Done` only where the file is a whole
///   store, and `Faulty` only where this is its fault: of two areas exactly what the manager refuses to open it for. A conversion is `Done` only where
///   the file is a whole store of the old form, and then the new disk holds what is left of its operations. A salvage that is `Done` left the longest
///   front of operations that are whole and not stray on the new disk. `NotAnId` comes only where the word is no id and can't be a node's name, and
///   `NotAPage` only where the file is no page, all of it; of a longer file than is read whole `TooLong` comes.
/// - `any_moment`: where a crash left a store without operations on the new disk before, at every moment of the call it leaves a store that the manager
///   opens.
/// - `writes`: `summary` that is Done wrote exactly the summary of the page, and `follow` exactly what the page tells of the id.
/// - `read_fault`, `write_fault`, `took_nothing`, `disk_fault`: each comes only where what it tells was counted there.
#[tactic(auto, using(crate::proofs::Comings::comes_after, crate::proofs::Comings::read_before, crate::proofs::Comings::disk_before, crate::proofs::Comings::fault_before, crate::proofs::Comings::nothing_before, crate::proofs::Comings::done_before, crate::proofs::Moments::store_untouched))]
pub fn top<F: Shelf, K: Sink, D: Disk>(
    alloc: Global,
    words: &[String],
    shelf: &mut F,
    sink: &mut K,
    new: &mut D,
) -> ToolOutcome
    ensures comes { Comes (F.bytes_of shelf.old) (request_of (map string_bytes words.now)) (D.view new.new) result }
    ensures writes { result ≡ ToolOutcome.Done → ToolWrites (F.bytes_of shelf.old) (request_of (map string_bytes words.now)) (K.taken sink.old) (K.taken sink.new) }
    ensures told { F.bytes_of shelf.new ≡ F.bytes_of shelf.old }
    ensures read_fault { result ≡ ToolOutcome.ReadFault → Rose (F.faults shelf.old) (F.faults shelf.new) }
    ensures write_fault { result ≡ ToolOutcome.WriteFault false → Rose (K.faults sink.old) (K.faults sink.new) }
    ensures took_nothing { result ≡ ToolOutcome.WriteFault true → Rose (K.idle sink.old) (K.idle sink.new) }
    ensures disk_fault { result ≡ ToolOutcome.DiskFault → D.faulted new.old new.new }
    ensures any_moment { KeepsStore (D.view new.old) (D.view new.new) }
{
    let mode = match mode_of(alloc, words) {
        Ok(Some(mode)) => mode,
        Ok(None) => return ToolOutcome::Usage,
        Err(NoMemory) => return ToolOutcome::Memory,
    };
    let Made { page, outcome } = make(alloc, mode, shelf, new);
    after_page(outcome, write_all(sink, &page))
}

/// What a call made: its page, and what it comes to where that is written.
#[derive(Drop)]
struct Made {
    page: Vec<u8>,
    outcome: ToolOutcome,
}

/// A call that was stopped before it had a page.
fn stopped(alloc: Global, outcome: ToolOutcome) -> Made
    ensures { result.outcome ≡ outcome }
{
    Made {
        page: Vec::new(alloc),
        outcome,
    }
}

/// A call with its page, where there was memory for that.
fn with_page(alloc: Global, page: Result<Vec<u8>, NoMemory>, outcome: ToolOutcome) -> Made
    ensures { (result.outcome ≡ outcome) ⊎ (result.outcome ≡ ToolOutcome.Memory) }
{
    match page {
        Ok(page) => Made { page, outcome },
        Err(NoMemory) => stopped(alloc, ToolOutcome::Memory),
    }
}

/// Does what a mode asks for, up to its page.
#[tactic(auto, using(crate::proofs::Moments::store_untouched, crate::proofs::Moments::store_written))]
fn make<F: Shelf, D: Disk>(alloc: Global, mode: Mode<'_>, shelf: &mut F, new: &mut D) -> Made
    ensures comes { Comes (F.bytes_of shelf.old) (Some (requested mode.entry)) (D.view new.new) result.outcome }
    ensures written { result.outcome ≡ ToolOutcome.Done → IsToolText (F.bytes_of shelf.old) (requested mode.entry) result.page.items }
    ensures told { F.bytes_of shelf.new ≡ F.bytes_of shelf.old }
    ensures read_fault { result.outcome ≡ ToolOutcome.ReadFault → Rose (F.faults shelf.old) (F.faults shelf.new) }
    ensures not_written { IsBeforePage result.outcome }
    ensures disk_fault { result.outcome ≡ ToolOutcome.DiskFault → D.faulted new.old new.new }
    ensures any_moment { KeepsStore (D.view new.old) (D.view new.new) }
{
    match mode {
        Mode::Check { file } => check_file(alloc, shelf, file),
        Mode::Convert { old, .. } => convert_file(alloc, shelf, old, new),
        Mode::Salvage { file, .. } => salvage_file(alloc, shelf, file, new),
        Mode::Summary { page } => summarize_file(alloc, shelf, page),
        Mode::Follow { page, id } => follow_file(alloc, shelf, page, id),
        Mode::Draw { page } => draw_file(alloc, shelf, page),
    }
}

/// Reads a file.
fn read<F: Shelf>(shelf: &mut F, name: &str) -> Result<Vec<u8>, ToolOutcome>
    ensures bytes { IfOk result (λ bytes. WereRead (F.bytes_of shelf.old name.now) bytes.items) }
    ensures told { F.bytes_of shelf.new ≡ F.bytes_of shelf.old }
    ensures errors { IfErr result ToolIsUnread }
    ensures failed { result ≡ Err ToolOutcome.ReadFault → Rose (F.faults shelf.old) (F.faults shelf.new) }
{
    match shelf.read(name) {
        Ok(bytes) => Ok(bytes),
        Err(ShelfError::Failed) => Err(ToolOutcome::ReadFault),
        Err(ShelfError::Memory) => Err(ToolOutcome::Memory),
    }
}

/// Reads the file of a store, which must have the length of one.
fn read_store<F: Shelf>(shelf: &mut F, name: &str) -> Result<FixedDisk, ToolOutcome>
    ensures bytes { IfOk result (WereRead (F.bytes_of shelf.old name.now)) }
    ensures told { F.bytes_of shelf.new ≡ F.bytes_of shelf.old }
    ensures errors { IfErr result (IsNotRead (F.bytes_of shelf.old name.now)) }
    ensures failed { result ≡ Err ToolOutcome.ReadFault → Rose (F.faults shelf.old) (F.faults shelf.new) }
{
    let bytes = read(shelf, name)?;
    if bytes.len() != STORE_SIZE as usize {
        let length = bytes.len() as u64;
        return Err(ToolOutcome::OtherLength { length });
    }
    Ok(FixedDisk::new(Items::from_vec(bytes)))
}

/// Reads the file of a page, all of it.
fn read_page_file<F: Shelf>(shelf: &mut F, name: &str) -> Result<Vec<u8>, ToolOutcome>
    ensures bytes { IfOk result (λ bytes. WereRead (F.bytes_of shelf.old name.now) bytes.items) }
    ensures whole { IfOk result (λ bytes. length bytes.items < MOST_READ) }
    ensures told { F.bytes_of shelf.new ≡ F.bytes_of shelf.old }
    ensures errors { IfErr result (IsNotReadWhole (F.bytes_of shelf.old name.now)) }
    ensures failed { result ≡ Err ToolOutcome.ReadFault → Rose (F.faults shelf.old) (F.faults shelf.new) }
{
    let bytes = read(shelf, name)?;
    if bytes.len() < MOST_READ {
        Ok(bytes)
    } else {
        Err(ToolOutcome::TooLong)
    }
}

/// Says whether the store in a file is whole.
fn check_file<F: Shelf>(alloc: Global, shelf: &mut F, file: &str) -> Made
    ensures comes { Checks (F.bytes_of shelf.old file.now) result.outcome }
    ensures told { F.bytes_of shelf.new ≡ F.bytes_of shelf.old }
    ensures read_fault { result.outcome ≡ ToolOutcome.ReadFault → Rose (F.faults shelf.old) (F.faults shelf.new) }
    ensures not_written { IsBeforePage result.outcome }
{
    let disk = match read_store(shelf, file) {
        Ok(disk) => disk,
        Err(outcome) => return stopped(alloc, outcome),
    };
    let Ok(checked) = check(alloc, disk) else {
        return stopped(alloc, ToolOutcome::Memory);
    };
    let outcome = of_fault(checked.fault);
    with_page(alloc, check_page(alloc, &checked), outcome)
}

/// Writes the store of the old form in a file as one of two areas.
#[tactic(auto, using(crate::proofs::Moments::store_untouched, crate::proofs::Moments::store_written))]
fn convert_file<F: Shelf, D: Disk>(alloc: Global, shelf: &mut F, old: &str, new: &mut D) -> Made
    ensures comes { Converts (F.bytes_of shelf.old old.now) (D.view new.new) result.outcome }
    ensures told { F.bytes_of shelf.new ≡ F.bytes_of shelf.old }
    ensures read_fault { result.outcome ≡ ToolOutcome.ReadFault → Rose (F.faults shelf.old) (F.faults shelf.new) }
    ensures not_written { IsBeforePage result.outcome }
    ensures disk_fault { result.outcome ≡ ToolOutcome.DiskFault → D.faulted new.old new.new }
    ensures any_moment { KeepsStore (D.view new.old) (D.view new.new) }
{
    let mut disk = match read_store(shelf, old) {
        Ok(disk) => disk,
        Err(outcome) => return stopped(alloc, outcome),
    };
    let ops = match old_operations(alloc, &mut disk) {
        Ok(ops) => ops,
        Err(ConvertError::OtherForm) => return stopped(alloc, ToolOutcome::OtherForm),
        Err(ConvertError::Faulty { fault }) => {
            return stopped(alloc, ToolOutcome::Faulty { fault });
        }
        Err(ConvertError::Memory) => return stopped(alloc, ToolOutcome::Memory),
    };
    match write_anew(alloc, new, &ops) {
        Ok(()) => with_page(alloc, convert_page(alloc, &ops), ToolOutcome::Done),
        Err(error) => stopped(alloc, of_write(error)),
    }
}

/// Writes what can be read of the store in a file as a new store. The bytes of the file are brought to the size of a store first.
#[tactic(auto, using(crate::proofs::Moments::store_untouched, crate::proofs::Moments::store_written))]
fn salvage_file<F: Shelf, D: Disk>(alloc: Global, shelf: &mut F, file: &str, new: &mut D) -> Made
    ensures comes { Salvages (F.bytes_of shelf.old file.now) (D.view new.new) result.outcome }
    ensures told { F.bytes_of shelf.new ≡ F.bytes_of shelf.old }
    ensures read_fault { result.outcome ≡ ToolOutcome.ReadFault → Rose (F.faults shelf.old) (F.faults shelf.new) }
    ensures not_written { IsBeforePage result.outcome }
    ensures disk_fault { result.outcome ≡ ToolOutcome.DiskFault → D.faulted new.old new.new }
    ensures any_moment { KeepsStore (D.view new.old) (D.view new.new) }
{
    let mut bytes = match read(shelf, file) {
        Ok(bytes) => bytes,
        Err(outcome) => return stopped(alloc, outcome),
    };
    let Ok(()) = bring_to_size(&mut bytes) else {
        return stopped(alloc, ToolOutcome::Memory);
    };
    let mut disk = FixedDisk::new(Items::from_vec(bytes));
    let Ok(
        Salvaged {
            form,
            ops,
            tree: _,
            stop,
        },
    ) = salvage(alloc, &mut disk)
    else {
        return stopped(alloc, ToolOutcome::Memory);
    };
    let front = ops.len();
    let Ok(kept) = kept_operations(alloc, form, ops) else {
        return stopped(alloc, ToolOutcome::Memory);
    };
    match write_anew(alloc, new, &kept) {
        Ok(()) => {
            let page = salvage_page(alloc, form, front, kept.len(), stop);
            with_page(alloc, page, ToolOutcome::Done)
        }
        Err(error) => stopped(alloc, of_write(error)),
    }
}

/// Tells in short what the page in a file tells.
fn summarize_file<F: Shelf>(alloc: Global, shelf: &mut F, page: &str) -> Made
    ensures comes { Reports (F.bytes_of shelf.old page.now) result.outcome }
    ensures written { result.outcome ≡ ToolOutcome.Done → IsPageFileReport (F.bytes_of shelf.old page.now) (λ bytes report. IsSummary bytes report) result.page.items }
    ensures told { F.bytes_of shelf.new ≡ F.bytes_of shelf.old }
    ensures read_fault { result.outcome ≡ ToolOutcome.ReadFault → Rose (F.faults shelf.old) (F.faults shelf.new) }
    ensures not_written { IsBeforePage result.outcome }
{
    let bytes = match read_page_file(shelf, page) {
        Ok(bytes) => bytes,
        Err(outcome) => return stopped(alloc, outcome),
    };
    match summary(alloc, &bytes) {
        Ok(page) => Made {
            page,
            outcome: ToolOutcome::Done,
        },
        Err(error) => stopped(alloc, of_page(error)),
    }
}

/// Tells the lines of the page in a file that name an id.
fn follow_file<F: Shelf>(alloc: Global, shelf: &mut F, page: &str, id: &str) -> Made
    ensures comes { FollowsReport (F.bytes_of shelf.old page.now) id.now result.outcome }
    ensures written { result.outcome ≡ ToolOutcome.Done → IsPageFileReport (F.bytes_of shelf.old page.now) (λ bytes report. IsFollowed bytes id.now report) result.page.items }
    ensures told { F.bytes_of shelf.new ≡ F.bytes_of shelf.old }
    ensures read_fault { result.outcome ≡ ToolOutcome.ReadFault → Rose (F.faults shelf.old) (F.faults shelf.new) }
    ensures not_written { IsBeforePage result.outcome }
{
    let bytes = match read_page_file(shelf, page) {
        Ok(bytes) => bytes,
        Err(outcome) => return stopped(alloc, outcome),
    };
    match follow(alloc, &bytes, id) {
        Ok(page) => Made {
            page,
            outcome: ToolOutcome::Done,
        },
        Err(error) => stopped(alloc, of_report(error)),
    }
}

/// Draws the run whose page is in a file.
fn draw_file<F: Shelf>(alloc: Global, shelf: &mut F, page: &str) -> Made
    ensures comes { Reports (F.bytes_of shelf.old page.now) result.outcome }
    ensures told { F.bytes_of shelf.new ≡ F.bytes_of shelf.old }
    ensures read_fault { result.outcome ≡ ToolOutcome.ReadFault → Rose (F.faults shelf.old) (F.faults shelf.new) }
    ensures not_written { IsBeforePage result.outcome }
{
    let bytes = match read_page_file(shelf, page) {
        Ok(bytes) => bytes,
        Err(outcome) => return stopped(alloc, outcome),
    };
    match draw(alloc, &bytes) {
        Ok(page) => Made {
            page,
            outcome: ToolOutcome::Done,
        },
        Err(error) => stopped(alloc, of_page(error)),
    }
}
