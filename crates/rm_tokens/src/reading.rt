ghost use Rattle.std.specs.Prelude.{◌≡◌, ◌++◌, ◌∷◌, [], ℕ, List, true, false, length, is_ok, OnOk, IfOk, IfErr, IsErrOf, Err};
ghost use Rattle.rm_disk.specs.Disk.{IfTold, IsQuiet, IsDurable};
ghost use Rattle.rm_tokens.specs.declared.token.TokenRecord.{TokenRecord as AnyRecord};
ghost use Rattle.rm_tokens.specs.Errors.{IsOpenError};
ghost use Rattle.rm_tokens.specs.Frames.{IsFrameOf};
ghost use Rattle.rm_tokens.specs.Held.{AreTokenRecords, HoldsRecords, IsWhole, IsWhy, IsFaultless};
ghost use Rattle.rm_tokens.specs.Rows.{AreRows, fits_rows, rows_after};

use crate::decoding::{RecordError, decode};
use crate::fault::TokenError;
use crate::rows::{apply_record, fits_rows};
use crate::token::Token;
use rm_disk::Disk;
use rm_journal::{Journal, Region};
use std::alloc::Global;

/// What was read of a disk: the journal there, and the rows of its records.
#[derive(Drop)]
pub struct TokenJournal {
    pub journal: Journal,
    pub rows: Vec<Option<Token>>,
}

/// Reads all records of a disk.
pub fn read_all<D: Disk>(alloc: Global, disk: &mut D) -> Result<TokenJournal, TokenError>
    ensures whole { IfOk result (λ read. IsWhole (D.view disk.new) read.journal) }
    ensures unbroken { IfOk result (λ read. read.journal.is_broken ≡ false) }
    ensures read { IfOk result (λ read. (entries : List AnyRecord) × AreTokenRecords entries × AreRows read.rows.items entries × IfTold (D.view disk.new) (λ bytes. HoldsRecords bytes entries)) }
    ensures faultless { OnOk result (IfTold (D.view disk.old) IsFaultless) }
    ensures why { IfErr result (λ error. IfTold (D.view disk.old) (λ bytes. IsWhy bytes error)) }
    ensures quiet { IsQuiet (D.view disk.old) (D.view disk.new) }
    ensures kept { D.keeps (is_ok result) disk.old disk.new }
    ensures fault { IsErrOf result TokenError.DiskFault → D.faulted disk.old disk.new }
    ensures errors { IfErr result IsOpenError }
{
    let size = disk.size();
    let mut journal = Journal::open(alloc, disk, Region { from: 0, size })?;
    let mut rows = Vec::new(alloc);
    let mut payload = Vec::new(alloc);
    'payloads: while let Some(gate) = journal.next(disk, &mut payload)? {
        take_record(alloc, &payload, gate, &mut rows)?;
    }
    Ok(TokenJournal { journal, rows })
}

/// Takes in the record of a payload, whose gate stands at an offset of the disk.
fn take_record(
    alloc: Global,
    payload: &[u8],
    gate: u64,
    rows: &mut Vec<Option<Token>>,
) -> Result<(), TokenError>
    ensures ok { OnOk result ((entry : AnyRecord) × IsFrameOf payload.now entry × (fits_rows rows.old.items entry ≡ true) × (rows.new.items ≡ rows_after rows.old.items entry)) }
    ensures damaged { (offset : ℕ) → result ≡ Err (TokenError.Damaged offset) → (offset ≡ gate) × ((entry : AnyRecord) → IsFrameOf payload.now entry → fits_rows rows.old.items entry ≡ false) }
    ensures errors { IfErr result IsOpenError }
    ensures disk { IsErrOf result TokenError.DiskFault → ⊥ }
{
    let entry = match decode(alloc, payload) {
        Ok(entry) => entry,
        Err(RecordError::NotARecord) => return Err(TokenError::Damaged { offset: gate }),
        Err(RecordError::Memory) => return Err(TokenError::Memory),
    };
    if !fits_rows(rows, &entry) {
        return Err(TokenError::Damaged { offset: gate });
    }
    if rows.reserve(1).is_err() {
        return Err(TokenError::Memory);
    }
    apply_record(rows, entry);
    Ok(())
}
