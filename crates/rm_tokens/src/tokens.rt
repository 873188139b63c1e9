ghost use Rattle.std.specs.Prelude.{◌≡◌, ◌+◌, ◌-◌, ◌≤◌, ◌<◌, ◌^◌, ℕ, List, true, false, None, Some, length, map, option_map, is_ok, OnOk, IfOk, IfErr, IsErrOf, Err};
ghost use Rattle.rm_types.specs.Ranges.{IsText};
ghost use Rattle.rm_disk.specs.Disk.{IfTold, IsQuiet, IsLaterView};
ghost use Rattle.rm_journal.specs.declared.journal.TheConstants.{CALLS_OF_APPEND};
ghost use Rattle.rm_tokens.specs.declared.token.Token.{Token as AnyToken};
ghost use Rattle.rm_tokens.specs.declared.token.TokenRecord.{TokenRecord as AnyRecord};
ghost use Rattle.rm_tokens.specs.Calls.{Issue, Renew, Cancel, Keep, journal_refusal, journal_verdict, verdict, renewed_until, Does};
ghost use Rattle.rm_tokens.specs.Errors.{IsOpenError, failure};
ghost use Rattle.rm_tokens.specs.Frames.{IsTokenRecord, token_frame};
ghost use Rattle.rm_tokens.specs.Held.{AreLimits, HoldsRecords, Stand, IsSound, IsWhy, IsFaultless};
ghost use Rattle.rm_tokens.specs.Rows.{row_at, fits_rows};
ghost use Rattle.rm_tokens.specs.Runs.{OpensAnew};

use crate::encoding::{issue_length, record_length};
use crate::fault::TokenError;
use crate::reading::{TokenJournal, read_all};
use crate::rows::{apply_record, token_at};
use crate::token::{GREATEST_MOMENT, Token, TokenLimits, TokenRecord};
use crate::writing::write_record;
use rm_disk::Disk;
use rm_formats::RECORD_FRAME;
use rm_journal::{CALLS_OF_APPEND, Journal};
use rm_types::{Duplicate, NoMemory, Text, TextKind};
use std::alloc::Global;
use std::marker::Model;

/// Delegation tokens, kept in a journal that is a whole disk.
#[derive(Drop)]
pub struct Tokens {
    journal: Journal,
    rows: Vec<Option<Token>>,
    limits: TokenLimits,
    is_broken: bool,
    frame: Vec<u8>,
}

impl Model for Tokens {
    ghost use Rattle.rm_tokens.specs.Held.{TokensAt, AreLimits};

    ghost Value = { TokensAt };

    ghost view = { λ t. record { journal = t.journal; rows = t.rows.items; limits = t.limits; is_broken = t.is_broken } };

    ghost invariant = { λ t. AreLimits t.limits };
}

/// A token of these dates, with its own copies of the names.
fn token_of(until: u64, last: u64, owner: &Text, renewer: &Text) -> Result<Token, NoMemory>
    ensures { IfOk result (λ token. token ≡ record { until = until; last = last; owner = owner.now; renewer = renewer.now }) }
{
    Ok(Token {
        until,
        last,
        owner: owner.copy()?,
        renewer: renewer.copy()?,
    })
}

impl Tokens {
    /// Reads the tokens that a disk holds. Each token is issued and renewed within the limits from now on; those that stand on the disk
    /// keep their dates.
    ///
    /// `Damaged` comes exactly where, behind records, an open gate stands before no record, or else the first payload that is no token record or
    /// doesn't fit those before it, and names its gate; `DiskFault` only where the disk's count of faults rose. On every outcome a read of the disk gives what it gave.
    pub fn open<D: Disk>(
        alloc: Global,
        disk: &mut D,
        limits: TokenLimits,
    ) -> Result<Tokens, TokenError>
        requires { AreLimits limits }
        ensures sound { IfOk result (IsSound (D.view disk.new)) }
        ensures opened { IfOk result (OpensAnew (D.view disk.old) (D.view disk.new)) }
        ensures limits { IfOk result (λ tokens. tokens.limits ≡ limits) }
        ensures faultless { OnOk result (IfTold (D.view disk.old) IsFaultless) }
        ensures why { IfErr result (λ error. IfTold (D.view disk.old) (λ bytes. IsWhy bytes error)) }
        ensures quiet { IsQuiet (D.view disk.old) (D.view disk.new) }
        ensures kept { D.keeps (is_ok result) disk.old disk.new }
        ensures fault { IsErrOf result TokenError.DiskFault → D.faulted disk.old disk.new }
        ensures errors { IfErr result IsOpenError }
    {
        let TokenJournal { journal, rows } = read_all(alloc, disk)?;
        Ok(Tokens {
            journal,
            rows,
            limits,
            is_broken: false,
            frame: Vec::new(alloc),
        })
    }

    /// Issues the token of the next number, and answers that number. The token is valid for as long as a renewal lasts.
    pub fn issue<D: Disk>(
        &mut self,
        disk: &mut D,
        owner: &Text,
        renewer: &Text,
        now: u64,
    ) -> Result<u64, TokenError>
        requires sound { IsSound (D.view disk.old) self.old }
        requires owner { IsText TextKind.Name owner.now }
        requires renewer { IsText TextKind.Name renewer.now }
        requires moment { now ≤ GREATEST_MOMENT }
        ensures sound { IsSound (D.view disk.new) self.new }
        ensures does { Does D.view (verdict self.old (Issue owner.now renewer.now now)) disk.old disk.new self.old self.new (failure result) }
        ensures answer { IfOk result (λ number. number ≡ length self.old.rows + 1) }
        ensures later { IsLaterView (D.view disk.old) (D.view disk.new) }
        ensures kept { D.keeps (is_ok result) disk.old disk.new }
        ensures counted { D.counted disk.new ≤ D.counted disk.old + CALLS_OF_APPEND }
        ensures fault { IsErrOf result TokenError.DiskFault → D.faulted disk.old disk.new }
    {
        let number = self.rows.len() as u64 + 1;
        let until = now + self.limits.renew;
        let last = now + self.limits.life;
        self.admit(issue_length(owner, renewer) + RECORD_FRAME)?;
        let Ok(token) = token_of(until, last, owner, renewer) else {
            self.is_broken = true;
            return Err(TokenError::Memory);
        };
        self.keep(disk, TokenRecord::Issued { number, token })?;
        Ok(number)
    }

    /// Renews a token, for as long as a renewal lasts, but not beyond its last date, and answers until when it is valid.
    pub fn renew<D: Disk>(
        &mut self,
        disk: &mut D,
        who: &Text,
        number: u64,
        now: u64,
    ) -> Result<u64, TokenError>
        requires sound { IsSound (D.view disk.old) self.old }
        requires moment { now ≤ GREATEST_MOMENT }
        ensures sound { IsSound (D.view disk.new) self.new }
        ensures does { Does D.view (verdict self.old (Renew who.now number now)) disk.old disk.new self.old self.new (failure result) }
        ensures answer { IfOk result (λ until. (token : AnyToken) × (row_at self.old.rows number ≡ Some token) × (until ≡ renewed_until self.old.limits token now)) }
        ensures later { IsLaterView (D.view disk.old) (D.view disk.new) }
        ensures kept { D.keeps (is_ok result) disk.old disk.new }
        ensures counted { D.counted disk.new ≤ D.counted disk.old + CALLS_OF_APPEND }
        ensures fault { IsErrOf result TokenError.DiskFault → D.faulted disk.old disk.new }
    {
        let Some(token) = token_at(&self.rows, number) else {
            return Err(TokenError::Unknown);
        };
        if !token.renewer.is_same(who) {
            return Err(TokenError::NotRenewer);
        }
        if token.until <= now {
            return Err(TokenError::Ended { until: token.until });
        }
        let until = token.until.max((now + self.limits.renew).min(token.last));
        self.keep(disk, TokenRecord::Renewed { number, until })?;
        Ok(until)
    }

    /// Cancels a token, which its owner and its renewer may.
    pub fn cancel<D: Disk>(
        &mut self,
        disk: &mut D,
        who: &Text,
        number: u64,
    ) -> Result<(), TokenError>
        requires { IsSound (D.view disk.old) self.old }
        ensures sound { IsSound (D.view disk.new) self.new }
        ensures does { Does D.view (verdict self.old (Cancel who.now number)) disk.old disk.new self.old self.new (failure result) }
        ensures later { IsLaterView (D.view disk.old) (D.view disk.new) }
        ensures kept { D.keeps (is_ok result) disk.old disk.new }
        ensures counted { D.counted disk.new ≤ D.counted disk.old + CALLS_OF_APPEND }
        ensures fault { IsErrOf result TokenError.DiskFault → D.faulted disk.old disk.new }
    {
        let Some(held) = token_at(&self.rows, number) else {
            return Err(TokenError::Unknown);
        };
        if !held.owner.is_same(who) && !held.renewer.is_same(who) {
            return Err(TokenError::NotHolder);
        }
        self.keep(disk, TokenRecord::Cancelled { number })
    }

    /// The limits within which tokens are issued and renewed.
    pub fn limits(&self) -> TokenLimits
        ensures { result ≡ self.now.limits }
    {
        self.limits
    }

    /// Until when a token is valid, or none where it wasn't issued or is cancelled.
    pub fn until(&self, number: u64) -> Option<u64>
        ensures { result ≡ option_map (λ (token : AnyToken). token.until) (row_at self.now.rows number) }
    {
        match token_at(&self.rows, number) {
            Some(token) => Some(token.until),
            None => None,
        }
    }

    /// Whether a record is kept that needs so many bytes: not where an earlier call failed, and not where there is no room for it.
    fn admit(&self, needed: u64) -> Result<(), TokenError>
        ensures { failure result ≡ journal_refusal self.now needed }
    {
        if self.is_broken {
            return Err(TokenError::NeedsReopen);
        }
        let room = self.journal.room();
        if room < needed {
            return Err(TokenError::Full { needed, room });
        }
        Ok(())
    }

    /// Keeps a record that fits.
    fn keep<D: Disk>(&mut self, disk: &mut D, entry: TokenRecord) -> Result<(), TokenError>
        requires sound { IsSound (D.view disk.old) self.old }
        requires entry { IsTokenRecord entry }
        requires fits { fits_rows self.old.rows entry ≡ true }
        ensures sound { IsSound (D.view disk.new) self.new }
        ensures does { Does D.view (journal_verdict self.old (Keep entry)) disk.old disk.new self.old self.new (failure result) }
        ensures later { IsLaterView (D.view disk.old) (D.view disk.new) }
        ensures kept { D.keeps (is_ok result) disk.old disk.new }
        ensures counted { D.counted disk.new ≤ D.counted disk.old + CALLS_OF_APPEND }
        ensures fault { IsErrOf result TokenError.DiskFault → D.faulted disk.old disk.new }
    {
        self.admit(record_length(&entry) + RECORD_FRAME)?;
        if self.rows.reserve(1).is_err() {
            self.is_broken = true;
            return Err(TokenError::Memory);
        }
        match write_record(disk, &mut self.journal, &mut self.frame, &entry) {
            Ok(()) => {
                apply_record(&mut self.rows, entry);
                Ok(())
            }
            Err(why) => {
                self.is_broken = true;
                return Err(why);
            }
        }
    }
}
