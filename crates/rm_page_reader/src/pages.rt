ghost use Rattle.std.specs.Prelude.{◌≡◌, ◌⊎◌, ◌≤◌, ◌<◌, ◌∷◌, ◌++◌, ◌-◌, [], ℕ, List, Bool, true, false, Err, All, IfOk, IfErr, OnOk, IsTrue, length, codes};
ghost use Rattle.std.specs.Option.{option_copied};
ghost use Rattle.rm_types.specs.declared.entries.Entry.{Entry as AnyEntry};
ghost use Rattle.rm_page.specs.Ranges.{IsEntry};
ghost use Rattle.rm_page.proofs.Bytes.{lacks};
ghost use Rattle.rm_formats.specs.Page.{page};
ghost use Rattle.rm_page_reader.specs.declared.soaks.SoakLine.{SoakLine as AnySoak};
ghost use Rattle.rm_page_reader.specs.Answers.{AreHeard, AreLetters, IsToldEntry, IsWant};
ghost use Rattle.rm_lines.specs.Cuts.{IsFirstLine, IsFirstCut};
ghost use Rattle.rm_page_reader.specs.Soaks.{IsSoak, soak_text};
ghost use Rattle.rm_page_reader.specs.Told.{IsManagerEntry, IsNoPage, Tells, heard};

use crate::entries::entry;
use crate::errors::PageError;
use crate::moves::{is_heard, letters_in, with_moves};
use crate::soaks::{SoakLine, soak_line, soak_page};
use rm_lines::cut_line;
use rm_page::page;
use rm_types::{Entry, Items};
use std::alloc::Global;

/// What a page tells.
#[derive(Drop)]
pub enum Page {
    /// The entries that have lines: the entry at place `n`, from 0, is that of line `n + 1`. A page of a store has a `Kept`
    /// for each operation. With `moves`, a last line has a letter for each entry of the log.
    Log { entries: Items<Entry>, moves: bool },
    /// The line of a soak.
    Soak(SoakLine),
}

impl Page {
    ghost use Rattle.rm_page_reader.specs.Told.{entries_of};

    /// The entries that have lines, in their order; a soak's line tells none.
    pub fn entries(&self) -> &[Entry]
        ensures { result.now ≡ entries_of self.now }
    {
        match self {
            Page::Log { entries, .. } => entries.as_slice(),
            Page::Soak(_) => &[],
        }
    }
}

/// Reads a page: what its bytes tell. The empty page is that of the empty log. `NotAPage` comes only where the bytes are no
/// page; it names the first line that is none of one, and where the letters of the moves don't fit the lines above them, that
/// is theirs. `Memory` may come of any bytes. Time and memory are linear in their number.
pub fn read_page(alloc: Global, bytes: &[u8]) -> Result<Page, PageError>
    ensures told { IfOk result (Tells bytes.now) }
    ensures not_a_page { (line : ℕ) → result ≡ Err (PageError.NotAPage line) → IsNoPage bytes.now }
{
    if is_soak(bytes) {
        read_soak(alloc, bytes)
    } else {
        read_log(alloc, bytes)
    }
}

/// Whether the bytes begin as the line of a soak.
fn is_soak(bytes: &[u8]) -> bool
    ensures soak { IsTrue result → (more : List ℕ) × (bytes.now ≡ codes "soak " ++ more) }
    ensures none { result ≡ false → (more : List ℕ) → bytes.now ≡ codes "soak " ++ more → ⊥ }
{
    bytes.starts_with(b"soak ")
}

/// Reads the page of a soak.
fn read_soak(alloc: Global, bytes: &[u8]) -> Result<Page, PageError>
    ensures told { IfOk result (Tells bytes.now) }
    ensures only { IfErr result (λ error. (soak : AnySoak) → IsSoak soak → bytes.now ≡ soak_text soak → IsWant error) }
{
    let (line, _rest) = cut_line(bytes);
    let soak = match soak_line(line) {
        Ok(soak) => soak,
        Err(error) => return Err(PageError::at(error, 1)),
    };
    let written = soak_page(alloc, soak)?;
    if written.as_slice() == bytes {
        Ok(Page::Soak(soak))
    } else {
        Err(not_a_page(written.as_slice(), bytes))
    }
}

/// Reads the page of a log.
fn read_log(alloc: Global, bytes: &[u8]) -> Result<Page, PageError>
    ensures told { IfOk result (Tells bytes.now) }
    ensures only { IfErr result (λ error. (log : List AnyEntry) (moves : Bool) → All IsManagerEntry log → bytes.now ≡ page log moves → IsWant error) }
{
    let (log, moves) = logged(alloc, bytes)?;
    see_page(alloc, &log, moves, bytes)?;
    Ok(Page::Log {
        entries: heard_of(log),
        moves,
    })
}

/// Sees that the bytes are the page of this log.
fn see_page(alloc: Global, log: &Items<Entry>, moves: bool, bytes: &[u8]) -> Result<(), PageError>
    ensures page { OnOk result (bytes.now ≡ page log.now moves) }
    ensures only { IfErr result (λ error. bytes.now ≡ page log.now moves → IsWant error) }
{
    let text = page(alloc, log, moves)?;
    if text.as_slice() == bytes {
        Ok(())
    } else {
        Err(not_a_page(text.as_slice(), bytes))
    }
}

/// The entries of a log that have lines.
fn heard_of(log: Items<Entry>) -> Items<Entry>
    ensures { result ≡ heard log }
{
    let mut log = log;
    log.retain(|entry| is_heard(entry));
    log
}

/// The log that the lines tell, and whether the last line is that of the moves.
fn logged(alloc: Global, bytes: &[u8]) -> Result<(Items<Entry>, bool), PageError>
    ensures ranges { IfOk result (λ read. All IsEntry read.0) }
    ensures page { (log : List AnyEntry) (moves : Bool) → All IsManagerEntry log → bytes.now ≡ page log moves → IfOk result (λ read. bytes.now ≡ page read.0 read.1) }
    ensures want { (log : List AnyEntry) (moves : Bool) → All IsManagerEntry log → bytes.now ≡ page log moves → IfErr result IsWant }
{
    let lines = read_lines(alloc, bytes)?;
    let Some(letters) = lines.letters else {
        return Ok((lines.heard, false));
    };
    match with_moves(alloc, lines.heard, letters) {
        Ok(log) => Ok((log, true)),
        Err(error) => Err(PageError::at(error, lines.count)),
    }
}

/// The lines of a page: the entries that they tell, the letters of the moves, where there is a line of them, and the number of
/// the last line.
#[derive(Drop)]
struct Lines<'a> {
    heard: Items<Entry>,
    letters: Option<&'a [u8]>,
    count: u32,
}

/// The lines of the bytes, up to that of the moves.
fn read_lines(alloc: Global, bytes: &[u8]) -> Result<Lines<'_>, PageError>
    ensures told { IfOk result (λ lines. All IsToldEntry lines.heard) }
    ensures heard { (log : List AnyEntry) (moves : Bool) → All IsManagerEntry log → bytes.now ≡ page log moves → IfOk result (λ lines. AreHeard log lines.heard × AreLetters (option_copied lines.letters) log moves) }
    ensures want { (log : List AnyEntry) (moves : Bool) → All IsManagerEntry log → bytes.now ≡ page log moves → IfErr result IsWant }
{
    let mut heard = Items::new(alloc);
    let mut rest = bytes;
    let mut count: u32 = 0;
    'lines: while !rest.is_empty() {
        let (line, after) = cut_line(rest);
        count = count.saturating_add(1);
        if let Some(letters) = letters_in(line) {
            return Ok(Lines {
                heard,
                letters: Some(letters),
                count,
            });
        }
        match entry(alloc, line) {
            Ok(entry) => heard.push(entry)?,
            Err(error) => return Err(PageError::at(error, count)),
        }
        rest = after;
    }
    Ok(Lines {
        heard,
        letters: None,
        count,
    })
}

/// The refusal of bytes that a text was read of which they aren't: at the line in which they differ first.
fn not_a_page(text: &[u8], bytes: &[u8]) -> PageError {
    let mut line: u32 = 1;
    'bytes: for (one, other) in text.iter().zip(bytes) {
        if one != other {
            break 'bytes;
        }
        if *one == b'\n' {
            line = line.saturating_add(1);
        }
    }
    PageError::NotAPage { line }
}
