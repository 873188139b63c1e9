ghost use Rattle.std.specs.Prelude.{◌≡◌, ◌∷◌, ◌++◌, IfOk, OnOk, codes};
ghost use Rattle.std.specs.Fmt.{decimal};
ghost use Rattle.rm_page.proofs.Bytes.{cut};
ghost use Rattle.rm_lines.specs.Results.{Finds, IsOf};
ghost use Rattle.rm_page_reader.specs.Soaks.{IsSoak, soak_pieces, soak_text};

use crate::parts::{long_number, number};
use itoa::Buffer;
use rm_lines::{LineError, LineFault, Words};
use rm_types::NoMemory;
use std::alloc::Global;

/// What the line of a soak tells: of how many applications it was, and how many lives were opened, messages served, containers
/// granted, applications kept as finished, and operations kept.
#[derive(Clone, Copy, PartialEq, Eq)]
pub struct SoakLine {
    pub apps: u32,
    pub lives: u64,
    pub served: u64,
    pub grants: u64,
    pub finished: u64,
    pub kept: u64,
}

/// The line of a soak, without its line feed.
pub(crate) fn soak_line(line: &[u8]) -> Result<SoakLine, LineError>
    ensures { Finds result (IsOf soak_pieces IsSoak (cut 32 line.now)) }
{
    let mut words = Words::of(line);
    if words.word()? == "soak".as_bytes() {
        numbers(words)
    } else {
        Err(LineError::Refused(LineFault::Form))
    }
}

/// The same by the words behind the first.
fn numbers(mut words: Words<'_>) -> Result<SoakLine, LineError>
    ensures { Finds result (IsOf soak_pieces IsSoak (codes "soak" ∷ words.entry)) }
{
    let apps = number(words.word()?)?;
    let lives = long_number(words.field(b"lives=")?)?;
    let served = long_number(words.field(b"served=")?)?;
    let grants = long_number(words.field(b"grants=")?)?;
    let finished = long_number(words.field(b"finished=")?)?;
    let kept = long_number(words.field(b"kept=")?)?;
    words.end()?;
    Ok(SoakLine {
        apps,
        lives,
        served,
        grants,
        finished,
        kept,
    })
}

/// The page of a soak, by what it tells.
pub(crate) fn soak_page(alloc: Global, soak: SoakLine) -> Result<Vec<u8>, NoMemory>
    ensures { IfOk result (λ bytes. bytes.items ≡ soak_text soak) }
{
    let mut bytes = Vec::new(alloc);
    number_field(b"soak ", u64::from(soak.apps), &mut bytes)?;
    number_field(b" lives=", soak.lives, &mut bytes)?;
    number_field(b" served=", soak.served, &mut bytes)?;
    number_field(b" grants=", soak.grants, &mut bytes)?;
    number_field(b" finished=", soak.finished, &mut bytes)?;
    number_field(b" kept=", soak.kept, &mut bytes)?;
    bytes.extend_from_slice(b"\n")?;
    Ok(bytes)
}

/// Writes a name and then a number.
fn number_field(name: &[u8], number: u64, bytes: &mut Vec<u8>) -> Result<(), NoMemory>
    ensures { OnOk result (bytes.new.items ≡ bytes.old.items ++ name.now ++ decimal number) }
{
    let mut buffer = Buffer::new();
    bytes.extend_from_slice(name)?;
    bytes.extend_from_slice(buffer.format(number).as_bytes())?;
    Ok(())
}
