ghost use Rattle.std.specs.Prelude.{◌≡◌, ◌∷◌, codes};
ghost use Rattle.rm_types.specs.Ranges.{IsOperation};
ghost use Rattle.rm_formats.specs.Wording.{how_text};
ghost use Rattle.rm_page_reader.specs.Pieces.{op_pieces};
ghost use Rattle.rm_lines.specs.Results.{Finds, IsOf};

use crate::parts::text;
use rm_lines::{
    LineError, LineFault, Part, Words, app_id, attempt_id, container_id, long_number, number,
    submission,
};
use rm_types::{EPOCHS, How, Op, STAMPS, TextKind};
use std::alloc::Global;

/// A store operation, by its words.
pub(crate) fn operation(alloc: Global, mut words: Words<'_>) -> Result<Op, LineError>
    ensures { Finds result (IsOf op_pieces IsOperation words.entry) }
{
    let word = words.word()?;
    by_word(alloc, word, words)
}

/// The same by the first word and the others.
#[tactic(auto, using(rm_lines::proofs::Parts::at_word, crate::proofs::OpParts::no_op))]
fn by_word(alloc: Global, word: &[u8], words: Words<'_>) -> Result<Op, LineError>
    ensures { Finds result (IsOf op_pieces IsOperation (word.now ∷ words.entry)) }
{
    if word == "epoch".as_bytes() {
        epoch(words)
    } else if word == "app".as_bytes() {
        app(alloc, words)
    } else if word == "attempt".as_bytes() {
        attempt(alloc, words)
    } else if word == "attempt-end".as_bytes() {
        attempt_end(alloc, words)
    } else if word == "app-end".as_bytes() {
        app_end(alloc, words)
    } else if word == "remove".as_bytes() {
        remove(words)
    } else {
        Err(LineError::Refused(LineFault::Form))
    }
}

fn epoch(mut words: Words<'_>) -> Result<Op, LineError>
    ensures { Finds result (IsOf op_pieces IsOperation (codes "epoch" ∷ words.entry)) }
{
    let next = number(words.field(b"next=")?, Part::Other, 1, EPOCHS)?;
    let stamp = long_number(words.field(b"stamp=")?, Part::Other, 1, STAMPS - 1)?;
    words.end()?;
    Ok(Op::Epoch { next, stamp })
}

fn app(alloc: Global, mut words: Words<'_>) -> Result<Op, LineError>
    ensures { Finds result (IsOf op_pieces IsOperation (codes "app" ∷ words.entry)) }
{
    let id = app_id(words.word()?)?;
    let user = text(alloc, words.field(b"user=")?, TextKind::Name)?;
    let submission = submission(alloc, user, words)?;
    Ok(Op::App { id, submission })
}

fn attempt(alloc: Global, mut words: Words<'_>) -> Result<Op, LineError>
    ensures { Finds result (IsOf op_pieces IsOperation (codes "attempt" ∷ words.entry)) }
{
    let id = attempt_id(words.word()?)?;
    let master = container_id(words.field(b"master=")?)?;
    let node = text(alloc, words.field(b"node=")?, TextKind::Node)?;
    words.end()?;
    if master.attempt != id {
        return Err(LineError::Refused(LineFault::Form));
    }
    Ok(Op::Attempt { id, master, node })
}

fn attempt_end(alloc: Global, mut words: Words<'_>) -> Result<Op, LineError>
    ensures { Finds result (IsOf op_pieces IsOperation (codes "attempt-end" ∷ words.entry)) }
{
    let id = attempt_id(words.word()?)?;
    let how = how(words.word()?)?;
    let text = words.last_text(alloc, b"text=", Part::Other, TextKind::Note)?;
    Ok(Op::AttemptEnd { id, how, text })
}

fn app_end(alloc: Global, mut words: Words<'_>) -> Result<Op, LineError>
    ensures { Finds result (IsOf op_pieces IsOperation (codes "app-end" ∷ words.entry)) }
{
    let id = app_id(words.word()?)?;
    let how = how(words.word()?)?;
    let text = words.last_text(alloc, b"text=", Part::Other, TextKind::Note)?;
    Ok(Op::AppEnd { id, how, text })
}

fn remove(mut words: Words<'_>) -> Result<Op, LineError>
    ensures { Finds result (IsOf op_pieces IsOperation (codes "remove" ∷ words.entry)) }
{
    let id = app_id(words.word()?)?;
    words.end()?;
    Ok(Op::Remove { id })
}

/// How an attempt or an application ended, by its word.
fn how(word: &[u8]) -> Result<How, LineError>
    ensures { Finds result (λ how. word.now ≡ how_text how) }
{
    match word {
        b"FINISHED" => Ok(How::Finished),
        b"FAILED" => Ok(How::Failed),
        b"KILLED" => Ok(How::Killed),
        _ => Err(LineError::Refused(LineFault::Form)),
    }
}
