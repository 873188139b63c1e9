ghost use Rattle.std.specs.Prelude.{◌≡◌, codes};
ghost use Rattle.rm_types.specs.Ranges.{IsSubmission, IsText};
ghost use Rattle.rm_types.specs.declared.texts.TextKind.TheVariants.{Name, AclText};
ghost use Rattle.rm_page.proofs.ReadOperations.{last_pieces, submission_pieces};
ghost use Rattle.rm_lines.specs.Submissions.{IsKeepAndModify, keep_and_modify_pieces};
ghost use Rattle.rm_lines.specs.Results.{Finds, IsOf};

use crate::errors::LineError;
use crate::faults::{Excerpt, LineFault, Part};
use crate::numbers::number;
use crate::texts::text;
use crate::words::Words;
use rm_types::{
    GREATEST_ATTEMPTS, GREATEST_MEMORY_MB, GREATEST_VCORES, Resource, Submission, Text, TextKind,
};
use std::alloc::Global;

/// What the user submits, by the words behind its name or its application.
pub fn submission(alloc: Global, user: Text, mut words: Words<'_>) -> Result<Submission, LineError>
    requires { IsText Name user }
    ensures { Finds result (λ submission. IsOf submission_pieces IsSubmission words.entry submission × (submission.user ≡ user)) }
{
    let queue = text(alloc, words.field(b"queue=")?, Part::Queue, TextKind::Queue)?;
    let name = text(alloc, words.field(b"name=")?, Part::Name, TextKind::Name)?;
    let memory_mb = number(
        words.field(b"memory=")?,
        Part::Memory,
        1,
        GREATEST_MEMORY_MB,
    )?;
    let vcores = number(words.field(b"vcores=")?, Part::Cores, 1, GREATEST_VCORES)?;
    let attempts = number(
        words.field(b"attempts=")?,
        Part::Attempts,
        0,
        GREATEST_ATTEMPTS,
    )?;
    let (keep, modify) = keep_and_modify(alloc, words)?;
    Ok(Submission {
        user,
        queue,
        name,
        master: Resource { memory_mb, vcores },
        attempts,
        keep,
        modify,
    })
}

/// Whether the application keeps its containers, and who else may modify it, by the words that are left.
fn keep_and_modify(alloc: Global, mut words: Words<'_>) -> Result<(bool, Text), LineError>
    ensures { Finds result (IsOf keep_and_modify_pieces IsKeepAndModify words.entry) }
{
    let keep = words.takes(b"keep=yes");
    let modify = modify(alloc, words)?;
    Ok((keep, modify))
}

/// Who else may modify an application: nobody, where no word is left. A word that names nobody is none.
fn modify(alloc: Global, mut words: Words<'_>) -> Result<Text, LineError>
    ensures { Finds result (IsOf (last_pieces (codes "modify=")) (IsText AclText) words.entry) }
{
    if words.is_empty() {
        return Ok(Text::empty());
    }
    let text = words.last_text(alloc, b"modify=", Part::Modify, TextKind::AclText)?;
    if text.bytes().is_empty() {
        Err(LineError::Refused(LineFault::Text {
            part: Part::Modify,
            kind: TextKind::AclText,
            found: Excerpt::of(b""),
        }))
    } else {
        Ok(text)
    }
}
