ghost use Rattle.rm_types.specs.Ranges.{IsText, IsAppId, IsAttemptId, IsContainerId};
ghost use Rattle.rm_formats.specs.IdTexts.{app_text, attempt_text, container_text};
ghost use Rattle.rm_lines.specs.Results.{Finds, IsOf};

use crate::errors::LineError;
use crate::faults::{Excerpt, LineFault, Part};
use rm_formats::ids::{read_app, read_attempt, read_container};
use rm_types::{AppId, AttemptId, ContainerId, Text, TextError, TextKind};
use std::alloc::Global;

/// The text of this kind that the word is.
pub fn text(alloc: Global, word: &[u8], part: Part, kind: TextKind) -> Result<Text, LineError>
    ensures { Finds result (IsOf (λ text. text) (IsText kind) word.now) }
{
    match Text::read(alloc, word, kind) {
        Ok(text) => Ok(text),
        Err(TextError::NotText { .. }) => Err(LineError::Refused(LineFault::Text {
            part,
            kind,
            found: Excerpt::of(word),
        })),
        Err(TextError::Memory) => Err(LineError::Memory),
    }
}

/// The application's id whose text the word is.
pub fn app_id(word: &[u8]) -> Result<AppId, LineError>
    ensures { Finds result (IsOf app_text IsAppId word.now) }
{
    match read_app(word) {
        Ok(id) => Ok(id),
        Err(_) => Err(LineError::Refused(LineFault::Id {
            part: Part::App,
            found: Excerpt::of(word),
        })),
    }
}

/// The attempt's id whose text the word is.
pub fn attempt_id(word: &[u8]) -> Result<AttemptId, LineError>
    ensures { Finds result (IsOf attempt_text IsAttemptId word.now) }
{
    match read_attempt(word) {
        Ok(id) => Ok(id),
        Err(_) => Err(LineError::Refused(LineFault::Id {
            part: Part::Attempt,
            found: Excerpt::of(word),
        })),
    }
}

/// The container's id whose text the word is.
pub fn container_id(word: &[u8]) -> Result<ContainerId, LineError>
    ensures { Finds result (IsOf container_text IsContainerId word.now) }
{
    match read_container(word) {
        Ok(id) => Ok(id),
        Err(_) => Err(LineError::Refused(LineFault::Id {
            part: Part::Container,
            found: Excerpt::of(word),
        })),
    }
}
