ghost use Rattle.std.specs.Prelude.{◌≡◌, ℕ, ◌-◌, [], ◌++◌, IfOk, IfErr, Ok, codes};
ghost use Rattle.rm_types.specs.declared.ids.AppId.{AppId as AnyApp};
ghost use Rattle.rm_types.specs.declared.ids.AttemptId.{AttemptId as AnyAttempt};
ghost use Rattle.rm_types.specs.declared.ids.ContainerId.{ContainerId as AnyContainer};
ghost use Rattle.rm_formats.specs.IdTexts.{app_text, attempt_text, container_text};
ghost use Rattle.rm_types.specs.Ranges.{IsWithin, IsAppId, IsAttemptId, IsContainerId};
ghost use Rattle.rm_types.specs.declared.limits.TheConstants.{EPOCHS, SEQUENCES};
ghost use Rattle.rm_formats.specs.ids.Fronts.{IsAppText, IsAttemptText, IsContainerText, IsPlace};
ghost use Rattle.rm_formats.specs.ids.Spelling.{app_parts, grant_parts, app_then, container_numbers_text, epoch_then, IsGrantText};
ghost use Rattle.rm_formats.specs.ids.Steps.{AreFields, Refuses, Passes, StopsSpelling};

use crate::ids::parts::Part;
use crate::ids::steps::{Stop, after_word, end_at, field_at, number_at};
use rm_types::{AppId, AttemptId, ContainerId};
use thiserror::Error;

/// Bytes that are no text of an id of the kind that was looked for, in its ranges.
#[derive(Clone, Copy, Debug, PartialEq, Eq, Error)]
#[error("no id of its kind: byte {place} is wrong, or the end")]
pub struct NotAnId {
    /// How far the bytes go along the text of some such id: that many of them are the beginning of one,
    /// and no more are.
    pub place: usize,
}

/// The application's id whose text the bytes are. `NotAnId` comes exactly where they are the text of none
/// in its ranges. No memory is taken.
pub fn read_app(bytes: &[u8]) -> Result<AppId, NotAnId>
    ensures read { IfOk result (λ id. IsAppId id × (bytes.now ≡ app_text id)) }
    ensures only { (id : AnyApp) → IsAppId id → bytes.now ≡ app_text id → result ≡ Ok id }
    ensures place { IfErr result (λ error. IsPlace IsAppText bytes.now error.place) }
{
    match app_of(bytes) {
        Ok(id) => Ok(id),
        Err(stop) => Err(NotAnId {
            place: stop.place_in(bytes),
        }),
    }
}

/// The attempt's id whose text the bytes are. `NotAnId` comes exactly where they are the text of none in
/// its ranges. No memory is taken.
pub fn read_attempt(bytes: &[u8]) -> Result<AttemptId, NotAnId>
    ensures read { IfOk result (λ id. IsAttemptId id × (bytes.now ≡ attempt_text id)) }
    ensures only { (id : AnyAttempt) → IsAttemptId id → bytes.now ≡ attempt_text id → result ≡ Ok id }
    ensures place { IfErr result (λ error. IsPlace IsAttemptText bytes.now error.place) }
{
    match attempt_of(bytes) {
        Ok(id) => Ok(id),
        Err(stop) => Err(NotAnId {
            place: stop.place_in(bytes),
        }),
    }
}

/// The container's id whose text the bytes are. `NotAnId` comes exactly where they are the text of none in
/// its ranges. No memory is taken.
pub fn read_container(bytes: &[u8]) -> Result<ContainerId, NotAnId>
    ensures read { IfOk result (λ id. IsContainerId id × (bytes.now ≡ container_text id)) }
    ensures only { (id : AnyContainer) → IsContainerId id → bytes.now ≡ container_text id → result ≡ Ok id }
    ensures place { IfErr result (λ error. IsPlace IsContainerText bytes.now error.place) }
{
    match container_of(bytes) {
        Ok(id) => Ok(id),
        Err(stop) => Err(NotAnId {
            place: stop.place_in(bytes),
        }),
    }
}

fn app_of(bytes: &[u8]) -> Result<AppId, Stop>
    ensures read { IfOk result (λ id. IsAppId id × (bytes.now ≡ app_text id)) }
    ensures stop { IfErr result (λ stop. Refuses IsAppText bytes.now stop.left) }
{
    let rest = after_word(bytes, b"application")?;
    let (id, rest) = app_at(rest)?;
    end_at(rest)?;
    Ok(id)
}

fn attempt_of(bytes: &[u8]) -> Result<AttemptId, Stop>
    ensures read { IfOk result (λ id. IsAttemptId id × (bytes.now ≡ attempt_text id)) }
    ensures stop { IfErr result (λ stop. Refuses IsAttemptText bytes.now stop.left) }
{
    let rest = after_word(bytes, b"appattempt")?;
    let (app, rest) = app_at(rest)?;
    let (number, rest) = field_at(rest, Part::AttemptNumber)?;
    end_at(rest)?;
    Ok(AttemptId {
        app,
        number: number as u32,
    })
}

fn container_of(bytes: &[u8]) -> Result<ContainerId, Stop>
    ensures read { IfOk result (λ id. IsContainerId id × (bytes.now ≡ container_text id)) }
    ensures stop { IfErr result (λ stop. Refuses IsContainerText bytes.now stop.left) }
{
    let rest = after_word(bytes, b"container")?;
    let (epoch, rest) = epoch_at(rest)?;
    let (attempt, seq) = grant_of(rest)?;
    Ok(ContainerId {
        attempt,
        epoch,
        seq,
    })
}

/// An application's numbers, and what stands behind them.
fn app_at(bytes: &[u8]) -> Result<(AppId, &[u8]), Stop>
    ensures within { IfOk result (λ read. IsAppId read.0) }
    ensures read { IfOk result (λ read. bytes.now ≡ app_then read.0 read.1.now) }
    ensures passes { IfOk result (λ read. Passes app_parts bytes.now read.1.now) }
    ensures stop { IfErr result (λ stop. StopsSpelling app_parts bytes.now stop.left) }
{
    let (stamp, rest) = field_at(bytes, Part::Stamp)?;
    let (number, rest) = field_at(rest, Part::AppNumber)?;
    let id = AppId {
        stamp,
        number: number as u32,
    };
    Ok((id, rest))
}

/// The epoch, which is 0 where none is shown, and what stands behind it.
fn epoch_at(bytes: &[u8]) -> Result<(u32, &[u8]), Stop>
    ensures within { IfOk result (λ read. IsWithin 0 (EPOCHS - 1) read.0) }
    ensures read { IfOk result (λ read. bytes.now ≡ epoch_then read.0 read.1.now) }
    ensures passes { IfOk result (λ read. (left : ℕ) → Refuses (AreFields grant_parts) read.1.now left → Refuses IsGrantText bytes.now left) }
    ensures stop { IfErr result (λ stop. Refuses IsGrantText bytes.now stop.left) }
{
    let Ok(rest) = after_word(bytes, b"_e") else {
        return Ok((0, bytes));
    };
    let (epoch, rest) = number_at(rest, Part::Epoch)?;
    Ok((epoch as u32, rest))
}

/// The attempt and the sequence of a container, where nothing stands behind them.
fn grant_of(bytes: &[u8]) -> Result<(AttemptId, u64), Stop>
    ensures attempt { IfOk result (λ read. IsAttemptId read.0) }
    ensures seq { IfOk result (λ read. IsWithin 1 (SEQUENCES - 1) read.1) }
    ensures read { IfOk result (λ read. bytes.now ≡ container_numbers_text read.0 read.1) }
    ensures stop { IfErr result (λ stop. Refuses (AreFields grant_parts) bytes.now stop.left) }
{
    let (app, rest) = app_at(bytes)?;
    let (number, rest) = field_at(rest, Part::AttemptInContainer)?;
    let (seq, rest) = field_at(rest, Part::Sequence)?;
    end_at(rest)?;
    let attempt = AttemptId {
        app,
        number: number as u32,
    };
    Ok((attempt, seq))
}
