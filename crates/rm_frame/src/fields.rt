ghost use Rattle.std.specs.Prelude.{◌≡◌, ◌≤◌, ◌<◌, ◌∷◌, [], length, take, drop, IfOk, IfErr, IfSome, IsNone};
ghost use Rattle.std.specs.Int.{from_be_bytes, to_be_bytes, w16, w32, w64};
ghost use Rattle.rm_types.specs.Ranges.{IsText};
ghost use Rattle.rm_formats.specs.Frames.{text_frame, app_id_frame, attempt_id_frame, how_code};
ghost use Rattle.rm_types.specs.Ranges.{IsWithin, IsAppId, IsAttemptId};
ghost use Rattle.rm_frame.specs.Fields.{ByteFrom, NumberFrom, TextOf, how_field, app_id_fields, attempt_id_fields, end_fields};
ghost use Rattle.rm_frame.specs.Reads.{TakesFields, StopsReading, StopsBy};

use rm_formats::{FAILED_CODE, FINISHED_CODE, KILLED_CODE};
use rm_types::{AppId, AttemptId, How, NUMBERS, STAMPS, Text, TextError, TextKind};
use std::alloc::Global;
use thiserror::Error;

/// Why a field wasn't read: it is short or out of range, with how many bytes are left where it begins; or
/// no memory was found for its text.
#[derive(Clone, Copy, Debug, PartialEq, Eq, Error)]
pub enum FieldError {
    #[error("a field is short or out of range, {left} bytes before the end")]
    Bad { left: usize },
    #[error("out of memory")]
    Memory,
}

fn u16_at(bytes: &[u8]) -> Option<(u16, &[u8])>
    ensures some { IfSome result (λ read. (2 ≤ length bytes.now) × (read.0 ≡ from_be_bytes w16 (take 2 bytes.now)) × (read.1.now ≡ drop 2 bytes.now)) }
    ensures none { IsNone result → length bytes.now < 2 }
{
    if bytes.len() < 2 {
        return None;
    }
    let (front, rest) = bytes.split_at(2);
    Some((u16::from_be_bytes([front[0], front[1]]), rest))
}

fn u32_at(bytes: &[u8]) -> Option<(u32, &[u8])>
    ensures some { IfSome result (λ read. (4 ≤ length bytes.now) × (read.0 ≡ from_be_bytes w32 (take 4 bytes.now)) × (read.1.now ≡ drop 4 bytes.now)) }
    ensures none { IsNone result → length bytes.now < 4 }
{
    if bytes.len() < 4 {
        return None;
    }
    let (front, rest) = bytes.split_at(4);
    let number = u32::from_be_bytes([front[0], front[1], front[2], front[3]]);
    Some((number, rest))
}

fn u64_at(bytes: &[u8]) -> Option<(u64, &[u8])>
    ensures some { IfSome result (λ read. (8 ≤ length bytes.now) × (read.0 ≡ from_be_bytes w64 (take 8 bytes.now)) × (read.1.now ≡ drop 8 bytes.now)) }
    ensures none { IsNone result → length bytes.now < 8 }
{
    if bytes.len() < 8 {
        return None;
    }
    let (front, rest) = bytes.split_at(8);
    let number = u64::from_be_bytes([
        front[0], front[1], front[2], front[3], front[4], front[5], front[6], front[7],
    ]);
    Some((number, rest))
}

fn byte_at(bytes: &[u8]) -> Option<(u8, &[u8])>
    ensures some { IfSome result (λ read. bytes.now ≡ read.0 ∷ read.1.now) }
    ensures none { IsNone result → bytes.now ≡ [] }
{
    match bytes {
        [byte, rest @ ..] => Some((*byte, rest)),
        [] => None,
    }
}

/// A byte in its range, and the bytes after it.
pub fn byte_within(bytes: &[u8], least: u8, greatest: u8) -> Result<(u8, &[u8]), FieldError>
    ensures within { IfOk result (λ read. IsWithin least greatest read.0) }
    ensures read { IfOk result (λ read. TakesFields (ByteFrom least greatest ∷ []) bytes.now (read.0 ∷ []) read.1.now) }
    ensures bad { IfErr result (λ error. StopsBy (ByteFrom least greatest ∷ []) bytes.now error) }
{
    let bad = FieldError::Bad { left: bytes.len() };
    let Some((byte, rest)) = byte_at(bytes) else {
        return Err(bad);
    };
    if byte < least || greatest < byte {
        return Err(bad);
    }
    Ok((byte, rest))
}

/// A number of four bytes in its range, and the bytes after it.
pub fn u32_within(bytes: &[u8], least: u32, greatest: u32) -> Result<(u32, &[u8]), FieldError>
    ensures within { IfOk result (λ read. IsWithin least greatest read.0) }
    ensures read { IfOk result (λ read. TakesFields (NumberFrom w32 least greatest ∷ []) bytes.now (to_be_bytes w32 read.0) read.1.now) }
    ensures bad { IfErr result (λ error. StopsBy (NumberFrom w32 least greatest ∷ []) bytes.now error) }
{
    let bad = FieldError::Bad { left: bytes.len() };
    let Some((number, rest)) = u32_at(bytes) else {
        return Err(bad);
    };
    if number < least || greatest < number {
        return Err(bad);
    }
    Ok((number, rest))
}

/// A number of eight bytes in its range, and the bytes after it.
pub fn u64_within(bytes: &[u8], least: u64, greatest: u64) -> Result<(u64, &[u8]), FieldError>
    ensures within { IfOk result (λ read. IsWithin least greatest read.0) }
    ensures read { IfOk result (λ read. TakesFields (NumberFrom w64 least greatest ∷ []) bytes.now (to_be_bytes w64 read.0) read.1.now) }
    ensures bad { IfErr result (λ error. StopsBy (NumberFrom w64 least greatest ∷ []) bytes.now error) }
{
    let bad = FieldError::Bad { left: bytes.len() };
    let Some((number, rest)) = u64_at(bytes) else {
        return Err(bad);
    };
    if number < least || greatest < number {
        return Err(bad);
    }
    Ok((number, rest))
}

/// A text of a kind behind its length, and the bytes after it.
pub fn text_at(alloc: Global, bytes: &[u8], kind: TextKind) -> Result<(Text, &[u8]), FieldError>
    ensures kind { IfOk result (λ read. IsText kind read.0) }
    ensures read { IfOk result (λ read. TakesFields (TextOf kind ∷ []) bytes.now (text_frame read.0) read.1.now) }
    ensures bad { IfErr result (λ error. StopsBy (TextOf kind ∷ []) bytes.now error) }
{
    let bad = FieldError::Bad { left: bytes.len() };
    let Some((length, rest)) = u16_at(bytes) else {
        return Err(bad);
    };
    let length = usize::from(length);
    if rest.len() < length {
        return Err(bad);
    }
    let (text, rest) = rest.split_at(length);
    match Text::read(alloc, text, kind) {
        Ok(text) => Ok((text, rest)),
        Err(TextError::NotText { place: _ }) => Err(bad),
        Err(TextError::Memory) => Err(FieldError::Memory),
    }
}

/// An application's id, and the bytes after it.
pub fn app_id_at(bytes: &[u8]) -> Result<(AppId, &[u8]), FieldError>
    ensures within { IfOk result (λ read. IsAppId read.0) }
    ensures read { IfOk result (λ read. TakesFields app_id_fields bytes.now (app_id_frame read.0) read.1.now) }
    ensures bad { IfErr result (λ error. StopsBy app_id_fields bytes.now error) }
{
    let (stamp, rest) = u64_within(bytes, 1, STAMPS - 1)?;
    let (number, rest) = u32_within(rest, 1, NUMBERS - 1)?;
    Ok((AppId { stamp, number }, rest))
}

/// An attempt's id, and the bytes after it.
pub fn attempt_id_at(bytes: &[u8]) -> Result<(AttemptId, &[u8]), FieldError>
    ensures within { IfOk result (λ read. IsAttemptId read.0) }
    ensures read { IfOk result (λ read. TakesFields attempt_id_fields bytes.now (attempt_id_frame read.0) read.1.now) }
    ensures bad { IfErr result (λ error. StopsBy attempt_id_fields bytes.now error) }
{
    let (app, rest) = app_id_at(bytes)?;
    let (number, rest) = u32_within(rest, 1, NUMBERS - 1)?;
    Ok((AttemptId { app, number }, rest))
}

/// How something ended, and the bytes after it.
fn how_at(bytes: &[u8]) -> Result<(How, &[u8]), FieldError>
    ensures read { IfOk result (λ read. TakesFields (how_field ∷ []) bytes.now (how_code read.0 ∷ []) read.1.now) }
    ensures bad { IfErr result (λ error. StopsBy (how_field ∷ []) bytes.now error) }
{
    let (code, rest) = byte_within(bytes, FINISHED_CODE, KILLED_CODE)?;
    let how = match code {
        FINISHED_CODE => How::Finished,
        FAILED_CODE => How::Failed,
        _ => How::Killed,
    };
    Ok((how, rest))
}

/// An end: how, and its diagnostics.
pub struct End {
    pub how: How,
    pub text: Text,
}

/// An end, and the bytes after it.
pub fn end_at(alloc: Global, bytes: &[u8]) -> Result<(End, &[u8]), FieldError>
    ensures text { IfOk result (λ read. IsText TextKind.Note read.0.text) }
    ensures read { IfOk result (λ read. TakesFields end_fields bytes.now (how_code read.0.how ∷ text_frame read.0.text) read.1.now) }
    ensures bad { IfErr result (λ error. StopsBy end_fields bytes.now error) }
{
    let (how, rest) = how_at(bytes)?;
    let (text, rest) = text_at(alloc, rest, TextKind::Note)?;
    Ok((End { how, text }, rest))
}
