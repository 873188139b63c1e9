ghost use Rattle.std.specs.Prelude.{◌≡◌, ℕ, [], ◌∷◌, false, IfOk, IfErr, Some, Ok};
ghost use Rattle.std.specs.Int.{to_be_bytes, w32, w64};
ghost use Rattle.rm_types.specs.declared.operations.Op.{Op as AnyOp};
ghost use Rattle.rm_types.specs.Ranges.{IsSubmission};
ghost use Rattle.rm_formats.specs.Frames.{kind_code, yes_code};
ghost use Rattle.rm_formats.specs.declared.codes.TheConstants.{EPOCH_CODE, OLDER_APP_CODE, APP_CODE, ATTEMPT_CODE, ATTEMPT_END_CODE, APP_END_CODE, REMOVE_CODE};
ghost use Rattle.rm_frame.specs.Fields.{ByteFrom, keep_fields, submission_fields, master_fields, epoch_fields, app_id_fields, attempt_id_fields, end_fields, TextOf, layout, left_at_fault, fault_place, fields_of, kind_field};
ghost use Rattle.rm_frame.specs.Framed.{IsFramed, keep_frame, submission_frame_by};
ghost use Rattle.rm_frame.specs.Reads.{TakesFields, StopsReading, StopsBy, ReadsNow, ReadsOp};

use crate::fields::{
    End, FieldError, app_id_at, attempt_id_at, byte_within, end_at, text_at, u32_within, u64_within,
};
use rm_formats::{
    APP_CODE, APP_END_CODE, ATTEMPT_CODE, ATTEMPT_END_CODE, EPOCH_CODE, FrameKind, OLDER_APP_CODE,
    REMOVE_CODE,
};
use rm_types::{
    ContainerId, EPOCHS, GREATEST_ATTEMPTS, GREATEST_MEMORY_MB, GREATEST_VCORES, Op, Resource,
    SEQUENCES, STAMPS, Submission, TextKind,
};
use std::alloc::Global;
use thiserror::Error;

/// Why no operation was read.
#[derive(Clone, Copy, Debug, PartialEq, Eq, Error)]
pub enum FrameError {
    /// The bytes begin with no operation's frame. The place is where the first field begins that is
    /// short or out of range.
    #[error("no frame of an operation: byte {place} begins a field that is short or out of range")]
    BadFrame { place: usize },
    /// No memory was found for the operation.
    #[error("out of memory")]
    Memory,
}

/// The operation whose frame the bytes begin with, and how many bytes the frame has. `BadFrame` comes
/// exactly where they begin with no frame.
pub fn decode(alloc: Global, bytes: &[u8]) -> Result<(Op, usize), FrameError>
    ensures framed { IfOk result (λ read. IsFramed bytes.now read.0 read.1) }
    ensures only { IfOk result (λ read. (op : AnyOp) (count : ℕ) → IsFramed bytes.now op count → (read.0 ≡ op) × (read.1 ≡ count)) }
    ensures place { IfErr result (λ error. (place : ℕ) → error ≡ FrameError.BadFrame place → fault_place bytes.now ≡ Some place) }
    ensures no_frame { IfErr result (λ error. (place : ℕ) → error ≡ FrameError.BadFrame place → (op : AnyOp) (count : ℕ) → IsFramed bytes.now op count → ⊥) }
{
    match op_at(alloc, bytes) {
        Ok((op, rest)) => Ok((op, bytes.len() - rest.len())),
        Err(FieldError::Bad { left }) => Err(FrameError::BadFrame {
            place: bytes.len() - left,
        }),
        Err(FieldError::Memory) => Err(FrameError::Memory),
    }
}

fn op_at(alloc: Global, bytes: &[u8]) -> Result<(Op, &[u8]), FieldError>
    ensures read { IfOk result (λ read. ReadsOp bytes.now read.0 read.1.now) }
    ensures bad { IfErr result (λ error. StopsBy (layout bytes.now) bytes.now error) }
{
    let (kind, rest) = kind_at(bytes)?;
    fields_at(alloc, kind, rest)
}

/// The operation of a kind, from the bytes behind the byte for its kind.
fn fields_at(alloc: Global, kind: FrameKind, bytes: &[u8]) -> Result<(Op, &[u8]), FieldError>
    ensures read { IfOk result (λ read. ReadsOp (kind_code kind ∷ bytes.now) read.0 read.1.now) }
    ensures bad { IfErr result (λ error. StopsBy (fields_of (kind_code kind)) bytes.now error) }
{
    match kind {
        FrameKind::Epoch => epoch_at(bytes),
        FrameKind::OlderApp => older_app_at(alloc, bytes),
        FrameKind::App => app_at(alloc, bytes),
        FrameKind::Attempt => attempt_at(alloc, bytes),
        FrameKind::AttemptEnd => attempt_end_at(alloc, bytes),
        FrameKind::AppEnd => app_end_at(alloc, bytes),
        FrameKind::Remove => remove_at(bytes),
    }
}

/// The kind of a frame, and the bytes after the byte for it.
fn kind_at(bytes: &[u8]) -> Result<(FrameKind, &[u8]), FieldError>
    ensures read { IfOk result (λ read. TakesFields (kind_field ∷ []) bytes.now (kind_code read.0 ∷ []) read.1.now) }
    ensures bad { IfErr result (λ error. StopsBy (kind_field ∷ []) bytes.now error) }
{
    let (code, rest) = byte_within(bytes, EPOCH_CODE, APP_CODE)?;
    let kind = match code {
        EPOCH_CODE => FrameKind::Epoch,
        OLDER_APP_CODE => FrameKind::OlderApp,
        ATTEMPT_CODE => FrameKind::Attempt,
        ATTEMPT_END_CODE => FrameKind::AttemptEnd,
        APP_END_CODE => FrameKind::AppEnd,
        REMOVE_CODE => FrameKind::Remove,
        _ => FrameKind::App,
    };
    Ok((kind, rest))
}

fn epoch_at(bytes: &[u8]) -> Result<(Op, &[u8]), FieldError>
    ensures read { IfOk result (λ read. ReadsNow (EPOCH_CODE ∷ bytes.now) read.0 read.1.now) }
    ensures bad { IfErr result (λ error. StopsBy epoch_fields bytes.now error) }
{
    let (next, rest) = u32_within(bytes, 1, EPOCHS)?;
    let (stamp, rest) = u64_within(rest, 1, STAMPS - 1)?;
    Ok((Op::Epoch { next, stamp }, rest))
}

fn app_at(alloc: Global, bytes: &[u8]) -> Result<(Op, &[u8]), FieldError>
    ensures read { IfOk result (λ read. ReadsNow (APP_CODE ∷ bytes.now) read.0 read.1.now) }
    ensures bad { IfErr result (λ error. StopsBy (fields_of APP_CODE) bytes.now error) }
{
    let (id, rest) = app_id_at(bytes)?;
    let (submission, rest) = submission_at(alloc, rest, true)?;
    Ok((Op::App { id, submission }, rest))
}

/// An App as it was kept before there was a choice to keep containers.
fn older_app_at(alloc: Global, bytes: &[u8]) -> Result<(Op, &[u8]), FieldError>
    ensures read { IfOk result (λ read. ReadsOp (OLDER_APP_CODE ∷ bytes.now) read.0 read.1.now) }
    ensures bad { IfErr result (λ error. StopsBy (fields_of OLDER_APP_CODE) bytes.now error) }
{
    let (id, rest) = app_id_at(bytes)?;
    let (submission, rest) = submission_at(alloc, rest, false)?;
    Ok((Op::App { id, submission }, rest))
}

/// Whether containers are kept, and the bytes after it. Where it could not be chosen, they are not.
fn keep_at(bytes: &[u8], chosen: bool) -> Result<(bool, &[u8]), FieldError>
    ensures unkept { IfOk result (λ read. chosen ≡ false → read.0 ≡ false) }
    ensures read { IfOk result (λ read. TakesFields (keep_fields chosen) bytes.now (keep_frame chosen read.0) read.1.now) }
    ensures bad { IfErr result (λ error. StopsBy (keep_fields chosen) bytes.now error) }
{
    if chosen {
        yes_at(bytes)
    } else {
        Ok((false, bytes))
    }
}

/// A yes or no, and the bytes after it.
fn yes_at(bytes: &[u8]) -> Result<(bool, &[u8]), FieldError>
    ensures read { IfOk result (λ read. TakesFields (ByteFrom 0 1 ∷ []) bytes.now (yes_code read.0 ∷ []) read.1.now) }
    ensures bad { IfErr result (λ error. StopsBy (ByteFrom 0 1 ∷ []) bytes.now error) }
{
    let (code, rest) = byte_within(bytes, 0, 1)?;
    let yes = match code {
        0 => false,
        _ => true,
    };
    Ok((yes, rest))
}

fn submission_at(
    alloc: Global,
    bytes: &[u8],
    chosen: bool,
) -> Result<(Submission, &[u8]), FieldError>
    ensures within { IfOk result (λ read. IsSubmission read.0) }
    ensures unkept { IfOk result (λ read. chosen ≡ false → read.0.keep ≡ false) }
    ensures read { IfOk result (λ read. TakesFields (submission_fields chosen) bytes.now (submission_frame_by chosen read.0) read.1.now) }
    ensures bad { IfErr result (λ error. StopsBy (submission_fields chosen) bytes.now error) }
{
    let (user, rest) = text_at(alloc, bytes, TextKind::Name)?;
    let (queue, rest) = text_at(alloc, rest, TextKind::Queue)?;
    let (name, rest) = text_at(alloc, rest, TextKind::Name)?;
    let (memory_mb, rest) = u32_within(rest, 1, GREATEST_MEMORY_MB)?;
    let (vcores, rest) = u32_within(rest, 1, GREATEST_VCORES)?;
    let (attempts, rest) = u32_within(rest, 0, GREATEST_ATTEMPTS)?;
    let (keep, rest) = keep_at(rest, chosen)?;
    let (modify, rest) = text_at(alloc, rest, TextKind::AclText)?;
    let master = Resource { memory_mb, vcores };
    let submission = Submission {
        user,
        queue,
        name,
        master,
        attempts,
        keep,
        modify,
        ..Submission::empty()
    };
    Ok((submission, rest))
}

fn attempt_at(alloc: Global, bytes: &[u8]) -> Result<(Op, &[u8]), FieldError>
    ensures read { IfOk result (λ read. ReadsNow (ATTEMPT_CODE ∷ bytes.now) read.0 read.1.now) }
    ensures bad { IfErr result (λ error. StopsBy (fields_of ATTEMPT_CODE) bytes.now error) }
{
    let (id, rest) = attempt_id_at(bytes)?;
    let (epoch, rest) = u32_within(rest, 0, EPOCHS - 1)?;
    let (seq, rest) = u64_within(rest, 1, SEQUENCES - 1)?;
    let (node, rest) = text_at(alloc, rest, TextKind::Node)?;
    let master = ContainerId {
        attempt: id,
        epoch,
        seq,
    };
    Ok((Op::Attempt { id, master, node }, rest))
}

fn attempt_end_at(alloc: Global, bytes: &[u8]) -> Result<(Op, &[u8]), FieldError>
    ensures read { IfOk result (λ read. ReadsNow (ATTEMPT_END_CODE ∷ bytes.now) read.0 read.1.now) }
    ensures bad { IfErr result (λ error. StopsBy (fields_of ATTEMPT_END_CODE) bytes.now error) }
{
    let (id, rest) = attempt_id_at(bytes)?;
    let (End { how, text }, rest) = end_at(alloc, rest)?;
    Ok((Op::AttemptEnd { id, how, text }, rest))
}

fn app_end_at(alloc: Global, bytes: &[u8]) -> Result<(Op, &[u8]), FieldError>
    ensures read { IfOk result (λ read. ReadsNow (APP_END_CODE ∷ bytes.now) read.0 read.1.now) }
    ensures bad { IfErr result (λ error. StopsBy (fields_of APP_END_CODE) bytes.now error) }
{
    let (id, rest) = app_id_at(bytes)?;
    let (End { how, text }, rest) = end_at(alloc, rest)?;
    Ok((Op::AppEnd { id, how, text }, rest))
}

fn remove_at(bytes: &[u8]) -> Result<(Op, &[u8]), FieldError>
    ensures read { IfOk result (λ read. ReadsNow (REMOVE_CODE ∷ bytes.now) read.0 read.1.now) }
    ensures bad { IfErr result (λ error. StopsBy app_id_fields bytes.now error) }
{
    let (id, rest) = app_id_at(bytes)?;
    Ok((Op::Remove { id }, rest))
}
