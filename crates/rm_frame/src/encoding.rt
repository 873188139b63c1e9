ghost use Rattle.std.specs.Prelude.{◌≡◌, ◌<◌, ◌^◌, [], ◌∷◌, ◌++◌, length, OnOk, OnErr, IfOk};
ghost use Rattle.std.specs.Int.{to_be_bytes, w32, w64};
ghost use Rattle.rm_formats.specs.Frames.{frame, text_frame, app_id_frame, attempt_id_frame, submission_frame, how_code, kind_code, yes_code};
ghost use Rattle.rm_types.specs.Ranges.{IsOperation, IsSubmission, IsText};

use rm_formats::{
    APP_CODE, APP_END_CODE, ATTEMPT_CODE, ATTEMPT_END_CODE, EPOCH_CODE, FAILED_CODE, FINISHED_CODE,
    FrameKind, KILLED_CODE, OLDER_APP_CODE, REMOVE_CODE,
};
use rm_types::{AppId, AttemptId, ContainerId, How, NoMemory, Op, Submission, Text, TextKind};
use std::alloc::Global;

/// Makes the frames of operations, one after another in one buffer, so that it takes memory only for a frame that is
/// longer than all before it.
#[derive(Drop)]
pub struct Encoder {
    buffer: Vec<u8>,
}

impl Encoder {
    /// An encoder that has made no frame. It takes no memory.
    pub fn new(alloc: Global) -> Encoder {
        Encoder {
            buffer: Vec::new(alloc),
        }
    }

    /// The frame of an operation. The parts of the operation must be in their ranges, and an attempt's master must
    /// be a container of that attempt.
    pub fn frame(&mut self, op: &Op) -> Result<&[u8], NoMemory>
        requires { IsOperation op.now }
        ensures { IfOk result (λ bytes. bytes.now ≡ frame op.now) }
    {
        self.buffer.clear();
        put_op(&mut self.buffer, op)?;
        Ok(self.buffer.as_slice())
    }
}

fn put_op(out: &mut Vec<u8>, op: &Op) -> Result<(), NoMemory>
    requires { IsOperation op.now }
    ensures { OnOk result (out.new.items ≡ out.old.items ++ frame op.now) }
{
    match op {
        Op::Epoch { next, stamp } => put_epoch(out, *next, *stamp),
        Op::App { id, submission } => put_app(out, *id, submission),
        Op::Attempt { id, master, node } => put_attempt(out, *id, *master, node),
        Op::AttemptEnd { id, how, text } => put_attempt_end(out, *id, *how, text),
        Op::AppEnd { id, how, text } => put_app_end(out, *id, *how, text),
        Op::Remove { id } => put_remove(out, *id),
    }
}

fn put_epoch(out: &mut Vec<u8>, next: u32, stamp: u64) -> Result<(), NoMemory>
    ensures { OnOk result (out.new.items ≡ out.old.items ++ frame (Op.Epoch next stamp)) }
{
    put_kind(out, FrameKind::Epoch)?;
    put_u32(out, next)?;
    put_u64(out, stamp)?;
    Ok(())
}

fn put_app(out: &mut Vec<u8>, id: AppId, submission: &Submission) -> Result<(), NoMemory>
    requires { IsSubmission submission.now }
    ensures { OnOk result (out.new.items ≡ out.old.items ++ frame (Op.App id submission.now)) }
{
    put_kind(out, FrameKind::App)?;
    put_app_id(out, id)?;
    put_submission(out, submission)?;
    Ok(())
}

fn put_attempt(
    out: &mut Vec<u8>,
    id: AttemptId,
    master: ContainerId,
    node: &Text,
) -> Result<(), NoMemory>
    requires { IsText TextKind.Node node.now }
    ensures { OnOk result (out.new.items ≡ out.old.items ++ frame (Op.Attempt id master node.now)) }
{
    put_kind(out, FrameKind::Attempt)?;
    put_attempt_id(out, id)?;
    put_u32(out, master.epoch)?;
    put_u64(out, master.seq)?;
    put_text(out, node)?;
    Ok(())
}

fn put_attempt_end(out: &mut Vec<u8>, id: AttemptId, how: How, text: &Text) -> Result<(), NoMemory>
    requires { IsText TextKind.Note text.now }
    ensures { OnOk result (out.new.items ≡ out.old.items ++ frame (Op.AttemptEnd id how text.now)) }
{
    put_kind(out, FrameKind::AttemptEnd)?;
    put_attempt_id(out, id)?;
    put_end(out, how, text)?;
    Ok(())
}

fn put_app_end(out: &mut Vec<u8>, id: AppId, how: How, text: &Text) -> Result<(), NoMemory>
    requires { IsText TextKind.Note text.now }
    ensures { OnOk result (out.new.items ≡ out.old.items ++ frame (Op.AppEnd id how text.now)) }
{
    put_kind(out, FrameKind::AppEnd)?;
    put_app_id(out, id)?;
    put_end(out, how, text)?;
    Ok(())
}

fn put_remove(out: &mut Vec<u8>, id: AppId) -> Result<(), NoMemory>
    ensures { OnOk result (out.new.items ≡ out.old.items ++ frame (Op.Remove id)) }
{
    put_kind(out, FrameKind::Remove)?;
    put_app_id(out, id)
}

/// The byte for a kind of frame.
fn put_kind(out: &mut Vec<u8>, kind: FrameKind) -> Result<(), NoMemory>
    ensures { OnOk result (out.new.items ≡ out.old.items ++ kind_code kind ∷ []) }
{
    out.push(kind_code(kind))?;
    Ok(())
}

fn put_submission(out: &mut Vec<u8>, submission: &Submission) -> Result<(), NoMemory>
    requires { IsSubmission submission.now }
    ensures { OnOk result (out.new.items ≡ out.old.items ++ submission_frame submission.now) }
{
    put_text(out, &submission.user)?;
    put_text(out, &submission.queue)?;
    put_text(out, &submission.name)?;
    put_u32(out, submission.master.memory_mb)?;
    put_u32(out, submission.master.vcores)?;
    put_u32(out, submission.attempts)?;
    out.push(yes_code(submission.keep))?;
    put_text(out, &submission.modify)?;
    Ok(())
}

fn put_app_id(out: &mut Vec<u8>, id: AppId) -> Result<(), NoMemory>
    ensures { OnOk result (out.new.items ≡ out.old.items ++ app_id_frame id) }
{
    put_u64(out, id.stamp)?;
    put_u32(out, id.number)?;
    Ok(())
}

fn put_attempt_id(out: &mut Vec<u8>, id: AttemptId) -> Result<(), NoMemory>
    ensures { OnOk result (out.new.items ≡ out.old.items ++ attempt_id_frame id) }
{
    put_app_id(out, id.app)?;
    put_u32(out, id.number)?;
    Ok(())
}

fn put_end(out: &mut Vec<u8>, how: How, text: &Text) -> Result<(), NoMemory>
    requires { IsText TextKind.Note text.now }
    ensures { OnOk result (out.new.items ≡ out.old.items ++ how_code how ∷ text_frame text.now) }
{
    out.push(how_code(how))?;
    put_text(out, text)?;
    Ok(())
}

/// A text behind its length.
fn put_text(out: &mut Vec<u8>, text: &Text) -> Result<(), NoMemory>
    requires { length text.now < 2 ^ 16 }
    ensures { OnOk result (out.new.items ≡ out.old.items ++ text_frame text.now) }
{
    let bytes = text.bytes();
    out.extend_from_slice(&(bytes.len() as u16).to_be_bytes())?;
    out.extend_from_slice(bytes)?;
    Ok(())
}

fn put_u32(out: &mut Vec<u8>, number: u32) -> Result<(), NoMemory>
    ensures { OnOk result (out.new.items ≡ out.old.items ++ to_be_bytes w32 number) }
{
    out.extend_from_slice(&number.to_be_bytes())?;
    Ok(())
}

fn put_u64(out: &mut Vec<u8>, number: u64) -> Result<(), NoMemory>
    ensures { OnOk result (out.new.items ≡ out.old.items ++ to_be_bytes w64 number) }
{
    out.extend_from_slice(&number.to_be_bytes())?;
    Ok(())
}

fn yes_code(yes: bool) -> u8
    ensures { result ≡ yes_code yes }
{
    if yes { 1 } else { 0 }
}

fn how_code(how: How) -> u8
    ensures { result ≡ how_code how }
{
    match how {
        How::Finished => FINISHED_CODE,
        How::Failed => FAILED_CODE,
        How::Killed => KILLED_CODE,
    }
}

fn kind_code(kind: FrameKind) -> u8
    ensures { result ≡ kind_code kind }
{
    match kind {
        FrameKind::Epoch => EPOCH_CODE,
        FrameKind::OlderApp => OLDER_APP_CODE,
        FrameKind::App => APP_CODE,
        FrameKind::Attempt => ATTEMPT_CODE,
        FrameKind::AttemptEnd => ATTEMPT_END_CODE,
        FrameKind::AppEnd => APP_END_CODE,
        FrameKind::Remove => REMOVE_CODE,
    }
}
