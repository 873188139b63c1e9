ghost use Rattle.std.specs.Prelude.{IfOk};
ghost use Rattle.rm_types.specs.Ranges.{IsOperation};

use crate::costs::Stop;
use rm_frame::decode;
use rm_types::Op;
use std::alloc::{AllocError, Global};

/// The operations of a job's life, in their order.
pub const STEPS: [Step; 4] = [Step::App, Step::Attempt, Step::AttemptEnd, Step::AppEnd];

const USER: &[u8] = b"alice";

const QUEUE: &[u8] = b"root.engineering.search";

const NAME: &[u8] = b"the-yearly-count-of-all-words-in-all-books-of-the-library-1";

const NODE: &[u8] = b"worker-0042.example:8041";

const NOTE: &[u8] =
    b"Application application_1410901177871_0001 failed twice due to AM Container for appattempt_1410901177871_0001_000002 exited with exitCode: 137. Failing this attempt. Diagnostics: Container killed on request. Exit code is 137. Killed by external signal. End";

/// An operation of a job's life.
#[derive(Clone, Copy)]
pub enum Step {
    App,
    Attempt,
    AttemptEnd,
    AppEnd,
}

impl Step {
    /// Its word on the output.
    pub fn word(self) -> &'static str {
        match self {
            Step::App => "app",
            Step::Attempt => "attempt",
            Step::AttemptEnd => "attempt-end",
            Step::AppEnd => "app-end",
        }
    }
}

/// Puts the frame of an operation of the job of a number in place of what there was: 121 bytes of an App, 55 of an Attempt, 276
/// of an AttemptEnd, which is the most that one has, and 16 of an AppEnd.
pub fn frame_of(out: &mut Vec<u8>, step: Step, job: u32) -> Result<(), AllocError> {
    out.clear();
    match step {
        Step::App => put_app(out, job),
        Step::Attempt => put_attempt(out, job),
        Step::AttemptEnd => put_attempt_end(out, job),
        Step::AppEnd => put_app_end(out, job),
    }
}

/// Puts the frame of the removal of the job of a number in place of what there was: 13 bytes.
pub fn removal_of(out: &mut Vec<u8>, job: u32) -> Result<(), AllocError> {
    out.clear();
    put_id(out, 6, job)
}

/// Puts the frame of an Epoch in place of what there was: 13 bytes.
pub fn epoch_of(out: &mut Vec<u8>, next: u32) -> Result<(), AllocError> {
    out.clear();
    out.extend_from_slice(&[1])?;
    out.extend_from_slice(&next.to_be_bytes())?;
    out.extend_from_slice(&u64::from(next).to_be_bytes())
}

fn put_app(out: &mut Vec<u8>, job: u32) -> Result<(), AllocError> {
    put_id(out, 7, job)?;
    put_text(out, USER)?;
    put_text(out, QUEUE)?;
    put_text(out, NAME)?;
    // 1,024 megabytes, a core, no bound on the attempts, and no containers kept.
    out.extend_from_slice(&[0, 0, 4, 0, 0, 0, 0, 1, 0, 0, 0, 0, 0])?;
    put_text(out, b"")
}

fn put_attempt(out: &mut Vec<u8>, job: u32) -> Result<(), AllocError> {
    put_id(out, 3, job)?;
    // The first attempt, whose master is the first container of its epoch.
    out.extend_from_slice(&[0, 0, 0, 1, 0, 0, 0, 0, 0, 0, 0, 0, 0, 0, 0, 1])?;
    put_text(out, NODE)
}

fn put_attempt_end(out: &mut Vec<u8>, job: u32) -> Result<(), AllocError> {
    put_id(out, 4, job)?;
    // The first attempt, which failed.
    out.extend_from_slice(&[0, 0, 0, 1, 2])?;
    put_text(out, NOTE)
}

fn put_app_end(out: &mut Vec<u8>, job: u32) -> Result<(), AllocError> {
    put_id(out, 5, job)?;
    // It failed.
    out.extend_from_slice(&[2])?;
    put_text(out, b"")
}

/// A kind of operation, and the id of an application.
fn put_id(out: &mut Vec<u8>, kind: u8, job: u32) -> Result<(), AllocError> {
    out.extend_from_slice(&[kind])?;
    out.extend_from_slice(&1_410_901_177_871u64.to_be_bytes())?;
    out.extend_from_slice(&job.saturating_add(1).to_be_bytes())
}

/// A text of fewer than 65,536 bytes behind its length.
fn put_text(out: &mut Vec<u8>, text: &[u8]) -> Result<(), AllocError> {
    out.extend_from_slice(&((text.len() % 65_536) as u16).to_be_bytes())?;
    out.extend_from_slice(text)
}

/// The operation of a frame.
pub fn op_of(alloc: Global, frame: &[u8]) -> Result<Op, Stop>
    ensures { IfOk result IsOperation }
{
    match decode(alloc, frame) {
        Ok((op, _count)) => Ok(op),
        Err(_) => Err(Stop),
    }
}
