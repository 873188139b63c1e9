ghost use Rattle.std.specs.Prelude.{◌≡◌, ◌≢◌, ◌∷◌, [], codes, length};
ghost use Rattle.rm_formats.specs.Wording.{acl_op_text, state_text, denial_words};
ghost use Rattle.rm_page.specs.Ranges.{IsPageReply, IsDenial, IsPageReport};
ghost use Rattle.rm_page.proofs.Bytes.{cut};
ghost use Rattle.rm_page_reader.specs.Pieces.{IsBare, IsServiceWord, report_pieces, reply_pieces};
ghost use Rattle.rm_lines.specs.Results.{Finds, IsOf};

use crate::lists::{Whole, bracketed, listed};
use crate::parts::{number, text};
use rm_lines::{LineError, LineFault, Part, Words, app_id};
use rm_types::{
    AclOp, Closing, ContainerId, Denial, Grant, Reply, Report, StateWord, Text, TextKind,
};
use std::alloc::Global;

/// A reply by its text.
pub(crate) fn reply(alloc: Global, text: &[u8]) -> Result<Reply, LineError>
    ensures { Finds result (IsOf reply_pieces IsPageReply (cut 32 text.now)) }
{
    let mut words = Words::of(text);
    let word = words.word()?;
    if words.is_empty() {
        bare_reply(word)
    } else {
        long_reply(alloc, word, words)
    }
}

/// The reply that is this word alone.
#[tactic(auto, using(crate::proofs::ReplyParts::to_service))]
fn bare_reply(word: &[u8]) -> Result<Reply, LineError>
    ensures { Finds result (IsBare word.now) }
{
    if word == "NOTOPEN".as_bytes() {
        Ok(Reply::NotOpen)
    } else if word == "submitted".as_bytes() {
        Ok(Reply::Submitted)
    } else if word == "BADID".as_bytes() {
        Ok(Reply::BadId)
    } else if word == "RETIRED".as_bytes() {
        Ok(Reply::Retired)
    } else if word == "NOQUEUE".as_bytes() {
        Ok(Reply::NoQueue)
    } else if word == "TOOLARGE".as_bytes() {
        Ok(Reply::TooLarge)
    } else if word == "FULL".as_bytes() {
        Ok(Reply::Full)
    } else if word == "UNKNOWN".as_bytes() {
        Ok(Reply::Unknown)
    } else if word == "killing".as_bytes() {
        Ok(Reply::Killing)
    } else if word == "ended".as_bytes() {
        Ok(Reply::AppEnded)
    } else {
        service_reply(word)
    }
}

/// The same of the replies to masters and nodes.
#[tactic(auto, using(crate::proofs::ReplyParts::no_service))]
fn service_reply(word: &[u8]) -> Result<Reply, LineError>
    ensures { Finds result (IsServiceWord word.now) }
{
    if word == "registered".as_bytes() {
        Ok(Reply::MasterRegistered)
    } else if word == "ALREADY".as_bytes() {
        Ok(Reply::Already)
    } else if word == "GONE".as_bytes() {
        Ok(Reply::Gone)
    } else if word == "RESYNC".as_bytes() {
        Ok(Reply::Resync)
    } else if word == "WRONGID".as_bytes() {
        Ok(Reply::WrongId)
    } else if word == "NOTREGISTERED".as_bytes() {
        Ok(Reply::NotRegistered)
    } else if word == "finishing".as_bytes() {
        Ok(Reply::Finishing)
    } else if word == "finished".as_bytes() {
        Ok(Reply::Finished)
    } else if word == "ok".as_bytes() {
        Ok(Reply::Ok)
    } else {
        Err(LineError::Refused(LineFault::Form))
    }
}

/// A reply of more words, by the first and the others.
#[tactic(auto, using(rm_lines::proofs::Parts::at_word, crate::proofs::ReplyParts::no_reply))]
fn long_reply(alloc: Global, word: &[u8], words: Words<'_>) -> Result<Reply, LineError>
    requires { words ≢ [] }
    ensures { Finds result (IsOf reply_pieces IsPageReply (word.now ∷ words.entry)) }
{
    if word == "new".as_bytes() {
        new(words)
    } else if word == "DENIED".as_bytes() {
        denied(alloc, words)
    } else if word == "report".as_bytes() {
        told(alloc, words)
    } else if word == "allocated".as_bytes() {
        allocated(alloc, words)
    } else if word == "registered".as_bytes() {
        registered(alloc, words)
    } else if word == "beat".as_bytes() {
        beat(alloc, words)
    } else {
        Err(LineError::Refused(LineFault::Form))
    }
}

fn new(mut words: Words<'_>) -> Result<Reply, LineError>
    ensures { Finds result (IsOf reply_pieces IsPageReply (codes "new" ∷ words.entry)) }
{
    let id = app_id(words.word()?)?;
    words.end()?;
    Ok(Reply::New(id))
}

fn denied(alloc: Global, words: Words<'_>) -> Result<Reply, LineError>
    ensures { Finds result (IsOf reply_pieces IsPageReply (codes "DENIED" ∷ words.entry)) }
{
    Ok(Reply::Denied(denial(alloc, words)?))
}

fn denial(alloc: Global, mut words: Words<'_>) -> Result<Denial, LineError>
    ensures { Finds result (IsOf denial_words IsDenial (codes "DENIED" ∷ words.entry)) }
{
    let op = acl_op(words.word()?)?;
    let queue = text(alloc, words.word()?, TextKind::Queue)?;
    if !matches!(words.word()?, b"by") {
        return Err(LineError::Refused(LineFault::Form));
    }
    let lists = listed::<Whole, Text>(alloc, words.word()?)?;
    words.end()?;
    Ok(Denial { op, queue, lists })
}

/// What a right was asked for, by its word.
fn acl_op(word: &[u8]) -> Result<AclOp, LineError>
    ensures { Finds result (λ op. word.now ≡ acl_op_text op) }
{
    match word {
        b"submit" => Ok(AclOp::Submit),
        b"kill" => Ok(AclOp::Kill),
        _ => Err(LineError::Refused(LineFault::Form)),
    }
}

fn told(alloc: Global, words: Words<'_>) -> Result<Reply, LineError>
    ensures { Finds result (IsOf reply_pieces IsPageReply (codes "report" ∷ words.entry)) }
{
    Ok(Reply::Report(report(alloc, words)?))
}

fn report(alloc: Global, mut words: Words<'_>) -> Result<Report, LineError>
    ensures { Finds result (IsOf report_pieces IsPageReport words.entry) }
{
    let state = state(words.field(b"state=")?)?;
    let user = text(alloc, words.field(b"user=")?, TextKind::Name)?;
    let queue = text(alloc, words.field(b"queue=")?, TextKind::Queue)?;
    let name = text(alloc, words.field(b"name=")?, TextKind::Name)?;
    let attempts = number(words.field(b"attempts=")?)?;
    let live = number(words.field(b"live=")?)?;
    let text = words.last_text(alloc, b"text=", Part::Other, TextKind::Note)?;
    Ok(Report {
        state,
        user,
        queue,
        name,
        attempts,
        live,
        text,
    })
}

/// The state of an application, by its word.
fn state(word: &[u8]) -> Result<StateWord, LineError>
    ensures { Finds result (λ state. word.now ≡ state_text state) }
{
    match word {
        b"NEW" => Ok(StateWord::New),
        b"NEW_SAVING" => Ok(StateWord::NewSaving),
        b"SUBMITTED" => Ok(StateWord::Submitted),
        b"ACCEPTED" => Ok(StateWord::Accepted),
        b"RUNNING" => Ok(StateWord::Running),
        b"FINISHED" => Ok(StateWord::Finished),
        b"FAILED" => Ok(StateWord::Failed),
        b"KILLED" => Ok(StateWord::Killed),
        _ => Err(LineError::Refused(LineFault::Form)),
    }
}

fn allocated(alloc: Global, mut words: Words<'_>) -> Result<Reply, LineError>
    ensures { Finds result (IsOf reply_pieces IsPageReply (codes "allocated" ∷ words.entry)) }
{
    let id = number(words.field(b"id=")?)?;
    let grants = bracketed::<Whole, Grant>(alloc, words.field(b"grants=")?)?;
    let ended = bracketed::<Whole, Closing>(alloc, words.field(b"ended=")?)?;
    words.end()?;
    Ok(Reply::Allocated { id, grants, ended })
}

/// A registration: a master's with the containers that it is handed, which are one word, or a node's.
fn registered(alloc: Global, words: Words<'_>) -> Result<Reply, LineError>
    requires { words ≢ [] }
    ensures { Finds result (IsOf reply_pieces IsPageReply (codes "registered" ∷ words.entry)) }
{
    if words.is_last() {
        took(alloc, words)
    } else {
        node_registered(words)
    }
}

fn took(alloc: Global, mut words: Words<'_>) -> Result<Reply, LineError>
    requires { length words ≡ 1 }
    ensures { Finds result (IsOf reply_pieces IsPageReply (codes "registered" ∷ words.entry)) }
{
    let kept = bracketed::<Whole, Grant>(alloc, words.field(b"kept=")?)?;
    words.end()?;
    Ok(Reply::Took { kept })
}

fn node_registered(mut words: Words<'_>) -> Result<Reply, LineError>
    requires more { words ≢ [] }
    requires long { length words ≢ 1 }
    ensures { Finds result (IsOf reply_pieces IsPageReply (codes "registered" ∷ words.entry)) }
{
    let turn = number(words.field(b"turn=")?)?;
    let epoch = number(words.field(b"epoch=")?)?;
    words.end()?;
    Ok(Reply::NodeRegistered { turn, epoch })
}

fn beat(alloc: Global, mut words: Words<'_>) -> Result<Reply, LineError>
    ensures { Finds result (IsOf reply_pieces IsPageReply (codes "beat" ∷ words.entry)) }
{
    let id = number(words.field(b"id=")?)?;
    let launch = bracketed::<Whole, ContainerId>(alloc, words.field(b"launch=")?)?;
    let clean = bracketed::<Whole, ContainerId>(alloc, words.field(b"clean=")?)?;
    words.end()?;
    Ok(Reply::Beat { id, launch, clean })
}
