ghost use Rattle.std.specs.Prelude.{◌≡◌, ◌↔◌, ◌∷◌, ◌++◌, ◌&&◌, ◌≢◌, [], None, true, false, Ok, All, IfOk, IfErr, IfSome, IsTrue, List, ℕ, length, drop, map, codes};
ghost use Rattle.rm_types.specs.declared.entries.Entry.{Entry as AnyEntry};
ghost use Rattle.rm_types.specs.declared.messages.Message.{Message as AnyMessage};
ghost use Rattle.rm_types.specs.declared.replies.Reply.{Reply as AnyReply};
ghost use Rattle.rm_types.specs.Ranges.{IsContainerId, IsText};
ghost use Rattle.rm_types.specs.declared.texts.TextKind.TheVariants.{Node};
ghost use Rattle.rm_formats.specs.Page.{line_of};
ghost use Rattle.rm_formats.specs.Wording.{bracketed, message_text, reply_text};
ghost use Rattle.rm_page.specs.Ranges.{IsEntry, IsGrant, IsPageServed, MayAnswer};
ghost use Rattle.rm_page.proofs.Bytes.{cut, lacks};
ghost use Rattle.rm_page_reader.specs.Answers.{GivesLine, IsPlain, IsToldEntry, frees, is_free, served_entry, served_text};
ghost use Rattle.rm_page_reader.specs.Pieces.{entry_pieces};
ghost use Rattle.rm_page_reader.specs.Results.{IsLastCut};
ghost use Rattle.rm_lines.specs.Results.{Finds, IsOf};
ghost use Rattle.rm_page_reader.specs.Told.{IsOfScript, IsManagerEntry};
ghost use Rattle.rm_types.specs.declared.entries.Entry.TheVariants.{Pass};

use crate::lists::{ByContainer, NO_SIZE, Whole, bracketed, cause};
use crate::messages::message;
use crate::operations::operation;
use crate::parts::{long_number, number, text};
use crate::replies::reply;
use rm_lines::{
    LineError, LineFault, Reading, Words, app_id, attempt_id, container_id, halves, text_before,
    text_behind,
};
use rm_types::{
    Boxed, ClientAsk, ContainerId, Duplicate, Entry, Grant, Held, Items, Message, NoMemory, Reply,
    Sender, Text, TextKind,
};
use std::alloc::Global;

/// The entry that a line tells, by the line without its line feed. No line tells a silent one.
pub(crate) fn entry(alloc: Global, line: &[u8]) -> Result<Entry, LineError>
    ensures told { IfOk result IsToldEntry }
    ensures only { (entry : AnyEntry) → IsManagerEntry entry → line_of entry ≡ line.now ++ codes "\n" → GivesLine result entry }
{
    let mut words = Words::of(line);
    let word = words.word()?;
    if word == "served".as_bytes() {
        served(alloc, words.rest()?)
    } else {
        plain(alloc, word, words)
    }
}

/// An entry that says of no message that it was answered, by the first word of its line and the others.
#[tactic(auto, using(rm_lines::proofs::Parts::at_word, crate::proofs::EntryParts::no_entry))]
fn plain(alloc: Global, word: &[u8], words: Words<'_>) -> Result<Entry, LineError>
    ensures { Finds result (IsOf entry_pieces IsPlain (word.now ∷ words.entry)) }
{
    if word == "opened".as_bytes() {
        opened(words)
    } else if word == "issued".as_bytes() {
        issued(alloc, words)
    } else if word == "kept".as_bytes() {
        kept(alloc, words)
    } else if word == "blown".as_bytes() {
        blown(words)
    } else if word == "accepted".as_bytes() {
        accepted(words)
    } else if word == "queued".as_bytes() {
        queued(words)
    } else if word == "absorbed".as_bytes() {
        absorbed(alloc, words)
    } else if word == "pass".as_bytes() {
        pass(alloc, words)
    } else if word == "ordered".as_bytes() {
        ordered(alloc, words)
    } else if word == "ended".as_bytes() {
        ended(alloc, words)
    } else if word == "settled".as_bytes() {
        settled(words)
    } else if word == "down".as_bytes() {
        down(words)
    } else {
        Err(LineError::Refused(LineFault::Form))
    }
}

fn settled(words: Words<'_>) -> Result<Entry, LineError>
    ensures { Finds result (IsOf entry_pieces IsPlain (codes "settled" ∷ words.entry)) }
{
    words.end()?;
    Ok(Entry::Settled)
}

fn down(words: Words<'_>) -> Result<Entry, LineError>
    ensures { Finds result (IsOf entry_pieces IsPlain (codes "down" ∷ words.entry)) }
{
    words.end()?;
    Ok(Entry::Down)
}

fn issued(alloc: Global, words: Words<'_>) -> Result<Entry, LineError>
    ensures { Finds result (IsOf entry_pieces IsPlain (codes "issued" ∷ words.entry)) }
{
    let op = operation(alloc, words)?;
    Ok(Entry::Issued {
        op: Boxed::new(alloc, op)?,
    })
}

fn kept(alloc: Global, words: Words<'_>) -> Result<Entry, LineError>
    ensures { Finds result (IsOf entry_pieces IsPlain (codes "kept" ∷ words.entry)) }
{
    let op = operation(alloc, words)?;
    Ok(Entry::Kept {
        op: Boxed::new(alloc, op)?,
    })
}

fn opened(mut words: Words<'_>) -> Result<Entry, LineError>
    ensures { Finds result (IsOf entry_pieces IsPlain (codes "opened" ∷ words.entry)) }
{
    let landed = number(words.field(b"landed=")?)?;
    let epoch = number(words.field(b"epoch=")?)?;
    let stamp = long_number(words.field(b"stamp=")?)?;
    words.end()?;
    Ok(Entry::Opened {
        landed,
        epoch,
        stamp,
    })
}

fn blown(mut words: Words<'_>) -> Result<Entry, LineError>
    ensures { Finds result (IsOf entry_pieces IsPlain (codes "blown" ∷ words.entry)) }
{
    let passed = number(words.field(b"passed=")?)?;
    words.end()?;
    Ok(Entry::Blown { passed })
}

/// An answered message: what stands before the arrow, and its reply behind it.
fn served(alloc: Global, text: &[u8]) -> Result<Entry, LineError>
    ensures told { IfOk result IsToldEntry }
    ensures only { (message : AnyMessage) (reply : AnyReply) → IsOfScript message → IsPageServed message reply → text.now ≡ served_text message reply → GivesLine result (served_entry message reply) }
{
    let (asked, answered) = around_arrow(text)?;
    let message = message(alloc, asked)?;
    let reply = reply(alloc, answered)?;
    if !may_answer(&message, &reply) {
        return Err(LineError::Refused(LineFault::Form));
    }
    Ok(served_of(alloc, message, reply)?)
}

/// The entry that says that the message was answered so.
fn served_of(alloc: Global, message: Message, reply: Reply) -> Result<Entry, NoMemory>
    ensures { IfOk result (λ entry. entry ≡ served_entry message reply) }
{
    Ok(Entry::Served {
        sender: message.sender(),
        message: Boxed::new(alloc, message)?,
        reply: Boxed::new(alloc, reply)?,
    })
}

/// What stands before the arrow, and what behind it. Where spaces may stand in the message, an arrow may too, and none in the
/// reply; so the last `>` is the arrow's there, and else the first.
fn around_arrow(text: &[u8]) -> Result<(&[u8], &[u8]), LineError>
    ensures halves { (message : AnyMessage) (reply : AnyReply) → IsPageServed message reply → text.now ≡ served_text message reply → IfOk result (λ halves. (halves.0.now ≡ message_text message) × (halves.1.now ≡ reply_text reply)) }
    ensures some { (message : AnyMessage) (reply : AnyReply) → IsPageServed message reply → text.now ≡ served_text message reply → IfErr result (λ error. ⊥) }
{
    let (front, back) = at_arrow(text)?;
    Ok((text_before(front, b" -")?, text_behind(back, b" ")?))
}

/// What stands before the arrow's `>`, and what behind it.
fn at_arrow(text: &[u8]) -> Result<(&[u8], &[u8]), LineError>
    ensures halves { (message : AnyMessage) (reply : AnyReply) → IsPageServed message reply → text.now ≡ served_text message reply → IfOk result (λ halves. (halves.0.now ≡ message_text message ++ codes " -") × (halves.1.now ≡ codes " " ++ reply_text reply)) }
    ensures some { (message : AnyMessage) (reply : AnyReply) → IsPageServed message reply → text.now ≡ served_text message reply → IfErr result (λ error. ⊥) }
{
    if may_have_spaces(text)? {
        match last_halves(text, b'>') {
            Some((front, back)) => Ok((front, back)),
            None => Err(LineError::Refused(LineFault::Form)),
        }
    } else {
        match halves(text, b'>') {
            Some((front, back)) => Ok((front, back)),
            None => Err(LineError::Refused(LineFault::Form)),
        }
    }
}

/// Whether the message with which the text begins is one in whose last text spaces may stand.
fn may_have_spaces(text: &[u8]) -> Result<bool, LineError>
    ensures { (sender name verb : List ℕ) (more : List (List ℕ)) → cut 32 text.now ≡ sender ∷ name ∷ verb ∷ more → result ≡ Ok (is_free sender verb) }
{
    let mut words = Words::of(text);
    let sender = words.word()?;
    let _name = words.word()?;
    let verb = words.word()?;
    Ok(is_free(sender, verb))
}

/// The same by the sender and the word that says what it asks.
fn is_free(sender: &[u8], verb: &[u8]) -> bool
    ensures { result ≡ is_free sender.now verb.now }
{
    (sender == "client".as_bytes() && verb == "submit".as_bytes())
        || (sender == "master".as_bytes() && verb == "finish".as_bytes())
}

/// What stands before the last such byte, and what behind it.
fn last_halves(text: &[u8], byte: u8) -> Option<(&[u8], &[u8])>
    ensures halves { IfSome result (λ halves. IsLastCut byte text.now halves.0.now halves.1.now) }
    ensures none { result ≡ None → lacks byte text.now ≡ true }
{
    let mut end = text.len();
    'places: while end > 0 {
        let place = end - 1;
        if text[place] == byte {
            return Some((&text[..place], &text[end..]));
        }
        end = place;
    }
    None
}

/// Whether the reply may answer the message: a report answers only who asked for one.
fn may_answer(message: &Message, reply: &Reply) -> bool
    ensures { IsTrue result ↔ MayAnswer message.now reply.now }
{
    match reply {
        Reply::Report(_) => matches!(message, Message::Client(_, ClientAsk::Report(_))),
        _ => true,
    }
}

fn accepted(mut words: Words<'_>) -> Result<Entry, LineError>
    ensures { Finds result (IsOf entry_pieces IsPlain (codes "accepted" ∷ words.entry)) }
{
    let app = app_id(words.word()?)?;
    words.end()?;
    Ok(Entry::Accepted { app })
}

fn queued(mut words: Words<'_>) -> Result<Entry, LineError>
    ensures { Finds result (IsOf entry_pieces IsPlain (codes "queued" ∷ words.entry)) }
{
    let attempt = attempt_id(words.word()?)?;
    words.end()?;
    Ok(Entry::Queued { attempt })
}

fn absorbed(alloc: Global, mut words: Words<'_>) -> Result<Entry, LineError>
    ensures { Finds result (IsOf entry_pieces IsPlain (codes "absorbed" ∷ words.entry)) }
{
    let node = boxed_node(alloc, words.word()?)?;
    let taken = boxed_list::<ByContainer, Held>(alloc, words.field(b"taken=")?)?;
    let ended = boxed_list::<Whole, ContainerId>(alloc, words.field(b"ended=")?)?;
    words.end()?;
    Ok(Entry::Absorbed { node, taken, ended })
}

/// A node's name.
fn boxed_node(alloc: Global, word: &[u8]) -> Result<Boxed<Text>, LineError>
    ensures { Finds result (IsOf (λ node. node) (IsText Node) word.now) }
{
    let node = text(alloc, word, TextKind::Node)?;
    Ok(Boxed::new(alloc, node)?)
}

/// A list in brackets.
fn boxed_list<R: Reading<T>, T: Drop>(
    alloc: Global,
    bytes: &[u8],
) -> Result<Boxed<Items<T>>, LineError>
    ensures { Finds result (IsOf (λ items. bracketed (map R.text items)) (All R.is) bytes.now) }
{
    let list = bracketed::<R, T>(alloc, bytes)?;
    Ok(Boxed::new(alloc, list)?)
}

fn pass(alloc: Global, mut words: Words<'_>) -> Result<Entry, LineError>
    ensures { Finds result (IsOf entry_pieces IsPlain (codes "pass" ∷ words.entry)) }
{
    let node = text(alloc, words.word()?, TextKind::Node)?;
    let ids = bracketed::<Whole, ContainerId>(alloc, words.field(b"grants=")?)?;
    words.end()?;
    let grants = grants_on(alloc, &node, &ids)?;
    Ok(pass_of(alloc, node, grants)?)
}

/// The pass that makes these grants on a node.
fn pass_of(alloc: Global, node: Text, grants: Items<Grant>) -> Result<Entry, NoMemory>
    ensures { IfOk result (λ entry. entry ≡ Pass node grants) }
{
    Ok(Entry::Pass {
        node: Boxed::new(alloc, node)?,
        grants: Boxed::new(alloc, grants)?,
    })
}

/// The containers as a pass grants them on its node.
fn grants_on(alloc: Global, node: &Text, ids: &Items<ContainerId>) -> Result<Items<Grant>, NoMemory>
    requires node { IsText Node node.now }
    requires ids { All IsContainerId ids.now }
    ensures { IfOk result (λ grants. All IsGrant grants × (map (λ grant. grant.id) grants ≡ ids.now)) }
{
    let mut grants = Items::new(alloc);
    'ids: for id in ids.as_slice() {
        grants.push(grant_on(node, *id)?)?;
    }
    Ok(grants)
}

/// A container as a pass grants it on its node.
fn grant_on(node: &Text, id: ContainerId) -> Result<Grant, NoMemory>
    requires node { IsText Node node.now }
    requires id { IsContainerId id }
    ensures { IfOk result (λ grant. IsGrant grant × (grant.id ≡ id)) }
{
    Ok(Grant {
        id,
        node: node.copy()?,
        size: NO_SIZE,
    })
}

fn ordered(alloc: Global, mut words: Words<'_>) -> Result<Entry, LineError>
    ensures { Finds result (IsOf entry_pieces IsPlain (codes "ordered" ∷ words.entry)) }
{
    let container = container_id(words.word()?)?;
    let node = boxed_node(alloc, words.word()?)?;
    words.end()?;
    Ok(Entry::Ordered {
        container: Boxed::new(alloc, container)?,
        node,
    })
}

fn ended(alloc: Global, mut words: Words<'_>) -> Result<Entry, LineError>
    ensures { Finds result (IsOf entry_pieces IsPlain (codes "ended" ∷ words.entry)) }
{
    let cause = cause(words.word()?)?;
    let list = bracketed::<Whole, ContainerId>(alloc, words.word()?)?;
    words.end()?;
    Ok(Entry::Ended { cause, list })
}
