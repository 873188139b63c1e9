ghost use Rattle.std.specs.Prelude.{ℕ, List, ◌∷◌, codes};
ghost use Rattle.rm_types.specs.Ranges.{IsText};
ghost use Rattle.rm_types.specs.declared.texts.TextKind.TheVariants.{Name};
ghost use Rattle.rm_lines.specs.Results.{Finds, IsOf};
ghost use Rattle.rm_script.specs.Messages.{IsScriptClientAsk, IsScriptMessage};
ghost use Rattle.rm_script.specs.Pieces.{client_pieces, said_pieces};

use rm_lines::{LineError, LineFault, Part, Words, app_id, submission, text};
use rm_types::{ClientAsk, Duplicate, Message, Text, TextKind};
use std::alloc::Global;

/// The message of a client, by the words after `client`.
pub(crate) fn client_message(alloc: Global, mut words: Words<'_>) -> Result<Message, LineError>
    ensures { Finds result (IsOf said_pieces IsScriptMessage (codes "client" ∷ words.entry)) }
{
    let user = text(alloc, words.word()?, Part::User, TextKind::Name)?;
    let ask = client_ask(alloc, &user, words)?;
    Ok(Message::Client(user, ask))
}

/// What the user asks.
fn client_ask(alloc: Global, user: &Text, mut words: Words<'_>) -> Result<ClientAsk, LineError>
    requires { IsText Name user.now }
    ensures { Finds result (IsOf client_pieces (IsScriptClientAsk user.now) words.entry) }
{
    let verb = words.word()?;
    ask_by(alloc, user, verb, words)
}

/// The same by the word that says it and the words after that.
fn ask_by(alloc: Global, user: &Text, verb: &[u8], words: Words<'_>) -> Result<ClientAsk, LineError>
    requires { IsText Name user.now }
    ensures { Finds result (IsOf client_pieces (IsScriptClientAsk user.now) (verb.now ∷ words.entry)) }
{
    if verb == "new".as_bytes() {
        new_ask(words)
    } else if verb == "submit".as_bytes() {
        submit_ask(alloc, user, words)
    } else if verb == "report".as_bytes() {
        report_ask(words)
    } else if verb == "kill".as_bytes() {
        kill_ask(words)
    } else {
        Err(LineError::Refused(LineFault::Form))
    }
}

fn new_ask(words: Words<'_>) -> Result<ClientAsk, LineError>
    ensures { (user : List ℕ) → Finds result (IsOf client_pieces (IsScriptClientAsk user) (codes "new" ∷ words.entry)) }
{
    words.end()?;
    Ok(ClientAsk::New)
}

fn submit_ask(alloc: Global, user: &Text, mut words: Words<'_>) -> Result<ClientAsk, LineError>
    requires { IsText Name user.now }
    ensures { Finds result (IsOf client_pieces (IsScriptClientAsk user.now) (codes "submit" ∷ words.entry)) }
{
    let id = app_id(words.word()?)?;
    let submission = submission(alloc, user.copy()?, words)?;
    Ok(ClientAsk::Submit(id, submission))
}

fn report_ask(mut words: Words<'_>) -> Result<ClientAsk, LineError>
    ensures { (user : List ℕ) → Finds result (IsOf client_pieces (IsScriptClientAsk user) (codes "report" ∷ words.entry)) }
{
    let id = app_id(words.word()?)?;
    words.end()?;
    Ok(ClientAsk::Report(id))
}

fn kill_ask(mut words: Words<'_>) -> Result<ClientAsk, LineError>
    ensures { (user : List ℕ) → Finds result (IsOf client_pieces (IsScriptClientAsk user) (codes "kill" ∷ words.entry)) }
{
    let id = app_id(words.word()?)?;
    words.end()?;
    Ok(ClientAsk::Kill(id))
}
