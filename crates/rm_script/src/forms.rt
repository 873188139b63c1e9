ghost use Rattle.std.specs.Prelude.{◌≤◌};

use crate::faults::Form;

/// The word at a place of a line, from 0 on; empty where it has fewer.
fn word_at(text: &[u8], place: usize) -> &[u8] {
    match text.split(|byte| *byte == b' ').nth(place) {
        Some(word) => word,
        None => b"",
    }
}

/// The form of a client's message, by the word that says what it asks.
fn client_form(verb: &[u8]) -> Form {
    if verb == "new".as_bytes() {
        Form::New
    } else if verb == "submit".as_bytes() {
        Form::Submit
    } else if verb == "report".as_bytes() {
        Form::Report
    } else if verb == "kill".as_bytes() {
        Form::Kill
    } else {
        Form::Client
    }
}

/// The form of a master's.
fn master_form(verb: &[u8]) -> Form {
    if verb == "register".as_bytes() {
        Form::MasterRegister
    } else if verb == "allocate".as_bytes() {
        Form::Allocate
    } else if verb == "finish".as_bytes() {
        Form::Finish
    } else {
        Form::Master
    }
}

/// The form of a node's.
fn node_form(verb: &[u8]) -> Form {
    if verb == "register".as_bytes() {
        Form::NodeRegister
    } else if verb == "beat".as_bytes() {
        Form::Beat
    } else {
        Form::Node
    }
}

/// The form of a message of the clock, by the word that says what it is and the one after it.
fn clock_form(verb: &[u8], whose: &[u8]) -> Form {
    if verb == "tick".as_bytes() {
        Form::Tick
    } else if verb != "expire".as_bytes() {
        Form::Clock
    } else if whose == "node".as_bytes() {
        Form::ExpireNode
    } else if whose == "master".as_bytes() {
        Form::ExpireMaster
    } else {
        Form::Clock
    }
}

/// The form of the message whose sender is the word at a place, where it is one.
fn message_form(text: &[u8], place: usize) -> Option<Form>
    requires { place ≤ 1 }
{
    let sender = word_at(text, place);
    let verb = word_at(text, place + 2);
    if sender == "client".as_bytes() {
        Some(client_form(verb))
    } else if sender == "master".as_bytes() {
        Some(master_form(verb))
    } else if sender == "node".as_bytes() {
        Some(node_form(verb))
    } else if sender == "clock".as_bytes() {
        Some(clock_form(word_at(text, place + 1), verb))
    } else {
        None
    }
}

/// The form of the lines that begin as this one does. Of a message that is lost it is the message's.
pub(crate) fn form_of(text: &[u8]) -> Form {
    let first = word_at(text, 0);
    if first == "start".as_bytes() {
        Form::Start
    } else if first == "settle".as_bytes() {
        Form::Settle
    } else if first == "crash".as_bytes() {
        Form::Crash
    } else if first == "lose".as_bytes() {
        message_form(text, 1).unwrap_or(Form::Lose)
    } else {
        message_form(text, 0).unwrap_or(Form::Unknown)
    }
}
