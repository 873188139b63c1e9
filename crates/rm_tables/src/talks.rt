//! What is said between the manager and the masters of attempts.
ghost use Rattle.std.specs.Prelude.{◌≡◌, not};
ghost use Rattle.rm_types.specs.Ids.{is_attempt};
ghost use Rattle.rm_tables.specs.Talks.{said_row, talked, told_row, with_answer, with_text, without_closings};

use crate::changes::{AttemptChange, RowChange};
use crate::rows::{AppRow, Dialogue};
use rm_types::{AttemptId, Boxed, ClosingOf, Reply, Text};

/// What is said between the manager and the master of an application's current attempt.
#[derive(Drop)]
pub enum Talk {
    /// It registered, and is answered so, when so many containers had ever entered the book.
    Register {
        reply: Boxed<Reply>,
        told: u64,
    },
    /// It finishes, and says this.
    Finish {
        text: Text,
    },
    /// It allocated, and is answered so under a response id, when so many containers had ever entered the book; with that it is told of
    /// the endings.
    Answer {
        attempt: AttemptId,
        id: u32,
        reply: Boxed<Reply>,
        told: u64,
    },
}

fn put_text(dialogue: &mut Option<Dialogue>, text: Text)
    ensures { dialogue.new ≡ with_text text dialogue.old }
{
    if let Some(one) = dialogue {
        one.finishing = Some(text);
    }
}

fn put_answer(dialogue: &mut Option<Dialogue>, id: u32, reply: Boxed<Reply>, told: u64)
    ensures { dialogue.new ≡ with_answer id reply told dialogue.old }
{
    if let Some(one) = dialogue {
        one.last_id = id;
        one.last_reply = reply;
        one.told = told;
    }
}

impl AppRow {
    /// Something is said. It takes no memory.
    pub fn talk(&mut self, talk: Talk)
        ensures { self.new ≡ talked talk self.old }
    {
        match talk {
            Talk::Register { reply, told } => {
                self.change(RowChange::Register);
                self.dialogue = Some(Dialogue {
                    last_id: 0,
                    last_reply: reply,
                    told,
                    finishing: None,
                });
            }
            Talk::Finish { text } => self.finish(text),
            Talk::Answer {
                attempt,
                id,
                reply,
                told,
            } => self.answer(attempt, id, reply, told),
        }
    }

    fn finish(&mut self, text: Text)
        ensures { self.new ≡ said_row (with_text text) self.old }
    {
        self.change(RowChange::OfAttempt {
            change: AttemptChange::Finish,
        });
        put_text(&mut self.dialogue, text);
    }

    fn answer(&mut self, attempt: AttemptId, id: u32, reply: Boxed<Reply>, told: u64)
        ensures { self.new ≡ told_row (with_answer id reply told) (without_closings attempt) self.old }
    {
        put_answer(&mut self.dialogue, id, reply, told);
        self.closings.retain(
            |one: &ClosingOf| -> bool
                ensures { result ≡ not (is_attempt one.now.attempt attempt) }
            { one.attempt != attempt },
        );
    }
}
