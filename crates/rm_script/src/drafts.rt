ghost use Rattle.std.specs.Prelude.{◌≡◌, Some};
ghost use Rattle.rm_lines.specs.Results.{Finds, Gives};
ghost use Rattle.rm_script.specs.Reading.{settled, with_start, with_settle, crashed, with_crash, with_message, with_loss, with_line, script_of_draft, Takes};

use crate::lines::{Line, line_of};
use rm_lines::{LineError, LineFault};
use rm_types::{Close, Items, Life, Message, Script, Segment};
use std::alloc::Global;

/// A life that goes on.
#[derive(Drop)]
pub struct Living {
    pub stamp: u64,
    /// The segments that have settled.
    pub segments: Items<Segment>,
    /// The messages that are delivered since.
    pub messages: Items<Message>,
    /// Whether a message was sent since, delivered or lost.
    pub is_sending: bool,
}

impl Living {
    /// The life when its segment settles.
    fn settle(self, alloc: Global) -> Result<Living, LineError>
        ensures { Gives result (Some (settled self)) }
    {
        let mut segments = self.segments;
        segments.push(Segment {
            messages: self.messages,
            close: Close::Settle,
        })?;
        Ok(Living {
            stamp: self.stamp,
            segments,
            messages: Items::new(alloc),
            is_sending: false,
        })
    }

    /// The life when it crashes.
    fn crash(self, calls: u32, image: u32) -> Result<Life, LineError>
        ensures { Gives result (Some (crashed self calls image)) }
    {
        let mut segments = self.segments;
        segments.push(Segment {
            messages: self.messages,
            close: Close::Crash { calls, image },
        })?;
        Ok(Life {
            stamp: self.stamp,
            segments,
        })
    }
}

/// A script as far as its lines were read.
#[derive(Drop)]
pub enum Draft {
    /// No life goes on: those so far have crashed.
    Between(Items<Life>),
    /// A life goes on after those that have crashed.
    Living(Items<Life>, Living),
}

impl Draft {
    /// The draft with the line of this text more. `Refused` comes where the text is no line, or the line
    /// may not stand there.
    pub(crate) fn with_text(self, alloc: Global, text: &[u8]) -> Result<Draft, LineError>
        ensures { Finds result (Takes self text.now) }
    {
        let line = line_of(alloc, text)?;
        self.with_line(alloc, line)
    }

    /// The draft with one line more. `Refused` comes where the line may not stand there.
    fn with_line(self, alloc: Global, line: Line) -> Result<Draft, LineError>
        ensures { Gives result (with_line self line) }
    {
        match line {
            Line::Skipped => Ok(self),
            Line::Start(stamp) => self.with_start(alloc, stamp),
            Line::Settle => self.with_settle(alloc),
            Line::Crash { calls, image } => self.with_crash(calls, image),
            Line::Deliver(message) => self.with_message(message),
            Line::Lose(_) => self.with_loss(),
        }
    }

    /// The draft in which a life starts. `Refused` comes where one goes on.
    fn with_start(self, alloc: Global, stamp: u64) -> Result<Draft, LineError>
        ensures { Gives result (with_start self stamp) }
    {
        match self {
            Draft::Between(lives) => {
                let living = Living {
                    stamp,
                    segments: Items::new(alloc),
                    messages: Items::new(alloc),
                    is_sending: false,
                };
                Ok(Draft::Living(lives, living))
            }
            Draft::Living(..) => Err(LineError::Refused(LineFault::Place)),
        }
    }

    /// The draft whose segment settles. `Refused` comes where no life goes on.
    fn with_settle(self, alloc: Global) -> Result<Draft, LineError>
        ensures { Gives result (with_settle self) }
    {
        match self {
            Draft::Between(_) => Err(LineError::Refused(LineFault::Place)),
            Draft::Living(lives, living) => Ok(Draft::Living(lives, living.settle(alloc)?)),
        }
    }

    /// The draft whose life crashes. `Refused` comes where no life goes on.
    fn with_crash(self, calls: u32, image: u32) -> Result<Draft, LineError>
        ensures { Gives result (with_crash self calls image) }
    {
        match self {
            Draft::Between(_) => Err(LineError::Refused(LineFault::Place)),
            Draft::Living(mut lives, living) => {
                lives.push(living.crash(calls, image)?)?;
                Ok(Draft::Between(lives))
            }
        }
    }

    /// The draft with a message that is delivered. `Refused` comes where no life goes on.
    fn with_message(self, message: Message) -> Result<Draft, LineError>
        ensures { Gives result (with_message self message) }
    {
        match self {
            Draft::Between(_) => Err(LineError::Refused(LineFault::Place)),
            Draft::Living(lives, mut living) => {
                living.messages.push(message)?;
                living.is_sending = true;
                Ok(Draft::Living(lives, living))
            }
        }
    }

    /// The draft with a message that is lost. `Refused` comes where no life goes on.
    fn with_loss(self) -> Result<Draft, LineError>
        ensures { Gives result (with_loss self) }
    {
        match self {
            Draft::Between(_) => Err(LineError::Refused(LineFault::Place)),
            Draft::Living(lives, mut living) => {
                living.is_sending = true;
                Ok(Draft::Living(lives, living))
            }
        }
    }

    /// The script that the draft is. `Refused` comes where a message was sent that no line has settled.
    pub(crate) fn into_script(self) -> Result<Script, LineError>
        ensures { Gives result (script_of_draft self) }
    {
        match self {
            Draft::Between(lives) => Ok(Script { lives }),
            Draft::Living(mut lives, living) => {
                if living.is_sending {
                    return Err(LineError::Refused(LineFault::Place));
                }
                lives.push(Life {
                    stamp: living.stamp,
                    segments: living.segments,
                })?;
                Ok(Script { lives })
            }
        }
    }
}
