use rm_types::{MOST_LISTED, TextKind};
use std::fmt;
use std::fmt::InlineText;
use thiserror::Error;

/// How many bytes of what is at fault are told at most.
const MOST_TOLD: usize = 48;

/// What stands in a file, in printable bytes: others are escaped, and it is cut where it is long.
#[derive(Clone, Copy)]
pub struct Excerpt {
    text: InlineText<MOST_TOLD>,
}

impl Excerpt {
    /// These bytes, as they are told.
    pub fn of(bytes: &[u8]) -> Excerpt {
        Excerpt {
            text: InlineText::of(bytes.escape_ascii()),
        }
    }
}

impl fmt::Display for Excerpt {
    fn fmt<W: fmt::Write>(&self, f: &mut fmt::Formatter<W>) -> fmt::Result {
        match self.text.as_str() {
            "" => write!(f, "nothing"),
            text => write!(f, "{text}"),
        }
    }
}

impl fmt::Debug for Excerpt {
    fn fmt<W: fmt::Write>(&self, f: &mut fmt::Formatter<W>) -> fmt::Result {
        write!(f, "{self}")
    }
}

/// A part of a line, by its word in the forms of lines.
#[derive(Clone, Copy, Debug, PartialEq, Eq)]
pub enum Part {
    Stamp,
    Calls,
    Image,
    User,
    Queue,
    Name,
    Memory,
    Cores,
    Attempts,
    Modify,
    App,
    Attempt,
    Container,
    Response,
    Priority,
    Count,
    Note,
    Node,
    Turn,
    Time,
    /// A part that has no such word.
    Other,
}

impl Part {
    fn word(self) -> &'static str {
        match self {
            Part::Stamp => "STAMP",
            Part::Calls => "CALLS",
            Part::Image => "IMAGE",
            Part::User => "USER",
            Part::Queue => "QUEUE",
            Part::Name => "NAME",
            Part::Memory => "MB",
            Part::Cores => "CORES",
            Part::Attempts => "N",
            Part::Modify => "ACL",
            Part::App => "APP",
            Part::Attempt => "ATTEMPT",
            Part::Container => "CONTAINER",
            Part::Response => "ID",
            Part::Priority => "PRIORITY",
            Part::Count => "COUNT",
            Part::Note => "NOTE",
            Part::Node => "NODE",
            Part::Turn => "TURN",
            Part::Time => "MS",
            Part::Other => "PART",
        }
    }
}

impl fmt::Display for Part {
    fn fmt<W: fmt::Write>(&self, f: &mut fmt::Formatter<W>) -> fmt::Result {
        write!(f, "{}", self.word())
    }
}

/// Why a line is refused, by itself or where it stands.
#[derive(Clone, Copy, Debug, Error)]
pub enum LineFault {
    /// It is too long, or has a byte that isn't printable.
    #[error("it is too long, or has a byte that isn't printable")]
    Limit,
    /// Its words are those of no line.
    #[error("its words are others")]
    Form,
    /// A part is no number from the least to the greatest.
    #[error("{part} is {least} to {greatest}, found {found}")]
    Number {
        part: Part,
        least: u64,
        greatest: u64,
        found: Excerpt,
    },
    /// A part is no text of the kind.
    #[error("{part} is {}, found {found}", kind_text(*.kind))]
    Text {
        part: Part,
        kind: TextKind,
        found: Excerpt,
    },
    /// A part is no id.
    #[error("{part} is {}, found {found}", id_text(*.part))]
    Id {
        part: Part,
        found: Excerpt,
    },
    /// A list has too many items: this many.
    #[error("a list has 1 to {} items, found {count}", MOST_LISTED)]
    Items {
        count: usize,
    },
    /// It may not stand where it does.
    #[error("it may not stand there")]
    Place,
}

/// The texts of a kind that a line may have: none of them is empty.
fn kind_text(kind: TextKind) -> &'static str {
    match kind {
        TextKind::Name => "1 to 64 letters, digits, `_`, `.` and `-`",
        TextKind::Node => "1 to 64 letters, digits, `_`, `.`, `-` and `:`",
        TextKind::Queue => "1 to 128 lower-case letters, digits, `_`, `-` and `.`",
        TextKind::Note => "1 to 256 printable bytes",
        TextKind::AclText => "1 to 512 printable bytes",
    }
}

/// The text of an id.
fn id_text(part: Part) -> &'static str {
    match part {
        Part::App => "an application's id, application_STAMP_NUMBER",
        Part::Attempt => "an attempt's id, appattempt_STAMP_NUMBER_ATTEMPT",
        _ =>
            "a container's id, container_STAMP_NUMBER_ATTEMPT_SEQUENCE or container_eEPOCH_STAMP_NUMBER_ATTEMPT_SEQUENCE",
    }
}
