use crate::limits::{
    GREATEST_LENGTH, LONGEST_WAIT_MS, MOST_APPS, MOST_COMPLETED, MOST_DOTS, MOST_QUEUES,
};
use rm_types::{GREATEST_ATTEMPTS, GREATEST_MEMORY_MB, GREATEST_VCORES};
use serde_json::Value;
use std::fmt;
use std::fmt::InlineText;
use thiserror::Error;

/// How many bytes of what is at fault are told at most.
const MOST_TOLD: usize = 48;

/// Bytes of a file, of which those that aren't printable are escaped.
#[derive(Drop)]
struct Escaped<'a>(&'a [u8]);

impl fmt::Display for Escaped<'_> {
    fn fmt<W: fmt::Write>(&self, f: &mut fmt::Formatter<W>) -> fmt::Result {
        'bytes: for byte in self.0 {
            match *byte {
                0x20..=0x7e => write!(f, "{}", char::from(*byte))?,
                other => write!(f, "\\x{other:02x}")?,
            }
        }
        Ok(())
    }
}

/// What stands in a file, in printable bytes: others are escaped, and it is cut where it is long.
#[derive(Clone, Copy)]
pub struct Excerpt {
    text: InlineText<MOST_TOLD>,
}

impl Excerpt {
    pub(crate) fn of(bytes: &[u8]) -> Excerpt {
        Excerpt {
            text: InlineText::of(Escaped(bytes)),
        }
    }

    /// The JSON text of a value.
    pub(crate) fn of_value(value: &Value) -> Excerpt {
        let text: InlineText<MOST_TOLD> = InlineText::of(value);
        Excerpt::of(text.as_str().as_bytes())
    }
}

impl fmt::Display for Excerpt {
    fn fmt<W: fmt::Write>(&self, f: &mut fmt::Formatter<W>) -> fmt::Result {
        write!(f, "{}", self.text.as_str())
    }
}

impl fmt::Debug for Excerpt {
    fn fmt<W: fmt::Write>(&self, f: &mut fmt::Formatter<W>) -> fmt::Result {
        write!(f, "{self}")
    }
}

/// A key of the file whose value is no list and no object.
#[derive(Clone, Copy, Debug, PartialEq, Eq)]
pub enum Key {
    MaxAttempts,
    MaxCompleted,
    MaxApps,
    WaitMs,
    AclEnable,
    AdminAcl,
    MaxMemory,
    MaxVcores,
    RecoverEndedContainers,
}

impl fmt::Display for Key {
    fn fmt<W: fmt::Write>(&self, f: &mut fmt::Formatter<W>) -> fmt::Result {
        match self {
            Key::MaxAttempts => write!(
                f,
                "max_attempts: a whole number from 1 to {GREATEST_ATTEMPTS}"
            ),
            Key::MaxCompleted => write!(
                f,
                "max_completed: a whole number from 0 to {MOST_COMPLETED}"
            ),
            Key::MaxApps => write!(f, "max_apps: a whole number from 1 to {MOST_APPS}"),
            Key::WaitMs => write!(f, "wait_ms: a whole number from 0 to {LONGEST_WAIT_MS}"),
            Key::AclEnable => write!(f, "acl_enable: true or false"),
            Key::AdminAcl => write!(f, "admin_acl: a string of at most 512 printable bytes"),
            Key::MaxMemory => write!(
                f,
                "max_memory_mb: a whole number from 1 to {GREATEST_MEMORY_MB}"
            ),
            Key::MaxVcores => write!(f, "max_vcores: a whole number from 1 to {GREATEST_VCORES}"),
            Key::RecoverEndedContainers => write!(f, "recover_ended_containers: true or false"),
        }
    }
}

/// What is wrong with the groups of a file.
#[derive(Clone, Copy, Debug, Error)]
pub enum GroupsFault {
    /// They are no object.
    #[error("an object of names, each with a list of names, found {found}")]
    NoObject { found: Excerpt },
    /// The user is no name.
    #[error("a user of 1 to 64 letters, digits, `_`, `.` and `-`, found `{user}`")]
    User { user: Excerpt },
    /// The user has no list.
    #[error("a list of names for the user `{user}`, found {found}")]
    NoList { user: Excerpt, found: Excerpt },
    /// A group of the user is no name.
    #[error("groups of 1 to 64 letters, digits, `_`, `.` and `-` for the user `{user}`, found {found}")]
    Group { user: Excerpt, found: Excerpt },
}

/// A list of a queue.
#[derive(Clone, Copy, Debug, PartialEq, Eq)]
pub enum QueueList {
    Submit,
    Admin,
}

impl QueueList {
    /// Its key.
    pub(crate) fn key(self) -> &'static str {
        match self {
            QueueList::Submit => "submit",
            QueueList::Admin => "admin",
        }
    }
}

/// What is wrong with the queues of a file. A place in their list is counted from 1.
#[derive(Clone, Copy, Debug, Error)]
pub enum QueuesFault {
    /// They are no list.
    #[error("a list of objects with a `name` and maybe `submit` and `admin`, found {found}")]
    NoList {
        found: Excerpt,
    },
    /// There is none.
    #[error("1 to {} queues, found none", MOST_QUEUES)]
    None,
    /// There are too many.
    #[error("1 to {} queues, found {count}", MOST_QUEUES)]
    TooMany {
        count: usize,
    },
    /// The queue at the place is no object.
    #[error("an object as queue {place} of the list, found {found}")]
    NoObject {
        place: usize,
        found: Excerpt,
    },
    /// It has a key of no queue.
    #[error("no key but `name`, `submit` and `admin` in queue {place} of the list, found `{key}`")]
    UnknownKey {
        place: usize,
        key: Excerpt,
    },
    /// It has no name.
    #[error("a `name` in queue {place} of the list, found none")]
    NoName {
        place: usize,
    },
    /// Its name is no queue's.
    #[error("1 to 128 lower-case letters, digits, `_`, `-` and `.` as the `name` of queue {place} of the list, found {found}")]
    Name {
        place: usize,
        found: Excerpt,
    },
    /// A list of the queue of this name is no access list.
    #[error("a string of at most 512 printable bytes as `{}` of the queue `{name}`, found {found}", .list.key())]
    List {
        name: Excerpt,
        list: QueueList,
        found: Excerpt,
    },
    /// The first queue isn't the root.
    #[error("`root` as the first queue, found `{name}`")]
    NoRoot {
        name: Excerpt,
    },
    /// The queue's parent doesn't stand before it.
    #[error("the parent of the queue `{name}` before it, and one part more in its name")]
    NoParent {
        name: Excerpt,
    },
    /// The queue stands twice.
    #[error("the queue `{name}` once")]
    Twice {
        name: Excerpt,
    },
    /// The queue's name has too many parts.
    #[error("at most {} parts in the name of the queue `{name}`", MOST_DOTS + 1)]
    Deep {
        name: Excerpt,
    },
}

/// Why a cluster file is refused.
#[derive(Clone, Copy, Debug, Error)]
pub enum ClusterFault {
    /// It has too many bytes.
    #[error("expected the file: at most {} bytes, found more", GREATEST_LENGTH)]
    TooLong,
    /// It is no JSON value.
    #[error("expected the file: one JSON value, found {0}")]
    Json(serde_json::Error),
    /// The value is no object.
    #[error("expected the file: an object, found {found}")]
    NoObject { found: Excerpt },
    /// A key is none of the file's.
    #[error("expected {}, found `{key}`", rule_at(&2))]
    UnknownKey { key: Excerpt },
    /// The value at a key is another than it may be.
    #[error("expected {key}, found {found}")]
    Key { key: Key, found: Excerpt },
    #[error("expected groups: {0}")]
    Groups(GroupsFault),
    #[error("expected queues: {0}")]
    Queues(QueuesFault),
    /// The bytes don't tell it, or there was no memory to find it out: the rule at the place is broken.
    #[error("expected {}", rule_at(.place))]
    Untold { place: u32 },
}

/// The rule at a place, as a text that says what may stand there.
#[derive(Clone, Copy)]
struct Rule {
    place: u32,
}

fn rule_at(place: &u32) -> Rule {
    Rule { place: *place }
}

impl fmt::Display for Rule {
    fn fmt<W: fmt::Write>(&self, f: &mut fmt::Formatter<W>) -> fmt::Result {
        match self.place {
            1 => write!(
                f,
                "the file: at most {GREATEST_LENGTH} bytes, which are one JSON value"
            ),
            2 => write!(
                f,
                "the file: an object, with no key but `max_attempts`, `max_completed`, `max_apps`, `wait_ms`, `acl_enable`, `admin_acl`, `max_memory_mb`, `max_vcores`, `groups`, `queues` and `recover_ended_containers`"
            ),
            3 => write!(f, "{}", Key::MaxAttempts),
            4 => write!(f, "{}", Key::MaxCompleted),
            5 => write!(f, "{}", Key::MaxApps),
            6 => write!(f, "{}", Key::WaitMs),
            7 => write!(f, "{}", Key::AclEnable),
            8 => write!(f, "{}", Key::AdminAcl),
            9 => write!(f, "{}", Key::MaxMemory),
            10 => write!(f, "{}", Key::MaxVcores),
            11 => write!(f, "groups: an object of names, each with a list of names"),
            12 => write!(
                f,
                "queues: a list of objects with a `name` and maybe `submit` and `admin`; the first is `root`, and each other one is a part below one before it"
            ),
            13 => write!(f, "{}", Key::RecoverEndedContainers),
            _ => write!(f, "what docs/FORMATS.md says of that place"),
        }
    }
}
