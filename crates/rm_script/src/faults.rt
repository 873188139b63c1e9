use crate::limits::{MOST_BYTES, MOST_LINE_BYTES};
use rm_lines::LineFault;
use rm_types::MOST_LINES;
use std::fmt;
use thiserror::Error;

/// A limit of a script that a line breaks.
#[derive(Clone, Copy, Debug, PartialEq, Eq)]
pub enum Limit {
    /// The line is one of too many.
    Lines,
    /// With it the script has too many bytes.
    Bytes,
    /// It is too long: it has this many bytes.
    LineBytes { length: usize },
    /// This byte isn't printable. Columns are counted from 1.
    Printable { column: usize, byte: u8 },
}

impl fmt::Display for Limit {
    fn fmt<W: fmt::Write>(&self, f: &mut fmt::Formatter<W>) -> fmt::Result {
        match self {
            Limit::Lines => write!(f, "a script has at most {MOST_LINES} lines"),
            Limit::Bytes => write!(f, "a script has at most {MOST_BYTES} bytes"),
            Limit::LineBytes { length } => write!(
                f,
                "a line has at most {MOST_LINE_BYTES} bytes, found {length}"
            ),
            Limit::Printable {
                column,
                byte: b'\r',
            } => write!(
                f,
                "a carriage return at column {column}: a line ends with a line feed alone"
            ),
            Limit::Printable { column, byte } => write!(
                f,
                "the byte 0x{byte:02x} at column {column}: a line has printable bytes alone, 0x20 to 0x7e"
            ),
        }
    }
}

/// Why a script is refused at a line.
#[derive(Clone, Copy, Debug, Error)]
pub enum ScriptFault {
    /// The line breaks a limit.
    #[error("{0}")]
    Limit(Limit),
    /// It is no line by itself. The form is that of the lines that begin as it does.
    #[error("{}", faulty_line(.form, .fault))]
    Line { form: Form, fault: LineFault },
    /// It starts a life where one goes on.
    #[error("a life begins with `start STAMP`, first or after a `crash`, and here one goes on")]
    LifeGoesOn,
    /// It needs a life, and none goes on.
    #[error("{}: it stands inside a life, and here none goes on: a life begins with `start STAMP`", .form.words())]
    NoLife { form: Form },
    /// It is the line after the last, and messages before it are closed by nothing.
    #[error("the messages at the end are closed by no `settle` or `crash`")]
    Unclosed,
    /// The bytes don't tell it, or there was no memory to find it out.
    #[error("{form}")]
    Untold { form: Form },
}

/// A line with a fault, as it is told: where its words are those of no line, the form says all.
#[derive(Clone, Copy)]
struct FaultyLine {
    form: Form,
    fault: LineFault,
}

fn faulty_line(form: &Form, fault: &LineFault) -> FaultyLine {
    FaultyLine {
        form: *form,
        fault: *fault,
    }
}

impl fmt::Display for FaultyLine {
    fn fmt<W: fmt::Write>(&self, f: &mut fmt::Formatter<W>) -> fmt::Result {
        match self.fault {
            LineFault::Form => write!(f, "{}", self.form),
            fault => write!(f, "{}: {fault}", self.form.words()),
        }
    }
}

/// The form of the lines that begin as a line does.
#[derive(Clone, Copy, Debug, PartialEq, Eq)]
pub enum Form {
    Start,
    Settle,
    Crash,
    New,
    Submit,
    Report,
    Kill,
    /// A client's message of no kind.
    Client,
    MasterRegister,
    Allocate,
    Finish,
    /// A master's message of no kind.
    Master,
    NodeRegister,
    Beat,
    /// A node's message of no kind.
    Node,
    Tick,
    ExpireNode,
    ExpireMaster,
    /// A message of the clock of no kind.
    Clock,
    /// What is lost is no message.
    Lose,
    /// No line begins so.
    Unknown,
}

impl Form {
    /// The words of the lines of this form.
    fn words(self) -> &'static str {
        match self {
            Form::Start => "start STAMP",
            Form::Settle => "settle",
            Form::Crash => "crash CALLS IMAGE",
            Form::New => "client USER new",
            Form::Submit =>
                "client USER submit APP queue=QUEUE name=NAME memory=MB vcores=CORES attempts=N[ keep=yes][ modify=ACL]",
            Form::Report => "client USER report APP",
            Form::Kill => "client USER kill APP",
            Form::Client => "client USER ..",
            Form::MasterRegister => "master ATTEMPT register",
            Form::Allocate =>
                "master ATTEMPT allocate ID[ ask=PRIORITY:COUNT:MB:CORES,..][ release=CONTAINER,..]",
            Form::Finish => "master ATTEMPT finish NOTE",
            Form::Master => "master ATTEMPT ..",
            Form::NodeRegister =>
                "node NODE register TURN memory=MB vcores=CORES[ running=CONTAINER:MB:CORES,..]",
            Form::Beat => "node NODE beat ID[ running=CONTAINER:MB:CORES,..][ done=CONTAINER,..]",
            Form::Node => "node NODE ..",
            Form::Tick => "clock tick MS",
            Form::ExpireNode => "clock expire node NODE",
            Form::ExpireMaster => "clock expire master ATTEMPT",
            Form::Clock => "clock ..",
            Form::Lose => "lose MESSAGE",
            Form::Unknown => "a line",
        }
    }
}

impl fmt::Display for Form {
    fn fmt<W: fmt::Write>(&self, f: &mut fmt::Formatter<W>) -> fmt::Result {
        match self {
            Form::Client => write!(
                f,
                "a client's message is `client USER new`, `{}`, `client USER report APP` or `client USER kill APP`",
                Form::Submit.words()
            ),
            Form::Master => write!(
                f,
                "a master's message is `master ATTEMPT register`, `{}` or `master ATTEMPT finish NOTE`",
                Form::Allocate.words()
            ),
            Form::Node => write!(
                f,
                "a node's message is `{}` or `{}`",
                Form::NodeRegister.words(),
                Form::Beat.words()
            ),
            Form::Clock => write!(
                f,
                "the clock's message is `clock tick MS`, `clock expire node NODE` or `clock expire master ATTEMPT`"
            ),
            Form::Lose => write!(
                f,
                "a message that is lost is `lose` and the line of a client, a master, a node or the clock"
            ),
            Form::Unknown => write!(
                f,
                "a line begins with `start`, `client`, `master`, `node`, `clock`, `lose`, `settle`, `crash` or `#`"
            ),
            form => write!(
                f,
                "the line is `{}`, with one space between words",
                form.words()
            ),
        }
    }
}
