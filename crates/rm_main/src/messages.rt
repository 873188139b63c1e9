//! What is told on standard error of a call that wasn't Done.
use crate::statuses::STATUS_MEANINGS;
use rm_disk::FileCause;
use rm_lives::Stop;
use rm_types::Outcome;
use rm_words::{MODES, ModeRow, STORE_FILE};
use std::fmt::{Display, Formatter};
use std::{fmt, io};

/// The kit that these sources are proved with, as `rt version` tells it.
const KIT: &str = "rattle-kit-13f logic dac8208d650f15bf";

/// The version of the formats that docs/FORMATS.md tells.
const FORMATS: u32 = 1;

/// The column, behind the gap before a mode's word, in which the page of modes says what the mode does.
const PURPOSE_COLUMN: usize = 33;

/// Why something outside failed, as far as that is known; written behind a sentence about it.
#[derive(Clone, Copy)]
pub enum Cause<'a> {
    Unknown,
    System(&'a io::Error),
    Device(FileCause<'a>),
}

impl Display for Cause<'_> {
    fn fmt<W: fmt::Write>(&self, f: &mut Formatter<W>) -> fmt::Result {
        match self {
            Cause::Unknown => Ok(()),
            Cause::System(error) => write!(f, ": {error}"),
            Cause::Device(fault) => write!(f, ": {fault}"),
        }
    }
}

/// The names that a message may speak of. Whatever bytes they have, they are written escaped.
#[derive(Clone, Copy)]
pub struct Names<'a> {
    /// The program's path, as it was called.
    pub program: &'a str,
    /// The files, empty where the words don't name them.
    pub cluster: &'a str,
    pub script: &'a str,
    pub schedule: &'a str,
    /// The file that could not be read.
    pub unread: &'a str,
    /// The device that holds the store.
    pub device: &'a str,
}

/// What is told of a call that came to this outcome: one line, and behind that for Usage a page of all that may be asked for.
/// Of an outcome that is Done it is empty.
#[derive(Clone, Copy)]
pub struct Message<'a, H> {
    pub outcome: Outcome,
    pub names: Names<'a>,
    /// What is wrong with the words, or with the file that was refused.
    pub hint: H,
    /// Why the file, the output or the device failed.
    pub cause: Cause<'a>,
}

impl<H: Display> Display for Message<'_, H> {
    fn fmt<W: fmt::Write>(&self, f: &mut Formatter<W>) -> fmt::Result {
        let names = self.names;
        if !matches!(self.outcome, Outcome::Done) {
            write!(f, "{}: ", names.program.escape_default())?;
        }
        match self.outcome {
            Outcome::Done => Ok(()),
            Outcome::Usage => {
                let page = UsagePage {
                    program: names.program,
                };
                write!(f, "{}\n{page}", self.hint)
            }
            Outcome::ClusterRefused { place } => {
                let name = names.cluster.escape_default();
                write!(
                    f,
                    "the cluster file {name} is refused at place {place}: {}",
                    self.hint
                )
            }
            Outcome::ScriptRefused { line } => {
                let name = names.script.escape_default();
                write!(
                    f,
                    "the script {name} is refused at line {line}: {}",
                    self.hint
                )
            }
            Outcome::ScheduleRefused { place } => {
                let name = names.schedule.escape_default();
                write!(
                    f,
                    "the schedule {name} is refused at byte {place}: {}",
                    self.hint
                )
            }
            Outcome::ReadFault => {
                let name = names.unread.escape_default();
                write!(f, "the file {name} could not be read{}", self.cause)
            }
            other => write_stop(f, other, names.device, self.cause),
        }
    }
}

/// Why the run of a call stopped, where the store's device, the store or memory stopped it.
fn stop_of(outcome: Outcome) -> Option<Stop> {
    match outcome {
        Outcome::DiskFault => Some(Stop::DiskFault),
        Outcome::StoreDamaged { offset } => Some(Stop::Damaged { offset }),
        Outcome::StoreFull { needed, room } => Some(Stop::Full { needed, room }),
        Outcome::EpochsSpent => Some(Stop::EpochsSpent),
        Outcome::Memory => Some(Stop::Memory),
        _ => None,
    }
}

/// The same where the output or the run stopped the call. A fault of the device or the store names the device; at its first byte, where
/// a store of the form before is at fault, also what makes one of today's of such a store.
fn write_stop<W: fmt::Write>(
    f: &mut Formatter<W>,
    outcome: Outcome,
    device: &str,
    cause: Cause<'_>,
) -> fmt::Result {
    if let Outcome::WriteFault { took_nothing } = outcome {
        return if took_nothing {
            f.write_str("the output takes nothing of the page")
        } else {
            write!(f, "the page could not be written{cause}")
        };
    }
    match stop_of(outcome) {
        Some(stop @ Stop::DiskFault) => write!(f, "{device}: {stop}{cause}"),
        Some(stop @ Stop::Damaged { offset: 0 }) => write!(
            f,
            "{device}: {stop}; if it is a store of one journal, yewendro_tool convert makes one of two areas of it"
        ),
        Some(stop @ (Stop::Damaged { .. } | Stop::Full { .. })) => write!(f, "{device}: {stop}"),
        Some(stop) => write!(f, "{stop}"),
        None => Ok(()),
    }
}

/// All that the words may ask for, and what the statuses say.
#[derive(Clone, Copy)]
struct UsagePage<'a> {
    program: &'a str,
}

impl Display for UsagePage<'_> {
    fn fmt<W: fmt::Write>(&self, f: &mut Formatter<W>) -> fmt::Result {
        let program = self.program.escape_default();
        write!(f, "modes of {program}:")?;
        for name in MODES {
            write_row(f, name.row())?;
        }
        write!(
            f,
            "
flags, anywhere among the words:
  --file    the store is in the file {file} of this folder, which is made where there is none;
            without it the store is in memory, and new
  --moves   for ",
            file = STORE_FILE
        )?;
        write_moving(f)?;
        f.write_str(": a last line of the page tells the moves\nstatuses:")?;
        write_statuses(f)?;
        write!(
            f,
            "\nmanual: README.md and docs/FORMATS.md; formats: {FORMATS}; proved with {KIT}"
        )
    }
}

/// A row of the table of modes, as a line: its words, and what it does.
fn write_row<W: fmt::Write>(f: &mut Formatter<W>, row: ModeRow) -> fmt::Result {
    write!(f, "\n  {}", row.word)?;
    let mut width = row.word.len();
    for operand in row.operands {
        let sign = operand.sign();
        write!(f, " {sign}")?;
        width = width.saturating_add(1).saturating_add(sign.len());
    }
    for _ in width..PURPOSE_COLUMN {
        f.write_str(" ")?;
    }
    f.write_str(row.purpose)
}

/// The words of the modes whose pages may show moves.
fn write_moving<W: fmt::Write>(f: &mut Formatter<W>) -> fmt::Result {
    let many = MODES.iter().filter(|name| name.row().has_moves).count();
    let mut place = 0usize;
    for name in MODES {
        let row = name.row();
        if row.has_moves {
            place = place.saturating_add(1);
            let gap = match place {
                1 => "",
                last if last == many => " and ",
                _ => ", ",
            };
            write!(f, "{gap}{}", row.word)?;
        }
    }
    Ok(())
}

/// What the statuses say, in lines.
fn write_statuses<W: fmt::Write>(f: &mut Formatter<W>) -> fmt::Result {
    for (status, meaning) in STATUS_MEANINGS.iter().enumerate() {
        let gap = match status {
            0 | 5 | 9 => "\n  ",
            _ => "   ",
        };
        write!(f, "{gap}{status} {meaning}")?;
    }
    Ok(())
}

/// Writes what is to be told of a call to standard error, nothing where it is Done. Where that can't be written the exit
/// status alone tells it.
pub fn explain<R: Eprint, H: Display>(rt: &R, message: &Message<'_, H>) {
    if !matches!(message.outcome, Outcome::Done) {
        let _ = eprintln!(rt; "{message}");
    }
}
