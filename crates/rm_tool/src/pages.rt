ghost use Rattle.std.specs.Prelude.{◌≡◌};
ghost use Rattle.rm_tool.specs.Gates.{gates_walked};

use crate::reports::{JobState, jobs_in};
use crate::salvage::{Checked, Fault, Form, Stop};
use rm_page::store_page;
use rm_types::{Items, NoMemory, Op};
use sha2::{Digest, Sha256};
use std::alloc::Global;
use std::fmt;
use std::fmt::{Display, Formatter, Write};

/// How many bytes the records of a job take, from its submission to its end with one attempt: of the shipped example's, and with the
/// longest texts.
const SHIPPED_JOB: u64 = 151;

const LONGEST_JOB: u64 = 1465;

/// A form, as pages have it.
#[derive(Clone, Copy)]
struct FormText {
    form: Form,
}

impl Display for FormText {
    fn fmt<W: Write>(&self, f: &mut Formatter<W>) -> fmt::Result {
        match self.form {
            Form::OneJournal => f.write_str("form one-journal"),
            Form::TwoAreas { second, generation } => {
                let area = if second { "second" } else { "first" };
                write!(f, "form two-areas area={area} generation={generation}")
            }
            Form::NoArea => f.write_str("form two-areas area=none generation=0"),
        }
    }
}

/// A digest, in hexadecimal digits.
#[derive(Clone, Copy)]
struct Hex {
    digest: [u8; 32],
}

impl Display for Hex {
    fn fmt<W: Write>(&self, f: &mut Formatter<W>) -> fmt::Result {
        'bytes: for byte in self.digest {
            write!(f, "{byte:02x}")?;
        }
        Ok(())
    }
}

/// What a check tells.
#[derive(Clone, Copy)]
struct CheckPage<'a> {
    checked: &'a Checked,
    digest: [u8; 32],
}

impl Display for CheckPage<'_> {
    fn fmt<W: Write>(&self, f: &mut Formatter<W>) -> fmt::Result {
        let checked = self.checked;
        let frames = checked.ops.len();
        writeln!(f, "{}", FormText { form: checked.form })?;
        let gates = gates_walked(checked.form, frames);
        writeln!(f, "walked gates={gates} frames={frames}")?;
        write_jobs(f, checked)?;
        write_room(f, checked)?;
        writeln!(
            f,
            "sha256 {}",
            Hex {
                digest: self.digest
            }
        )?;
        match checked.fault {
            None => writeln!(f, "whole"),
            Some(Fault::Damaged { offset }) => writeln!(f, "damaged at={offset}"),
            Some(Fault::Stray { number, offset }) => {
                writeln!(f, "stray operation={number} at={offset}")
            }
        }
    }
}

/// How many gates are walked over with so many frames: one before each record, and the one behind the last.
fn gates_walked(form: Form, frames: usize) -> u128
    ensures { result ≡ gates_walked form frames }
{
    match form {
        Form::OneJournal => frames as u128 + 1,
        Form::TwoAreas { .. } => frames as u128 + 2,
        Form::NoArea => 0,
    }
}

/// The jobs of a store by how far they have come.
fn write_jobs<W: Write>(f: &mut Formatter<W>, checked: &Checked) -> fmt::Result {
    let tree = &checked.tree;
    let all = tree.len();
    let submitted = jobs_in(tree, JobState::Submitted);
    let accepted = jobs_in(tree, JobState::Accepted);
    let finished = jobs_in(tree, JobState::Finished);
    let failed = jobs_in(tree, JobState::Failed);
    let killed = jobs_in(tree, JobState::Killed);
    writeln!(
        f,
        "jobs all={all} submitted={submitted} accepted={accepted} finished={finished} failed={failed} killed={killed}"
    )
}

/// How much of an area is used where what is left of the operations is written anew, and how many jobs still fit.
fn write_room<W: Write>(f: &mut Formatter<W>, checked: &Checked) -> fmt::Result {
    let free = checked.room;
    let used = checked.half.saturating_sub(free);
    let half = checked.half;
    let shipped = free.saturating_sub(1) / SHIPPED_JOB;
    let longest = free.saturating_sub(1) / LONGEST_JOB;
    writeln!(f, "used bytes={used} of={half} free={free}")?;
    writeln!(f, "fits shipped={shipped} longest={longest}")
}

/// The page of a check: the form, the gates and frames that were walked, the jobs, the room, the SHA-256 of the store's page, and whether the store
/// is whole.
pub fn check_page(alloc: Global, checked: &Checked) -> Result<Vec<u8>, NoMemory> {
    let kept = store_page(alloc, &checked.ops)?;
    let digest = Sha256::digest(kept.as_slice());
    let text = format!(in alloc; "{}", CheckPage { checked, digest })?;
    Ok(Vec::from_slice(alloc, text.as_bytes())?)
}

/// The page of a new store: how many operations it has.
pub fn convert_page(alloc: Global, ops: &Items<Op>) -> Result<Vec<u8>, NoMemory> {
    let count = ops.len();
    let text = format!(in alloc; "converted operations={count}\n")?;
    Ok(Vec::from_slice(alloc, text.as_bytes())?)
}

/// The page of a salvage: the form of what was read, how many operations were read and how many of them were written, and where and why no
/// more were read.
pub fn salvage_page(
    alloc: Global,
    form: Form,
    front: usize,
    written: usize,
    stop: Stop,
) -> Result<Vec<u8>, NoMemory> {
    let form = FormText { form };
    let text = format!(in alloc;
        "{form}\nsalvaged operations={front} written={written}\nstopped {stop}\n"
    )?;
    Ok(Vec::from_slice(alloc, text.as_bytes())?)
}
