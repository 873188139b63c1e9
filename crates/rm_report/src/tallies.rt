ghost use Rattle.std.specs.Prelude.{◌≡◌, ◌++◌, ℕ, List, [], Option, OnOk};
ghost use Rattle.std.specs.List.{list_any};
ghost use Rattle.std.specs.Option.{option_map};
ghost use Rattle.std.specs.Str.{bytes_eq};
ghost use Rattle.rm_types.specs.declared.entries.Entry.{Entry as AnyEntry};
ghost use Rattle.rm_report.specs.Summaries.{is_same_name, tally, tally_step, times, told_with, reply_name, answer_in, denial_in, denied_by};

use crate::sheet::Sheet;
use rm_types::{Entry, Items, NoMemory, Reply, Text};
use std::alloc::Global;

/// How many names a tally tells at most, so that it stays on a screen.
pub(crate) const MOST_NAMES: usize = 40;

/// By which name an entry is counted, if by any.
pub(crate) trait Naming {
    ghost name: { AnyEntry → Option (List ℕ) };

    fn name(entry: &Entry) -> Option<&[u8]>
        ensures { option_map (λ bytes. bytes.now) result ≡ name entry.now };
}

/// An answered message by the word of its reply.
pub(crate) enum Answers {}

/// A denial by its queue.
pub(crate) enum Denials {}

impl Naming for Answers {
    ghost name = { answer_in };

    fn name(entry: &Entry) -> Option<&[u8]> {
        match entry {
            Entry::Served { reply, .. } => Some(reply_name(reply.get())),
            _ => None,
        }
    }
}

impl Naming for Denials {
    ghost name = { denial_in };

    fn name(entry: &Entry) -> Option<&[u8]> {
        match entry {
            Entry::Served { reply, .. } => denied_by(reply.get()),
            _ => None,
        }
    }
}

fn denied_by(reply: &Reply) -> Option<&[u8]>
    ensures { option_map (λ bytes. bytes.now) result ≡ denied_by reply.now }
{
    match reply {
        Reply::Denied(denial) => Some(denial.queue.bytes()),
        _ => None,
    }
}

/// The word with which a reply begins.
fn reply_name(reply: &Reply) -> &'static [u8]
    ensures { result.now ≡ reply_name reply.now }
{
    match reply {
        Reply::NotOpen => b"NOTOPEN",
        Reply::New(_) => b"new",
        Reply::Submitted => b"submitted",
        Reply::BadId => b"BADID",
        Reply::Retired => b"RETIRED",
        Reply::NoQueue => b"NOQUEUE",
        Reply::Denied(_) => b"DENIED",
        Reply::TooLarge => b"TOOLARGE",
        Reply::Full => b"FULL",
        Reply::Unknown => b"UNKNOWN",
        Reply::Report(_) => b"report",
        Reply::Killing => b"killing",
        Reply::AppEnded => b"ended",
        Reply::MasterRegistered | Reply::Took { .. } | Reply::NodeRegistered { .. } => {
            b"registered"
        }
        Reply::Already => b"ALREADY",
        Reply::Gone => b"GONE",
        Reply::Resync => b"RESYNC",
        Reply::WrongId => b"WRONGID",
        Reply::NotRegistered => b"NOTREGISTERED",
        Reply::Finishing => b"finishing",
        Reply::Finished => b"finished",
        Reply::Allocated { .. } => b"allocated",
        Reply::Beat { .. } => b"beat",
        Reply::Ok => b"ok",
    }
}

/// Writes each name of the entries, in the order in which they come first, with how often it comes.
pub(crate) fn put_tally<N: Naming>(
    alloc: Global,
    sheet: &mut Sheet,
    entries: &[Entry],
) -> Result<(), NoMemory>
    ensures { OnOk result (sheet.new ≡ sheet.old ++ tally N.name [] entries.now) }
{
    let mut before = Items::new(alloc);
    let mut rest = entries;
    'entries: while let [entry, more @ ..] = rest {
        put_entry::<N>(alloc, sheet, &mut before, entry, rest)?;
        rest = more;
    }
    Ok(())
}

/// Writes the name of an entry as `put_name` does, where it has one.
#[tactic(auto, unfolding(crate::specs::Summaries::tally_step, crate::specs::Summaries::told_with))]
fn put_entry<N: Naming>(
    alloc: Global,
    sheet: &mut Sheet,
    before: &mut Items<Text>,
    entry: &Entry,
    entries: &[Entry],
) -> Result<(), NoMemory>
    ensures written { OnOk result (sheet.new ≡ sheet.old ++ tally_step before.old (N.name entry.now) (times N.name (N.name entry.now) entries.now)) }
    ensures told { OnOk result (before.new ≡ told_with before.old (N.name entry.now)) }
{
    if let Some(name) = N::name(entry) {
        put_name::<N>(alloc, sheet, before, name, entries)?;
    }
    Ok(())
}

/// Writes a name with how often it comes in the entries, where it is none of those before and these aren't too many, and adds it to
/// them.
#[tactic(auto, unfolding(crate::specs::Summaries::tally_step, crate::specs::Summaries::told_with))]
fn put_name<N: Naming>(
    alloc: Global,
    sheet: &mut Sheet,
    before: &mut Items<Text>,
    name: &[u8],
    entries: &[Entry],
) -> Result<(), NoMemory>
    ensures written { OnOk result (sheet.new ≡ sheet.old ++ tally_step before.old (Some name.now) (times N.name (Some name.now) entries.now)) }
    ensures told { OnOk result (before.new ≡ told_with before.old (Some name.now)) }
{
    if contains(before.as_slice(), name) || before.len() >= MOST_NAMES {
        return Ok(());
    }
    sheet.number(b" ", count_of::<N>(name, entries))?;
    sheet.text(b" ")?;
    sheet.text(name)?;
    before.push(Text::from_bytes(alloc, name)?)
}

/// Whether the name is one of these.
fn contains(names: &[Text], name: &[u8]) -> bool
    ensures { result ≡ list_any (λ other. bytes_eq other name.now) names.now }
{
    names.iter().any(|other| other.bytes() == name)
}

/// How often the name comes in the entries.
#[tactic(auto, unfolding(crate::specs::Summaries::times))]
fn count_of<N: Naming>(name: &[u8], entries: &[Entry]) -> usize
    ensures { result ≡ times N.name (Some name.now) entries.now }
{
    let mut count = 0;
    'entries: for entry in entries {
        if is_named::<N>(name, entry) {
            count += 1;
        }
    }
    count
}

/// Whether the entry has that name.
fn is_named<N: Naming>(name: &[u8], entry: &Entry) -> bool
    ensures { result ≡ is_same_name (Some name.now) (N.name entry.now) }
{
    match N::name(entry) {
        Some(other) => name == other,
        None => false,
    }
}
