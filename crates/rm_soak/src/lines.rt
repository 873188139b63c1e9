ghost use Rattle.std.specs.Prelude.{◌≡◌, ◌++◌, codes, decimal, count_by, sum_by, OnOk, IfOk};
ghost use Rattle.rm_soak.specs.Lines.{is_opened, is_served, finishes_app, keeps_op, keeps_finished, soak_line, soak_page};
ghost use Rattle.rm_types.specs.Entries.{granted_count};

use itoa::{Buffer, Integer};
use rm_types::{Entry, How, Items, NoMemory, Op};
use std::alloc::Global;

/// The line of a soak of so many applications with this log: how many lives were opened, messages served,
/// containers granted, applications kept as finished, and operations kept. An empty log has no line.
///
/// `NoMemory` comes where no memory was found for the line.
pub fn soak_page(alloc: Global, number: u32, log: &Items<Entry>) -> Result<Vec<u8>, NoMemory>
    ensures { IfOk result (λ bytes. bytes.items ≡ soak_page number log.now) }
{
    let mut bytes = Vec::new(alloc);
    if log.is_empty() {
        return Ok(bytes);
    }
    soak_line(number, log, &mut bytes)?;
    Ok(bytes)
}

/// Writes the line. Where it answers `NoMemory`, some beginning of it may have been written.
fn soak_line(number: u32, log: &Items<Entry>, bytes: &mut Vec<u8>) -> Result<(), NoMemory>
    ensures { OnOk result (bytes.new.items ≡ bytes.old.items ++ soak_line number log.now) }
{
    let entries = log.as_slice();
    number_field(b"soak ", number, bytes)?;
    number_field(b" lives=", lives_in(entries), bytes)?;
    number_field(b" served=", served_in(entries), bytes)?;
    number_field(b" grants=", grants_in(entries), bytes)?;
    number_field(b" finished=", finished_in(entries), bytes)?;
    number_field(b" kept=", kept_in(entries), bytes)?;
    bytes.extend_from_slice(b"\n")?;
    Ok(())
}

/// Writes a name and then a number.
fn number_field<N: Integer>(name: &[u8], number: N, bytes: &mut Vec<u8>) -> Result<(), NoMemory>
    ensures { OnOk result (bytes.new.items ≡ bytes.old.items ++ name.now ++ N.text number) }
{
    let mut buffer = Buffer::new();
    bytes.extend_from_slice(name)?;
    bytes.extend_from_slice(buffer.format(number).as_bytes())?;
    Ok(())
}

/// How many lives the entries begin.
fn lives_in(entries: &[Entry]) -> usize
    ensures { result ≡ count_by is_opened entries.now }
{
    let mut lives = 0;
    'lives: for entry in entries {
        if is_opened(entry) {
            lives += 1;
        }
    }
    lives
}

/// How many messages they answer.
fn served_in(entries: &[Entry]) -> usize
    ensures { result ≡ count_by is_served entries.now }
{
    let mut served = 0;
    'served: for entry in entries {
        if is_served(entry) {
            served += 1;
        }
    }
    served
}

/// How many applications they keep as finished.
fn finished_in(entries: &[Entry]) -> usize
    ensures { result ≡ count_by keeps_finished entries.now }
{
    let mut finished = 0;
    'finished: for entry in entries {
        if keeps_finished(entry) {
            finished += 1;
        }
    }
    finished
}

/// How many operations they keep.
fn kept_in(entries: &[Entry]) -> usize
    ensures { result ≡ count_by keeps_op entries.now }
{
    let mut kept = 0;
    'kept: for entry in entries {
        if is_kept(entry) {
            kept += 1;
        }
    }
    kept
}

/// How many containers they grant. The number of entries and that of the containers of one are below
/// 2^64 each.
fn grants_in(entries: &[Entry]) -> u128
    ensures { result ≡ sum_by granted_count entries.now }
{
    let mut granted = 0;
    'granted: for entry in entries {
        granted += granted_in(entry) as u128;
    }
    granted
}

/// How many containers the entry grants.
fn granted_in(entry: &Entry) -> usize
    ensures { result ≡ granted_count entry.now }
{
    match entry {
        Entry::Pass { node: _, grants } => grants.get().len(),
        _ => 0,
    }
}

/// The entry begins a life.
fn is_opened(entry: &Entry) -> bool
    ensures { result ≡ is_opened entry.now }
{
    matches!(entry, Entry::Opened { .. })
}

/// The entry answers a message.
fn is_served(entry: &Entry) -> bool
    ensures { result ≡ is_served entry.now }
{
    matches!(entry, Entry::Served { .. })
}

/// The entry keeps an operation.
fn is_kept(entry: &Entry) -> bool
    ensures { result ≡ keeps_op entry.now }
{
    matches!(entry, Entry::Kept { .. })
}

/// The entry keeps that an application finished.
fn keeps_finished(entry: &Entry) -> bool
    ensures { result ≡ keeps_finished entry.now }
{
    match entry {
        Entry::Kept { op } => is_finished(op.get()),
        _ => false,
    }
}

/// The operation says that an application finished.
fn is_finished(op: &Op) -> bool
    ensures { result ≡ finishes_app op.now }
{
    match op {
        Op::AppEnd {
            id: _,
            how,
            text: _,
        } => matches!(how, How::Finished),
        _ => false,
    }
}
