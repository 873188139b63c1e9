ghost use Rattle.std.specs.Prelude.{◌≡◌, ◌⊎◌, map, string_bytes, IfOk, Some};
ghost use Rattle.rm_main.specs.Calls.{CameBy, CameTo, OutcomeCountsFaults, EndsProgram, IsNewDevice, IsOfProgram, RanInMemory, RanOver};
ghost use Rattle.rm_words.specs.Words.{IsWithinSoak, asked};

use crate::described::Described;
use crate::ended::Ended;
use crate::hints::{cluster_hint, schedule_hint, script_hint};
use crate::messages::{Cause, Message, Names, explain};
use crate::modes::top_line;
use crate::progress::Watched;
use crate::statuses::status_of;
use crate::terminal::is_terminal;
use crate::usage::{Usage, usage_of};
use rm_disk::{Disk, FileCause, FileDisk, Fuse, MemDisk, Window};
use rm_outside::{FileShelf, OutSink, StandardDescriptors};
use rm_types::{Entry, Items, NoMemory, Op, Outcome};
use rm_words::{CommandLine, Mode, Operand, STORE_FILE, command_line, fault_among, name_at};
use rm_workers::NoGate;
use std::alloc::Global;
use std::fmt::Display;
use std::process::ExitCode;
use std::rt::Env;
use std::sync::Wait;
use std::thread::Threads;
use std::{env, io};

/// The device in memory, as messages name it.
const MEMORY_DEVICE: &str = "the one in memory";

/// The program's path as these pages have it, where the system tells none.
const PROGRAM: &str = "crates/yewendro/out/yewendro";

/// What messages name where no words were used.
const NO_NAMES: Names<'static> = Names {
    program: PROGRAM,
    cluster: "",
    script: "",
    schedule: "",
    unread: "/dev/null",
    device: STORE_FILE,
};

/// The words of the command line, the program's path first.
fn words_of<R: Env + AllocGlobal>(rt: &R) -> io::Result<Vec<String>> {
    let mut words = Vec::new(rt.alloc());
    for word in env::args(rt)? {
        words.push(word)?;
    }
    Ok(words)
}

/// What a call came to, and its edges as they were left.
#[derive(Drop)]
pub struct Call {
    pub outcome: Outcome,
    /// The files that it read.
    pub shelf: FileShelf<HostRuntime>,
    /// The standard output.
    pub sink: OutSink<HostRuntime>,
    /// How much of the store in a file is used, where it could be told.
    pub usage: Option<Usage>,
}

impl Call {
    /// Why the file, the output or the device failed, where that is what the call came to.
    fn cause<'a>(&'a self, device: Option<FileCause<'a>>) -> Cause<'a> {
        let error = match self.outcome {
            Outcome::ReadFault => self.shelf.last_fault(),
            Outcome::WriteFault { .. } => self.sink.last_fault(),
            Outcome::DiskFault => return device.map_or(Cause::Unknown, Cause::Device),
            _ => None,
        };
        error.map_or(Cause::Unknown, Cause::System)
    }
}

/// A call that came to this before it did anything.
fn stopped(rt: HostRuntime, outcome: Outcome) -> Call
    ensures { result.outcome ≡ outcome }
{
    Call {
        outcome,
        shelf: FileShelf::new(rt),
        sink: OutSink::new(rt),
        usage: None,
    }
}

/// What the program does by a command line over a device, which is given back as the call left it, and where it is a file how much of
/// its store is used. Workers run in the threads of the first runtime.
fn call_over<R: Threads + Wait + Sync, D: Disk + Drop + Send>(
    threads: &R,
    rt: HostRuntime,
    line: CommandLine<'_>,
    device: D,
) -> (Call, D)
    requires { IsWithinSoak line.mode }
    ensures ran { RanOver D.view (asked line.entry.mode) device result.1 result.0.outcome }
    ensures faults { OutcomeCountsFaults result.0.outcome result.0.shelf result.0.sink }
{
    let alloc = rt.alloc();
    let mut shelf = FileShelf::new(rt);
    let mut sink = OutSink::new(rt);
    let fuse = Fuse::new(alloc, device);
    let Ended {
        outcome,
        opening,
        log,
        disk,
    } = top_line(threads, alloc, line, &mut shelf, &mut sink, fuse, &NoGate);
    let device = disk.inner();
    let call = Call {
        outcome,
        shelf,
        sink,
        usage: usage_where(line.is_in_file, alloc, device.size() / 2, &opening, &log),
    };
    (call, device)
}

/// How much of a store is used, where that is asked for and there is memory to tell it.
fn usage_where(
    is_file: bool,
    alloc: Global,
    size: u64,
    opening: &Items<Op>,
    log: &Items<Entry>,
) -> Option<Usage> {
    if !is_file {
        return None;
    }
    usage_of(alloc, size, opening, log).ok()
}

/// The same, with the device read ahead, so that an opening makes few calls of it. It tells on standard error how far a run has come, where
/// that is a terminal; that the device's store was made new, whatever the outcome, for whoever meant another folder has to know; of a store in
/// a file how much is used, where it is listed or nearly full; and what stopped the call. Messages have the program's path and the device's
/// name. Its frame is its own, and not one with that of a device in memory: files are read above it, as deep as they are nested.
#[inline(never)]
fn run_over<R: Threads + Wait + Sync, D: Disk + Described + Drop + Send>(
    threads: &R,
    rt: HostRuntime,
    program: &str,
    words: &[String],
    line: CommandLine<'_>,
    device: D,
) -> (Call, D)
    requires { IsWithinSoak line.mode }
    ensures ran { RanOver D.view (asked line.entry.mode) device result.1 result.0.outcome }
    ensures faults { OutcomeCountsFaults result.0.outcome result.0.shelf result.0.sink }
{
    let ahead = Window::new(rt.alloc(), device);
    let watched = Watched::new(ahead, rt, program, is_terminal(&rt));
    let (call, watched) = call_over(threads, rt, line, watched);
    let ahead = watched.inner();
    let device = ahead.inner();
    if device.made_new() {
        let program = program.escape_default();
        let name = device_name(line);
        let _ = eprintln!(rt; "{program}: the store in {name} is new");
    }
    tell_usage(&rt, program, line, &call);
    tell(&rt, program, words, line, &call, device.last_fault());
    (call, device)
}

/// The device of a command line, as messages name it.
fn device_name(line: CommandLine<'_>) -> &'static str {
    if line.is_in_file {
        line.mode.device().file
    } else {
        MEMORY_DEVICE
    }
}

/// A new device in memory of so many bytes, all of which are 0.
fn new_device(alloc: Global, size: u64) -> Result<MemDisk, NoMemory>
    ensures { IfOk result (λ device. IsNewDevice size device) }
{
    MemDisk::new(alloc, size, Items::new(alloc))
}

/// What the program does by a command line over a new device in memory. Its frame is its own, as that over a file is.
#[inline(never)]
fn run_in_memory<R: Threads + Wait + Sync>(
    threads: &R,
    rt: HostRuntime,
    program: &str,
    words: &[String],
    line: CommandLine<'_>,
) -> Call
    requires { IsWithinSoak line.mode }
    ensures ran { (result.outcome ≡ Outcome.Memory) ⊎ RanInMemory (asked line.entry.mode) result.outcome }
    ensures faults { OutcomeCountsFaults result.outcome result.shelf result.sink }
{
    match new_device(rt.alloc(), line.mode.device().size) {
        Ok(device) => run_over(threads, rt, program, words, line, device).0,
        Err(NoMemory) => starved(rt, program),
    }
}

/// Tells on standard error how much of a store in a file is used: of one that was listed, and of one in which less than a tenth of an
/// area is free.
fn tell_usage(rt: &HostRuntime, program: &str, line: CommandLine<'_>, call: &Call) {
    let is_listed = call.outcome == Outcome::Done && matches!(line.mode, Mode::Store);
    if let Some(usage) = &call.usage {
        if is_listed || usage.is_nearly_full() {
            let program = program.escape_default();
            let device = device_name(line);
            let _ = eprintln!(rt; "{program}: {device}: {usage}");
        }
    }
}

/// The name that stands among the words as this operand of a mode; empty where the mode has none.
fn operand_of<'a>(words: &'a [String], mode: Mode<'_>, operand: Operand) -> &'a str {
    let operands = mode.name().row().operands;
    match operands.iter().position(|one| *one == operand) {
        Some(place) => name_at(words, place.saturating_add(1)),
        None => "",
    }
}

/// Tells on standard error what stopped a call, if anything did.
fn tell(
    rt: &HostRuntime,
    program: &str,
    words: &[String],
    line: CommandLine<'_>,
    call: &Call,
    fault: Option<FileCause<'_>>,
) {
    let names = Names {
        program,
        cluster: operand_of(words, line.mode, Operand::Cluster),
        script: operand_of(words, line.mode, Operand::Script),
        schedule: operand_of(words, line.mode, Operand::Schedule),
        unread: name_at(words, (call.shelf.answered().min(2) + 1) as usize),
        device: device_name(line),
    };
    let cause = call.cause(fault);
    let bytes = call.shelf.last_read();
    let outcome = call.outcome;
    match outcome {
        Outcome::ClusterRefused { place } => {
            let hint = cluster_hint(rt.alloc(), bytes, place);
            tell_hint(rt, outcome, names, hint, cause)
        }
        Outcome::ScriptRefused { line } => {
            tell_hint(
                rt,
                outcome,
                names,
                script_hint(rt.alloc(), bytes, line),
                cause,
            )
        }
        Outcome::ScheduleRefused { place } => {
            tell_hint(rt, outcome, names, schedule_hint(bytes, place), cause)
        }
        _ => tell_hint(rt, outcome, names, "", cause),
    }
}

/// Tells the same with what is wrong with the words or a file.
fn tell_hint<H: Display + Drop>(
    rt: &HostRuntime,
    outcome: Outcome,
    names: Names<'_>,
    hint: H,
    cause: Cause<'_>,
) {
    let message = Message {
        outcome,
        names,
        hint,
        cause,
    };
    explain(rt, &message);
}

/// What the program does by a command line, over `file` where this is to be its device, and else over a new one in memory. `file` is given back as
/// the call left it.
fn run_line<R: Threads + Wait + Sync, D: Disk + Described + Drop + Send>(
    threads: &R,
    rt: HostRuntime,
    program: &str,
    words: &[String],
    line: CommandLine<'_>,
    file: D,
) -> (Call, D)
    requires { IsWithinSoak line.mode }
    ensures came { CameTo D.view (Some (asked line.entry.mode)) line.entry.is_in_file file result.1 result.0.outcome }
    ensures faults { OutcomeCountsFaults result.0.outcome result.0.shelf result.0.sink }
{
    if line.is_in_file {
        run_over(threads, rt, program, words, line, file)
    } else {
        (run_in_memory(threads, rt, program, words, line), file)
    }
}

/// What the program does by its words, the path by which it was called apart; it tells on standard error what stopped it. Where
/// the words ask for the device in the store's file, the call is over `file`, and else over a new one in memory. `file` is given
/// back as the call left it. Workers run in the threads of the first runtime.
pub fn run_by<R: Threads + Wait + Sync, D: Disk + Described + Drop + Send>(
    threads: &R,
    rt: HostRuntime,
    program: &str,
    words: &[String],
    file: D,
) -> (Call, D)
    ensures came { CameBy D.view (map string_bytes words.now) file result.1 result.0.outcome }
    ensures faults { OutcomeCountsFaults result.0.outcome result.0.shelf result.0.sink }
{
    match command_line(rt.alloc(), words) {
        Ok(Some(line)) => run_line(threads, rt, program, words, line, file),
        Ok(None) => (unasked(rt, program, words), file),
        Err(NoMemory) => (starved(rt, program), file),
    }
}

/// Tells what stopped the program before it used its words or a device.
fn tell_before(rt: &HostRuntime, program: &str, outcome: Outcome, hint: &str, cause: Cause<'_>) {
    let names = Names {
        program,
        ..NO_NAMES
    };
    tell_hint(rt, outcome, names, hint, cause);
}

/// A call whose words ask for nothing, which is told with what is wrong with them.
fn unasked(rt: HostRuntime, program: &str, words: &[String]) -> Call
    ensures { result.outcome ≡ Outcome.Usage }
{
    let names = Names {
        program,
        ..NO_NAMES
    };
    tell_hint(
        &rt,
        Outcome::Usage,
        names,
        fault_among(words),
        Cause::Unknown,
    );
    stopped(rt, Outcome::Usage)
}

/// A call that found no memory for its words or for a device, which is told.
fn starved(rt: HostRuntime, program: &str) -> Call
    ensures { result.outcome ≡ Outcome.Memory }
{
    tell_before(&rt, program, Outcome::Memory, "", Cause::Unknown);
    stopped(rt, Outcome::Memory)
}

/// What the program does by its command line; it ends with the status of its outcome, and tells on standard error what stopped
/// it. The page is on standard output by then. Workers run in the threads of the first runtime.
///
/// Before any other file is opened the descriptors of the standard streams are taken, so that none of them that is closed
/// becomes the store's file.
pub fn run_program<R: Threads + Wait + Sync>(threads: &R, rt: HostRuntime) -> ExitCode
    ensures { EndsProgram ⟦<FileDisk<'static, HostRuntime> as Disk>⟧.view result }
{
    ExitCode::from(status_of(run_held(threads, rt)))
}

/// What it comes to, with these descriptors held meanwhile.
fn run_held<R: Threads + Wait + Sync>(threads: &R, rt: HostRuntime) -> Outcome
    ensures { IsOfProgram ⟦<FileDisk<'static, HostRuntime> as Disk>⟧.view result }
{
    let held = match StandardDescriptors::take(&rt) {
        Ok(held) => held,
        Err(error) => {
            tell_before(&rt, PROGRAM, Outcome::ReadFault, "", Cause::System(&error));
            return Outcome::ReadFault;
        }
    };
    let outcome = run_words(threads, rt);
    drop(held);
    outcome
}

/// What it comes to by these words, where a file is its mode's own. Where the words ask for none it is not opened.
fn run_asked<R: Threads + Wait + Sync>(
    threads: &R,
    rt: HostRuntime,
    program: &str,
    words: &[String],
) -> Outcome
    ensures { IsOfProgram ⟦<FileDisk<'static, HostRuntime> as Disk>⟧.view result }
{
    match command_line(rt.alloc(), words) {
        Ok(Some(line)) => {
            let file = FileDisk::new(&rt, line.mode.device().file);
            run_line(threads, rt, program, words, line, file).0.outcome
        }
        Ok(None) => unasked(rt, program, words).outcome,
        Err(NoMemory) => starved(rt, program).outcome,
    }
}

/// The same by the words of the command line.
fn run_words<R: Threads + Wait + Sync>(threads: &R, rt: HostRuntime) -> Outcome
    ensures { IsOfProgram ⟦<FileDisk<'static, HostRuntime> as Disk>⟧.view result }
{
    match words_of(&rt) {
        Ok(words) => {
            let all = words.as_slice();
            let (program, words) = match all.split_first() {
                Some((first, rest)) => (first.as_str(), rest),
                None => (PROGRAM, all),
            };
            run_asked(threads, rt, program, words)
        }
        Err(error) if error.kind() == io::ErrorKind::OutOfMemory => {
            tell_before(&rt, PROGRAM, Outcome::Memory, "", Cause::Unknown);
            Outcome::Memory
        }
        Err(_) => {
            tell_before(
                &rt,
                PROGRAM,
                Outcome::Usage,
                "the words are no text",
                Cause::Unknown,
            );
            Outcome::Usage
        }
    }
}
