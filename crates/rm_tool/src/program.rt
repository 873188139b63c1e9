use crate::messages::Message;
use crate::outcomes::{ToolOutcome, status_of};
use crate::store_files::StoreShelf;
use crate::tool::top;
use crate::words::{Mode, mode_of};
use rm_disk::FileDisk;
use rm_outside::{FileShelf, OutSink, StandardDescriptors};
use std::fmt::Display;
use std::fs::OpenOptions;
use std::io::ErrorKind;
use std::process::ExitCode;
use std::{env, fs, io};

/// What the name of a draft has behind that of the file which it becomes.
const DRAFT_ENDING: &str = ".draft";

/// The program's path, where the system tells none.
const PROGRAM: &str = "yewendro_tool";

/// What the tool does by its command line; it ends with the status of its outcome, and tells on standard error what stopped it.
///
/// The new file is written as a draft, and gets its name once its bytes last: so at each moment it is absent, or a whole store. A draft that
/// was made for a call that fails is removed.
pub fn run_tool(rt: HostRuntime) -> ExitCode {
    let held = match StandardDescriptors::take(&rt) {
        Ok(held) => held,
        Err(error) => {
            tell(
                &rt,
                PROGRAM,
                "/dev/null",
                ToolOutcome::ReadFault,
                Some(error),
            );
            return ExitCode::from(status_of(ToolOutcome::ReadFault));
        }
    };
    let outcome = run_held(rt);
    drop(held);
    ExitCode::from(status_of(outcome))
}

/// What it comes to, with the standard descriptors held.
fn run_held(rt: HostRuntime) -> ToolOutcome {
    let Ok(words) = words_of(rt) else {
        let outcome = ToolOutcome::Usage;
        tell::<io::Error>(&rt, PROGRAM, "", outcome, None);
        return outcome;
    };
    let all = words.as_slice();
    let (program, words) = match all.split_first() {
        Some((first, rest)) => (first.as_str(), rest),
        None => (PROGRAM, all),
    };
    match mode_of(rt.alloc(), words) {
        Ok(Some(Mode::Check { file })) => run_check(rt, program, words, file),
        Ok(Some(Mode::Convert { old, new })) => run_new(rt, program, words, old, new),
        Ok(Some(Mode::Salvage { file, new })) => run_new(rt, program, words, file, new),
        Ok(Some(Mode::Summary { page } | Mode::Follow { page, .. } | Mode::Draw { page })) => {
            run_report(rt, program, words, page)
        }
        Ok(None) => {
            tell::<io::Error>(&rt, program, "", ToolOutcome::Usage, None);
            ToolOutcome::Usage
        }
        Err(_) => {
            tell::<io::Error>(&rt, program, "", ToolOutcome::Memory, None);
            ToolOutcome::Memory
        }
    }
}

/// The words of the command line, the program's path first.
fn words_of(rt: HostRuntime) -> io::Result<Vec<String>> {
    let mut words = Vec::new(rt.alloc());
    for word in env::args(&rt)? {
        words.push(word)?;
    }
    Ok(words)
}

/// Checks a store.
fn run_check(rt: HostRuntime, program: &str, words: &[String], file: &str) -> ToolOutcome {
    let mut shelf = StoreShelf::new(rt);
    let mut sink = OutSink::new(rt);
    // A check writes no store: this disk is not used, so that its file is not made.
    let mut unused = FileDisk::new(&rt, "");
    let outcome = top(rt.alloc(), words, &mut shelf, &mut sink, &mut unused);
    match outcome {
        ToolOutcome::Done => {}
        ToolOutcome::WriteFault { .. } => tell(&rt, program, file, outcome, sink.last_fault()),
        _ => tell(&rt, program, file, outcome, shelf.last_fault()),
    }
    outcome
}

/// Tells what a page tells.
fn run_report(rt: HostRuntime, program: &str, words: &[String], page: &str) -> ToolOutcome {
    let mut shelf = FileShelf::new(rt);
    let mut sink = OutSink::new(rt);
    // A report writes no store: this disk is not used, so that its file is not made.
    let mut unused = FileDisk::new(&rt, "");
    let outcome = top(rt.alloc(), words, &mut shelf, &mut sink, &mut unused);
    match outcome {
        ToolOutcome::Done => {}
        ToolOutcome::WriteFault { .. } => tell(&rt, program, page, outcome, sink.last_fault()),
        ToolOutcome::ReadFault => tell(&rt, program, page, outcome, shelf.last_fault()),
        _ => tell::<io::Error>(&rt, program, page, outcome, None),
    }
    outcome
}

/// Reads a store, and writes a new one.
fn run_new(rt: HostRuntime, program: &str, words: &[String], file: &str, new: &str) -> ToolOutcome {
    let Ok(draft) = format!(in rt.alloc(); "{new}{DRAFT_ENDING}") else {
        tell::<io::Error>(&rt, program, new, ToolOutcome::Memory, None);
        return ToolOutcome::Memory;
    };
    if fs::symlink_metadata(&rt, new).is_ok() {
        tell::<io::Error>(&rt, program, new, ToolOutcome::NotNew, None);
        return ToolOutcome::NotNew;
    }
    let outcome = write_draft(rt, program, words, file, draft.as_str());
    if !matches!(outcome, ToolOutcome::Done) {
        return outcome;
    }
    match publish(rt, draft.as_str(), new) {
        Ok(()) => ToolOutcome::Done,
        Err(error) => {
            let outcome = if error.kind() == ErrorKind::AlreadyExists {
                ToolOutcome::NotNew
            } else {
                ToolOutcome::DiskFault
            };
            tell(&rt, program, new, outcome, Some(error));
            outcome
        }
    }
}

/// Writes the draft of a new store, and tells what stopped that. A draft that was made for it goes where it fails.
fn write_draft(
    rt: HostRuntime,
    program: &str,
    words: &[String],
    file: &str,
    draft: &str,
) -> ToolOutcome {
    let mut shelf = StoreShelf::new(rt);
    let mut sink = OutSink::new(rt);
    let mut disk = FileDisk::new(&rt, draft);
    let outcome = top(rt.alloc(), words, &mut shelf, &mut sink, &mut disk);
    match outcome {
        ToolOutcome::Done => {}
        ToolOutcome::WriteFault { .. } => tell(&rt, program, file, outcome, sink.last_fault()),
        ToolOutcome::DiskFault => tell(&rt, program, draft, outcome, disk.last_fault()),
        ToolOutcome::NotNew => tell::<io::Error>(&rt, program, draft, outcome, None),
        _ => tell(&rt, program, file, outcome, shelf.last_fault()),
    }
    if !matches!(outcome, ToolOutcome::Done) && disk.made_new() {
        let _ = fs::remove_file(&rt, draft);
    }
    outcome
}

/// Gives a draft, whose bytes last, the name of the new file, unless something has it meanwhile, and lets the name last.
fn publish(rt: HostRuntime, draft: &str, new: &str) -> io::Result<()> {
    let linked = fs::hard_link(&rt, draft, new);
    let removed = fs::remove_file(&rt, draft);
    linked?;
    removed?;
    OpenOptions::new()
        .read(true)
        .open(&rt, folder_of(new))?
        .sync_all()
}

/// The folder in which the file of that name stands.
fn folder_of(name: &str) -> &str {
    match name.rsplit_once('/') {
        Some(("", _)) => "/",
        Some((folder, _)) => folder,
        None => ".",
    }
}

/// Tells on standard error what stopped a call. Where that can't be written the status alone tells it.
fn tell<C: Display + Drop>(
    rt: &HostRuntime,
    program: &str,
    file: &str,
    outcome: ToolOutcome,
    cause: Option<C>,
) {
    let message = Message {
        outcome,
        program,
        file,
        cause,
    };
    let _ = eprintln!(rt; "{message}");
}
