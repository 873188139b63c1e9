//! Calls of the program over a store in a file: each goes on where the one before ended, whose file is closed by then. Their pages
//! are on standard output.

use crate::cases::{Case, page_of, plain, shelf_of, sink_of, words_of};
use rm_disk::{Disk, FileDisk, Fuse};
use rm_main::{Described, run_by, top_plain};
use rm_types::Outcome;
use std::fs;
use std::fs::Files;
use std::process::Abort;
use std::sync::Wait;
use std::thread::Threads;

const FOLDER: &str = "rm_main_test";

const CLUSTER: &str = "rm_main_test/cluster.json";

const SCRIPT: &str = "rm_main_test/script.txt";

const STORE: &str = "rm_main_test/rm.store";

fn put_file<R: Abort + Files>(rt: &R, name: &str, text: &str) {
    fs::write(rt, name, text.as_bytes()).expect(rt, "the file is written");
}

/// Makes the folder with a cluster file and a script of one life, and no store.
fn begin<R: Abort + Files>(rt: &R) {
    for name in [CLUSTER, SCRIPT, STORE] {
        let _ = fs::remove_file(rt, name);
    }
    let _ = fs::create_dir(rt, FOLDER);
    put_file(rt, CLUSTER, "{}\n");
    put_file(rt, SCRIPT, "start 5\nsettle\n");
}

/// What a call by these words comes to, over this file.
fn call_over<R: Threads + Wait + Sync + Abort + AllocGlobal, D: Disk + Described + Drop + Send>(
    rt: &R,
    files: HostRuntime,
    words: &[&str],
    file: D,
) -> Outcome {
    let case = Case {
        words,
        ..plain(&[])
    };
    let words = words_of(rt, &case);
    let (call, _file) = run_by(rt, files, "program", words.as_slice(), file);
    call.outcome
}

/// What a call by these words comes to.
fn call<R: Threads + Wait + Sync + Abort + AllocGlobal>(
    rt: &R,
    files: HostRuntime,
    words: &[&str],
) -> Outcome {
    call_over(rt, files, words, FileDisk::new(&files, STORE))
}

fn is_done<R: Abort>(rt: &R, outcome: Outcome) {
    assert_eq!(rt; outcome, Outcome::Done);
}

/// Checks what the store lists.
fn lists<R: Abort + AllocGlobal>(rt: &R, files: HostRuntime, wanted: &str) {
    let case = Case {
        words: &["store"],
        ..plain(&[])
    };
    let mut shelf = shelf_of(rt, &case);
    let mut sink = sink_of(rt, &case);
    let words = words_of(rt, &case);
    let disk = Fuse::new(rt.alloc(), FileDisk::new(&files, STORE));
    let ended = top_plain(rt.alloc(), words.as_slice(), &mut shelf, &mut sink, disk);
    is_done(rt, ended.outcome);
    assert_eq!(rt; page_of(rt, &sink).as_str(), wanted);
}

const ONE_LIFE: &str = "kept epoch next=1 stamp=5\n";

const TWO_LIVES: &str = "kept epoch next=1 stamp=5\nkept epoch next=2 stamp=6\n";

#[test]
fn a_call_goes_on_over_the_file_of_the_one_before(rt: HostRuntime) {
    begin(&rt);
    is_done(&rt, call(&rt, rt, &["plain", CLUSTER, SCRIPT, "--file"]));
    lists(&rt, rt, ONE_LIFE);
    is_done(&rt, call(&rt, rt, &["plain", CLUSTER, SCRIPT]));
    lists(&rt, rt, ONE_LIFE);
    is_done(&rt, call(&rt, rt, &["threads", CLUSTER, SCRIPT, "--file"]));
    lists(&rt, rt, TWO_LIVES);
    fs::remove_dir_all(&rt, FOLDER).expect(&rt, "the folder is removed");
}
