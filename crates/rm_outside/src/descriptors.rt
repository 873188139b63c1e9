use std::rt::Files;
use std::{fs, io};

/// What is opened in the place of a standard stream that is closed.
const NOTHING: &str = "/dev/null";

/// The same where the system has no such file: the folder in which the program runs.
const FOLDER: &str = ".";

/// The descriptors 0, 1 and 2, none of which is free as long as this is held, so that no file that is opened meanwhile is a
/// standard stream.
///
/// A process may begin with one of them closed. The next file that it opens has that number then, and what is written to
/// standard output would be written over that file. Each is taken for reading alone: a write to a closed output is a
/// fault, as it was.
pub struct StandardDescriptors<R: Files> {
    input: R::File,
    output: R::File,
    error: R::File,
}

impl<R: Files> Drop for StandardDescriptors<R> {
    fn drop(self) {
        let StandardDescriptors {
            input: _,
            output: _,
            error: _,
        } = self;
    }
}

impl<R: Files> StandardDescriptors<R> {
    /// Takes those of the three that are free, before any other file is opened; where one isn't, a descriptor above them
    /// is held in its place. An error is the system's, which opens neither the null device nor the folder.
    pub fn take(rt: &R) -> io::Result<StandardDescriptors<R>> {
        Ok(StandardDescriptors {
            input: open_nothing(rt)?,
            output: open_nothing(rt)?,
            error: open_nothing(rt)?,
        })
    }

    /// What was opened for standard output: a file that takes nothing.
    pub fn output(&mut self) -> &mut R::File {
        &mut self.output
    }
}

/// Opens a file for reading alone that is always there.
fn open_nothing<R: Files>(rt: &R) -> io::Result<R::File> {
    match fs::open(rt, NOTHING) {
        Ok(file) => Ok(file),
        Err(_) => fs::open(rt, FOLDER),
    }
}
