use crate::held::folder_of;
use rm_formats::STORE_SIZE;
use std::fmt::{Display, Formatter};
use std::{fmt, io};
use thiserror::Error;

/// What the name of a draft has behind that of the file which is made of it.
pub const DRAFT_ENDING: &str = ".new";

/// What is wrong with a file.
#[derive(Debug, Drop, Error)]
pub enum FileFault {
    /// It has so many bytes, and not those of a disk. It is left as it is.
    #[error("the file has {length} bytes, and a disk has {size}", size = STORE_SIZE)]
    OtherLength { length: u64 },
    /// It has bytes that no store can have left. It is left as it is.
    #[error("the file is no store, and is left as it is")]
    NoStore,
    /// The name is a link, and what it leads to isn't there.
    #[error("the name is a link that leads to no file")]
    LeadsNowhere,
    /// What has the name of a draft is a link, or something else that no killed maker leaves. It is left as it is.
    #[error("it is no plain file, and is left as it is")]
    NotPlain,
    /// Another disk, in this process or in another, has the file open, or is making it.
    #[error("the file is in use")]
    InUse,
    /// Nothing has its name any more.
    #[error("the file was removed while it was in use")]
    Removed,
    /// Its name is now that of another file.
    #[error("another file took its place while it was in use")]
    Replaced,
    /// It has so many bytes now, and had those of a disk when it was opened.
    #[error("the file was brought to {length} bytes while it was in use")]
    Resized { length: u64 },
    /// An earlier sync failed, so that it isn't known what lasts.
    #[error("an earlier sync of the file failed")]
    Lost,
    /// No memory was found for the name under which the file is made.
    #[error("out of memory")]
    Memory,
    /// The system refused a call.
    #[error(transparent)]
    System(#[from] io::Error),
}

/// Which file a fault is of.
#[derive(Clone, Copy, Debug)]
pub enum Subject {
    /// The file of the disk.
    Store,
    /// The draft that it is made of.
    Draft,
    /// The folder in which it stands.
    Folder,
}

/// A fault, and which file it is of. Its sentence is the fault's; `FileCause` names the file besides.
#[derive(Debug, Drop, Error)]
#[error("{fault}")]
pub struct Failure {
    pub subject: Subject,
    pub fault: FileFault,
}

impl Failure {
    pub fn of_draft(fault: FileFault) -> Failure {
        Failure {
            subject: Subject::Draft,
            fault,
        }
    }

    pub fn of_folder(error: io::Error) -> Failure {
        Failure {
            subject: Subject::Folder,
            fault: FileFault::System(error),
        }
    }
}

impl From<FileFault> for Failure {
    fn from(fault: FileFault) -> Failure {
        Failure {
            subject: Subject::Store,
            fault,
        }
    }
}

impl From<io::Error> for Failure {
    fn from(error: io::Error) -> Failure {
        Failure::from(FileFault::System(error))
    }
}

/// Why a call of a disk in a file failed. As a text it names the file at fault where that isn't the disk's own.
#[derive(Clone, Copy)]
pub struct FileCause<'a> {
    /// The name of the disk's file.
    pub name: &'a str,
    /// Which file is at fault.
    pub subject: Subject,
    /// What is wrong with it.
    pub fault: &'a FileFault,
}

impl Display for FileCause<'_> {
    fn fmt<W: fmt::Write>(&self, f: &mut Formatter<W>) -> fmt::Result {
        let fault = self.fault;
        match self.subject {
            Subject::Store => write!(f, "{fault}"),
            Subject::Draft => write!(f, "the draft {}{DRAFT_ENDING}: {fault}", self.name),
            Subject::Folder => write!(f, "the folder {}: {fault}", folder_of(self.name)),
        }
    }
}
