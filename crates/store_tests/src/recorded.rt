//! The system's files, with a record of the calls that a disk in a file makes of them.
use rm_disk::{FileFault, HeldFile};
use std::alloc::{Alloc, Allocator};
use std::cell::Cell;
use std::fs::{Files, Metadata, OpenFile, OpenOptions, Permissions};
use std::io;
use std::io::{ErrorKind, PipeReader, PipeWriter, Read, Seek, SeekFrom, Write};
use std::os::fd::BorrowedFd;
use std::os::unix::fs::FileExt;
use std::os::unix::net::SocketAddr;
use std::path::PathBuf;

/// What was asked of the files that were opened.
#[derive(Drop)]
pub struct Calls {
    /// How many reads of a file were made.
    pub reads: Cell<u32>,
    /// How many bytes were written to files.
    pub written: Cell<u64>,
    /// How many bytes more the system has room for.
    pub room: Cell<u64>,
    /// How many bytes were written and how many whole syncs made when a file last got its name.
    pub named_after: Cell<(u64, u32)>,
    /// How many syncs of a file's bytes were made.
    pub syncs: Cell<u32>,
    /// How many syncs of a whole file or folder were made.
    pub whole_syncs: Cell<u32>,
    /// How many of the next syncs are interrupted.
    pub interruptions: Cell<u32>,
}

impl Calls {
    pub fn new() -> Calls {
        Calls {
            reads: Cell::new(0),
            written: Cell::new(0),
            room: Cell::new(u64::MAX),
            named_after: Cell::new((0, 0)),
            syncs: Cell::new(0),
            whole_syncs: Cell::new(0),
            interruptions: Cell::new(0),
        }
    }
}

/// The files of the system, whose calls are recorded.
#[derive(Drop)]
pub struct Recorded<'a, R> {
    pub files: &'a R,
    pub calls: &'a Calls,
}

/// An open file of the system, whose calls are recorded.
#[derive(Drop)]
pub struct RecordedFile<'a, F: Drop> {
    file: F,
    calls: &'a Calls,
}

fn one_more(count: &Cell<u32>) {
    count.set(count.get().saturating_add(1));
}

impl<F: Read + Drop> Read for RecordedFile<'_, F> {
    fn read(&mut self, buf: &mut [u8]) -> io::Result<usize> {
        self.file.read(buf)
    }
}

impl<F: Write + Drop> Write for RecordedFile<'_, F> {
    fn write(&mut self, buf: &[u8]) -> io::Result<usize> {
        self.file.write(buf)
    }

    fn flush(&mut self) -> io::Result<()> {
        self.file.flush()
    }
}

impl<F: Seek + Drop> Seek for RecordedFile<'_, F> {
    fn seek(&mut self, to: SeekFrom) -> io::Result<u64> {
        self.file.seek(to)
    }
}

impl<F: FileExt + Drop> FileExt for RecordedFile<'_, F> {
    fn read_at(&self, buf: &mut [u8], offset: u64) -> io::Result<usize> {
        one_more(&self.calls.reads);
        self.file.read_at(buf, offset)
    }

    fn write_at(&self, buf: &[u8], offset: u64) -> io::Result<usize> {
        let (written, room) = (&self.calls.written, &self.calls.room);
        let size = buf.len() as u64;
        let left = room.get();
        if size > left {
            return Err(io::Error::from(ErrorKind::StorageFull));
        }
        room.set(left - size);
        written.set(written.get().saturating_add(size));
        self.file.write_at(buf, offset)
    }
}

impl<F: HeldFile + Drop> HeldFile for RecordedFile<'_, F> {
    fn hold(&self) -> Result<(), FileFault> {
        self.file.hold()
    }
}

impl<R: Alloc> Alloc for Recorded<'_, R> {
    type A = R::A;

    fn alloc(&self) -> R::A {
        self.files.alloc()
    }
}

impl<F: OpenFile + Drop> OpenFile for RecordedFile<'_, F> {
    fn metadata(&self) -> io::Result<Metadata> {
        self.file.metadata()
    }

    fn set_len(&self, size: u64) -> io::Result<()> {
        self.file.set_len(size)
    }

    fn sync_all(&self) -> io::Result<()> {
        one_more(&self.calls.whole_syncs);
        self.file.sync_all()
    }

    fn sync_data(&self) -> io::Result<()> {
        let left = self.calls.interruptions.get();
        if left > 0 {
            self.calls.interruptions.set(left - 1);
            return Err(io::Error::from(ErrorKind::Interrupted));
        }
        one_more(&self.calls.syncs);
        self.file.sync_data()
    }
}

impl<'a, R: Files> Files for Recorded<'a, R> {
    type File = RecordedFile<'a, R::File>;

    type Dir = R::Dir;

    fn open_file(&self, how: &OpenOptions, path: &str) -> io::Result<RecordedFile<'a, R::File>> {
        Ok(RecordedFile {
            file: self.files.open_file(how, path)?,
            calls: self.calls,
        })
    }

    fn open_dir(&self, path: &str) -> io::Result<R::Dir> {
        self.files.open_dir(path)
    }

    fn metadata(&self, path: &str) -> io::Result<Metadata> {
        self.files.metadata(path)
    }

    fn symlink_metadata(&self, path: &str) -> io::Result<Metadata> {
        self.files.symlink_metadata(path)
    }

    fn copy(&self, from: &str, to: &str) -> io::Result<u64> {
        self.files.copy(from, to)
    }

    fn rename(&self, from: &str, to: &str) -> io::Result<()> {
        let calls = self.calls;
        calls
            .named_after
            .set((calls.written.get(), calls.whole_syncs.get()));
        self.files.rename(from, to)
    }

    fn remove_file(&self, path: &str) -> io::Result<()> {
        self.files.remove_file(path)
    }

    fn create_dir(&self, path: &str) -> io::Result<()> {
        self.files.create_dir(path)
    }

    fn remove_dir(&self, path: &str) -> io::Result<()> {
        self.files.remove_dir(path)
    }

    fn remove_dir_all<B: Allocator>(&self, alloc: B, path: &str) -> io::Result<()> {
        self.files.remove_dir_all(alloc, path)
    }

    fn canonicalize<B: Allocator>(&self, alloc: B, path: &str) -> io::Result<PathBuf<B>> {
        self.files.canonicalize(alloc, path)
    }

    fn read_link<B: Allocator>(&self, alloc: B, path: &str) -> io::Result<PathBuf<B>> {
        self.files.read_link(alloc, path)
    }

    fn hard_link(&self, original: &str, link: &str) -> io::Result<()> {
        self.files.hard_link(original, link)
    }

    fn set_permissions(&self, path: &str, perm: Permissions) -> io::Result<()> {
        self.files.set_permissions(path, perm)
    }

    fn symlink(&self, original: &str, link: &str) -> io::Result<()> {
        self.files.symlink(original, link)
    }

    fn pipe(&self) -> io::Result<(PipeReader, PipeWriter)> {
        self.files.pipe()
    }

    fn chown(&self, path: &str, uid: Option<u32>, gid: Option<u32>) -> io::Result<()> {
        self.files.chown(path, uid, gid)
    }

    fn lchown(&self, path: &str, uid: Option<u32>, gid: Option<u32>) -> io::Result<()> {
        self.files.lchown(path, uid, gid)
    }

    fn create_dir_with_mode(&self, path: &str, mode: u32) -> io::Result<()> {
        self.files.create_dir_with_mode(path, mode)
    }

    fn bind_unix(&self, socket: BorrowedFd<'_>, addr: &SocketAddr) -> io::Result<()> {
        self.files.bind_unix(socket, addr)
    }
}
