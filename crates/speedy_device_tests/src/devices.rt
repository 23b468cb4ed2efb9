//! Sources and sinks: what they move, and what a failed call leaves.
use crate::asserting::assert_same;
use speedy::device::{Counted, Sink, Source};
use std::alloc::Allocator;
use std::cell::Cell;
use std::fs::{Metadata, OpenFile, OpenOptions, Permissions};
use std::io;
use std::io::{PipeReader, PipeWriter, Read, Seek, SeekFrom, Write};
use std::os::fd::BorrowedFd;
use std::os::unix::net::SocketAddr;
use std::path::PathBuf;
use std::rt::Files;

/// A device that fails once, where it is told to, and then moves at most `most` bytes a call. It counts its calls.
#[derive(Drop)]
struct Device {
    fails_with: Option<io::ErrorKind>,
    most: usize,
    calls: u8,
    flushes: u8,
}

fn make_device(fails_with: Option<io::ErrorKind>, most: usize) -> Counted<Device> {
    Counted::new(Device {
        fails_with,
        most,
        calls: 0,
        flushes: 0,
    })
}

impl Device {
    fn fail_once(&mut self) -> io::Result<()> {
        match self.fails_with.take() {
            Some(kind) => Err(io::Error::from(kind)),
            None => Ok(()),
        }
    }
}

impl Read for Device {
    fn read(&mut self, buf: &mut [u8]) -> io::Result<usize> {
        self.calls = self.calls.saturating_add(1);
        self.fail_once()?;
        let count = buf.len().min(self.most);
        buf[..count].fill(b'r');
        Ok(count)
    }
}

impl Write for Device {
    fn write(&mut self, buf: &[u8]) -> io::Result<usize> {
        self.calls = self.calls.saturating_add(1);
        self.fail_once()?;
        Ok(buf.len().min(self.most))
    }

    fn flush(&mut self) -> io::Result<()> {
        self.flushes = self.flushes.saturating_add(1);
        self.fail_once()
    }
}

/// What can be called of files.
#[derive(Clone, Copy, PartialEq, Eq)]
pub(crate) enum FileCall {
    Open,
    Read,
    Write,
    Flush,
}

/// How often files were read, written to and flushed, and how many bytes the last read had room for.
#[derive(Drop)]
pub(crate) struct FileCalls {
    pub(crate) reads: Cell<u8>,
    pub(crate) writes: Cell<u8>,
    pub(crate) flushes: Cell<u8>,
    pub(crate) room: Cell<usize>,
}

impl FileCalls {
    pub(crate) fn none() -> FileCalls {
        FileCalls {
            reads: Cell::new(0),
            writes: Cell::new(0),
            flushes: Cell::new(0),
            room: Cell::new(0),
        }
    }
}

/// Files that hold nothing and keep nothing, of which each call of one name fails with a kind. They count their calls.
#[derive(Clone, Copy, Drop)]
pub(crate) struct FakeFiles<'a> {
    pub(crate) fails: Option<(FileCall, io::ErrorKind)>,
    pub(crate) calls: &'a FileCalls,
}

/// One of these files, and what is listed of their folders, which is nothing.
#[derive(Drop)]
pub(crate) struct FakeFile<'a> {
    files: FakeFiles<'a>,
}

impl<'a> FakeFiles<'a> {
    fn call(&self, call: FileCall) -> io::Result<()> {
        match self.fails {
            Some((name, kind)) if name == call => Err(io::Error::from(kind)),
            _ => Ok(()),
        }
    }
}

/// Counts one more.
fn count_one(calls: &Cell<u8>) {
    calls.set(calls.get().saturating_add(1));
}

impl<'a> Read for FakeFile<'a> {
    fn read(&mut self, buf: &mut [u8]) -> io::Result<usize> {
        count_one(&self.files.calls.reads);
        self.files.calls.room.set(buf.len());
        self.files.call(FileCall::Read)?;
        Ok(0)
    }
}

impl<'a> Write for FakeFile<'a> {
    fn write(&mut self, buf: &[u8]) -> io::Result<usize> {
        count_one(&self.files.calls.writes);
        self.files.call(FileCall::Write)?;
        Ok(buf.len())
    }

    fn flush(&mut self) -> io::Result<()> {
        count_one(&self.files.calls.flushes);
        self.files.call(FileCall::Flush)
    }
}

impl<'a> Seek for FakeFile<'a> {
    fn seek(&mut self, _to: SeekFrom) -> io::Result<u64> {
        unsupported()
    }
}

impl<'a> OpenFile for FakeFile<'a> {
    fn metadata(&self) -> io::Result<Metadata> {
        unsupported()
    }

    fn set_len(&self, _size: u64) -> io::Result<()> {
        unsupported()
    }

    fn sync_all(&self) -> io::Result<()> {
        unsupported()
    }

    fn sync_data(&self) -> io::Result<()> {
        unsupported()
    }
}

fn unsupported<T>() -> io::Result<T> {
    Err(io::Error::from(io::ErrorKind::Unsupported))
}

impl<'a> Files for FakeFiles<'a> {
    type File = FakeFile<'a>;

    type Dir = FakeFile<'a>;

    fn open_file(&self, _how: &OpenOptions, _path: &str) -> io::Result<FakeFile<'a>> {
        self.call(FileCall::Open)?;
        Ok(FakeFile { files: *self })
    }

    fn open_dir(&self, _path: &str) -> io::Result<FakeFile<'a>> {
        unsupported()
    }

    fn metadata(&self, _path: &str) -> io::Result<Metadata> {
        unsupported()
    }

    fn symlink_metadata(&self, _path: &str) -> io::Result<Metadata> {
        unsupported()
    }

    fn copy(&self, _from: &str, _to: &str) -> io::Result<u64> {
        unsupported()
    }

    fn rename(&self, _from: &str, _to: &str) -> io::Result<()> {
        unsupported()
    }

    fn remove_file(&self, _path: &str) -> io::Result<()> {
        unsupported()
    }

    fn create_dir(&self, _path: &str) -> io::Result<()> {
        unsupported()
    }

    fn remove_dir(&self, _path: &str) -> io::Result<()> {
        unsupported()
    }

    fn remove_dir_all<B: Allocator>(&self, _alloc: B, _path: &str) -> io::Result<()> {
        unsupported()
    }

    // The bodies that std gives these do the same, and take five times as long to prove.
    fn canonicalize<B: Allocator>(&self, _alloc: B, _path: &str) -> io::Result<PathBuf<B>> {
        unsupported()
    }

    fn read_link<B: Allocator>(&self, _alloc: B, _path: &str) -> io::Result<PathBuf<B>> {
        unsupported()
    }

    fn hard_link(&self, _original: &str, _link: &str) -> io::Result<()> {
        unsupported()
    }

    fn set_permissions(&self, _path: &str, _perm: Permissions) -> io::Result<()> {
        unsupported()
    }

    fn symlink(&self, _original: &str, _link: &str) -> io::Result<()> {
        unsupported()
    }

    fn pipe(&self) -> io::Result<(PipeReader, PipeWriter)> {
        unsupported()
    }

    fn chown(&self, _path: &str, _uid: Option<u32>, _gid: Option<u32>) -> io::Result<()> {
        unsupported()
    }

    fn lchown(&self, _path: &str, _uid: Option<u32>, _gid: Option<u32>) -> io::Result<()> {
        unsupported()
    }

    fn create_dir_with_mode(&self, _path: &str, _mode: u32) -> io::Result<()> {
        unsupported()
    }

    fn bind_unix(&self, _socket: BorrowedFd<'_>, _addr: &SocketAddr) -> io::Result<()> {
        unsupported()
    }
}

fn kind_of<T>(outcome: io::Result<T>) -> Result<T, io::ErrorKind> {
    outcome.map_err(|error| error.kind())
}

/// The kinds with which a call fails in tests: each comes back, also the one that std's own loops would try again.
pub(crate) const KINDS: [io::ErrorKind; 2] = [io::ErrorKind::Other, io::ErrorKind::Interrupted];

#[test]
fn a_failed_read_comes_back_and_is_not_tried_again(rt: HostRuntime) {
    for kind in KINDS {
        let mut reader = make_device(Some(kind), 2);
        assert_same(&rt, kind_of(reader.pull(&mut [b'.'; 3])), Err(kind));
        assert_same(&rt, reader.into_inner().calls, 1);
    }
}

#[test]
fn a_failed_write_comes_back_and_is_not_tried_again(rt: HostRuntime) {
    for kind in KINDS {
        let mut writer = make_device(Some(kind), 2);
        assert_same(&rt, kind_of(writer.push(b"abc")), Err(kind));
        assert_same(&rt, writer.into_inner().calls, 1);
    }
}

#[test]
fn a_failed_flush_comes_back_and_is_not_tried_again(rt: HostRuntime) {
    for kind in KINDS {
        let mut writer = make_device(Some(kind), 2);
        assert_same(&rt, kind_of(writer.flush()), Err(kind));
        assert_same(&rt, writer.into_inner().flushes, 1);
    }
}

#[test]
fn a_flush_is_made_even_where_nothing_waits(rt: HostRuntime) {
    let mut writer = make_device(None, 2);
    for _ in 0..3 {
        assert_same(&rt, kind_of(writer.flush()), Ok(()));
    }
    assert_same(&rt, kind_of(writer.push(b"ab")), Ok(2));
    assert_same(&rt, kind_of(writer.flush()), Ok(()));
    let inner = writer.into_inner();
    assert_same(&rt, (inner.calls, inner.flushes), (1, 4));
}

#[test]
fn a_writer_that_takes_nothing_has_failed(rt: HostRuntime) {
    for (most, bytes, outcome) in [
        (0, &b"ab"[..], Err(io::ErrorKind::WriteZero)),
        (0, &b""[..], Ok(0)),
        (1, &b"ab"[..], Ok(1)),
        (9, &b"ab"[..], Ok(2)),
    ] {
        let mut writer = make_device(None, most);
        assert_same(&rt, kind_of(writer.push(bytes)), outcome);
        assert_same(&rt, kind_of(writer.flush()), Ok(()));
        let inner = writer.into_inner();
        assert_same(&rt, (inner.calls, inner.flushes), (1, 1));
    }
}
