// A file system on which new files can be made, but nothing be written.

use std::alloc::Allocator;
use std::fs::{Metadata, OpenFile, OpenOptions};
use std::io::{self, ErrorKind, Read, Seek, SeekFrom, Write};
use std::path::PathBuf;
use std::rt::Files;

/// A system whose disk is full.
#[derive(Drop)]
pub struct FullDisk<R> {
    pub system: R,
}

/// One of its files.
#[derive(Drop)]
pub struct FullFile<F> {
    file: F,
}

impl<F: Read> Read for FullFile<F> {
    fn read(&mut self, buf: &mut [u8]) -> io::Result<usize> {
        self.file.read(buf)
    }
}

impl<F: Write> Write for FullFile<F> {
    fn write(&mut self, _buf: &[u8]) -> io::Result<usize> {
        Err(io::Error::from(ErrorKind::StorageFull))
    }

    fn flush(&mut self) -> io::Result<()> {
        Ok(())
    }
}

impl<F: Seek> Seek for FullFile<F> {
    fn seek(&mut self, to: SeekFrom) -> io::Result<u64> {
        self.file.seek(to)
    }
}

impl<F: OpenFile> OpenFile for FullFile<F> {
    fn metadata(&self) -> io::Result<Metadata> {
        self.file.metadata()
    }

    fn set_len(&self, size: u64) -> io::Result<()> {
        self.file.set_len(size)
    }

    fn sync_all(&self) -> io::Result<()> {
        self.file.sync_all()
    }

    fn sync_data(&self) -> io::Result<()> {
        self.file.sync_data()
    }
}

impl<R: Files> Files for FullDisk<R> {
    type File = FullFile<R::File>;

    type Dir = R::Dir;

    fn open_file(&self, how: &OpenOptions, path: &str) -> io::Result<FullFile<R::File>> {
        let file = self.system.open_file(how, path)?;
        Ok(FullFile { file })
    }

    fn open_dir(&self, path: &str) -> io::Result<R::Dir> {
        self.system.open_dir(path)
    }

    fn metadata(&self, path: &str) -> io::Result<Metadata> {
        self.system.metadata(path)
    }

    fn symlink_metadata(&self, path: &str) -> io::Result<Metadata> {
        self.system.symlink_metadata(path)
    }

    fn copy(&self, from: &str, to: &str) -> io::Result<u64> {
        self.system.copy(from, to)
    }

    fn rename(&self, from: &str, to: &str) -> io::Result<()> {
        self.system.rename(from, to)
    }

    fn remove_file(&self, path: &str) -> io::Result<()> {
        self.system.remove_file(path)
    }

    fn create_dir(&self, path: &str) -> io::Result<()> {
        self.system.create_dir(path)
    }

    fn remove_dir(&self, path: &str) -> io::Result<()> {
        self.system.remove_dir(path)
    }

    fn remove_dir_all<B: Allocator>(&self, alloc: B, path: &str) -> io::Result<()> {
        self.system.remove_dir_all(alloc, path)
    }

    fn canonicalize<B: Allocator>(&self, alloc: B, path: &str) -> io::Result<PathBuf<B>> {
        self.system.canonicalize(alloc, path)
    }
}
