use crate::full_disk::FullDisk;
use command_line::{FileShelf, InSource, OutSink};
use rr_base::{Failed, Shelf, ShelfEnd, Sink, SinkEnd, Source};
use std::io::{self, ErrorKind, Read, Write};
use std::os::unix::fs::symlink;
use std::test::Fail;
use std::time::Instant;
use std::{env, fs};

// A reader that fails at once, and a writer that does so or takes nothing.
#[derive(Drop)]
struct Broken;

#[derive(Drop)]
struct Full;

impl Read for Broken {
    fn read(&mut self, _buf: &mut [u8]) -> io::Result<usize> {
        Err(io::Error::from(ErrorKind::TimedOut))
    }
}

impl Write for Broken {
    fn write(&mut self, _buf: &[u8]) -> io::Result<usize> {
        Err(io::Error::from(ErrorKind::BrokenPipe))
    }

    fn flush(&mut self) -> io::Result<()> {
        Ok(())
    }
}

impl Write for Full {
    fn write(&mut self, _buf: &[u8]) -> io::Result<usize> {
        Ok(0)
    }

    fn flush(&mut self) -> io::Result<()> {
        Ok(())
    }
}

#[test]
fn files_are_kept(rt: HostRuntime) -> Result<(), Fail> {
    let alloc = rt.alloc();
    let folder = env::temp_dir(&rt)?;
    let folder = folder.as_str();
    let now = Instant::now(&rt)?;
    let name = format!(in alloc; "{folder}/answers {now:?}")?;
    let mut shelf = FileShelf::new(&rt);
    assert!(rt; matches!(shelf.get(alloc, &name, 9), Err(ShelfEnd::Failed)));
    shelf.put(alloc, &name, b"a longer content")?;
    shelf.put(alloc, &name, b"12345")?;
    assert_eq!(rt; shelf.get(alloc, &name, 5)?.as_slice(), b"12345".as_slice());
    assert_eq!(rt; shelf.get(alloc, &name, 3)?.as_slice(), b"1234".as_slice());
    fs::remove_file(&rt, &name)?;
    Ok(())
}

#[test]
fn a_folder_is_no_file(rt: HostRuntime) -> Result<(), Fail> {
    let alloc = rt.alloc();
    let folder = env::temp_dir(&rt)?;
    let mut shelf = FileShelf::new(&rt);
    assert!(rt; matches!(shelf.get(alloc, folder.as_str(), 9), Err(ShelfEnd::Failed)));
    assert_eq!(rt;
        shelf.put(alloc, folder.as_str(), b"a"),
        Err(ShelfEnd::Failed)
    );
    Ok(())
}

#[test]
fn a_full_disk_leaves_the_old_file_whole(rt: HostRuntime) -> Result<(), Fail> {
    let alloc = rt.alloc();
    let folder = env::temp_dir(&rt)?;
    let folder = folder.as_str();
    let now = Instant::now(&rt)?;
    let name = format!(in alloc; "{folder}/answers full {now:?}")?;
    FileShelf::new(&rt).put(alloc, &name, b"the old content")?;
    let mut shelf = FileShelf::new(FullDisk { system: &rt });
    assert_eq!(rt; shelf.put(alloc, &name, b"new"), Err(ShelfEnd::Failed));
    let mut shelf = FileShelf::new(&rt);
    assert_eq!(rt;
        shelf.get(alloc, &name, 99)?.as_slice(),
        b"the old content".as_slice()
    );
    let beside = format!(in alloc; "{name}.0.new")?;
    assert!(rt; !fs::exists(&rt, beside.as_str())?);
    fs::remove_file(&rt, &name)?;
    Ok(())
}

#[test]
fn a_file_of_the_name_beside_is_kept(rt: HostRuntime) -> Result<(), Fail> {
    let alloc = rt.alloc();
    let folder = env::temp_dir(&rt)?;
    let folder = folder.as_str();
    let now = Instant::now(&rt)?;
    let name = format!(in alloc; "{folder}/answers beside {now:?}")?;
    let beside = format!(in alloc; "{name}.0.new")?;
    let mut shelf = FileShelf::new(&rt);
    fs::write(&rt, beside.as_str(), b"somebody's")?;
    shelf.put(alloc, &name, b"12345")?;
    assert_eq!(rt; shelf.get(alloc, &name, 9)?.as_slice(), b"12345".as_slice());
    assert_eq!(rt;
        shelf.get(alloc, &beside, 99)?.as_slice(),
        b"somebody's".as_slice()
    );
    fs::remove_file(&rt, &name)?;
    fs::remove_file(&rt, &beside)?;
    Ok(())
}

#[test]
fn a_link_stays_one(rt: HostRuntime) -> Result<(), Fail> {
    let alloc = rt.alloc();
    let folder = env::temp_dir(&rt)?;
    let folder = folder.as_str();
    let now = Instant::now(&rt)?;
    let name = format!(in alloc; "{folder}/answers linked {now:?}")?;
    let link = format!(in alloc; "{name}.link")?;
    let mut shelf = FileShelf::new(&rt);
    shelf.put(alloc, &name, b"old")?;
    symlink(&rt, name.as_str(), link.as_str())?;
    shelf.put(alloc, &link, b"new")?;
    assert!(rt; fs::symlink_metadata(&rt, link.as_str())?.is_symlink());
    assert_eq!(rt; shelf.get(alloc, &name, 9)?.as_slice(), b"new".as_slice());
    fs::remove_file(&rt, &link)?;
    fs::remove_file(&rt, &name)?;
    Ok(())
}

#[test]
fn a_device_is_written_into(rt: HostRuntime) -> Result<(), Fail> {
    let alloc = rt.alloc();
    let mut shelf = FileShelf::new(&rt);
    shelf.put(alloc, "/dev/null", b"12345")?;
    assert!(rt; !fs::metadata(&rt, "/dev/null")?.is_file());
    assert_eq!(rt;
        shelf.put(alloc, "/dev/full", b"12345"),
        Err(ShelfEnd::Failed)
    );
    Ok(())
}

#[test]
fn streams_end_and_fail(rt: HostRuntime) -> Result<(), Fail> {
    let alloc = rt.alloc();
    let mut into = [0; 4];
    let mut source = InSource::new(b"hello".as_slice());
    assert_eq!(rt; source.read(&mut into), Ok(4));
    assert_eq!(rt; into, *b"hell");
    assert_eq!(rt; source.read(&mut into), Ok(1));
    assert_eq!(rt; source.read(&mut into), Ok(0));
    assert_eq!(rt; InSource::new(Broken).read(&mut into), Err(Failed));
    assert_eq!(rt; OutSink::new(Vec::new(alloc)).write(alloc, b"hello"), Ok(5));
    assert_eq!(rt; OutSink::new(Full).write(alloc, b""), Ok(0));
    assert_eq!(rt; OutSink::new(Full).write(alloc, b"a"), Err(SinkEnd::Failed));
    assert_eq!(rt;
        OutSink::new(Broken).write(alloc, b"a"),
        Err(SinkEnd::Failed)
    );
    Ok(())
}
