// Files of the system that get new bytes whole, or keep the old ones.

use crate::adapters::FileEnd;
use std::alloc::Global;
use std::fs::{self, File, OpenFile, OpenOptions, Permissions};
use std::io::{self, ErrorKind, Write};
use std::path::AsPath;
use std::rt::Files;

/// How many names beside a file are tried where there are files of these names.
const MOST_NAMES: u32 = 100;

/// Makes the bytes what the file of the name holds. A regular file is written beside its place and then renamed, so that it
/// keeps what it held where that fails; a link stays a link. What isn't a regular file, as a device, is written into.
pub(crate) fn write_whole<R: Files>(
    alloc: Global,
    system: &R,
    name: &str,
    bytes: &[u8],
) -> Result<(), FileEnd> {
    match fs::metadata(system, name) {
        Ok(found) if found.is_file() => {
            OpenOptions::new().write(true).open(system, name)?;
            let place = system.canonicalize(alloc, name)?;
            write_beside(
                alloc,
                system,
                place.path_text(),
                bytes,
                Some(found.permissions()),
            )
        }
        Err(error) if error.kind() == ErrorKind::NotFound && !is_there(system, name) => {
            write_beside(alloc, system, name, bytes, None)
        }
        _ => write_into(system, name, bytes),
    }
}

// Whether the name itself is one, though it may be a link to nothing.
fn is_there<R: Files>(system: &R, name: &str) -> bool {
    fs::symlink_metadata(system, name).is_ok()
}

fn write_into<R: Files>(system: &R, name: &str, bytes: &[u8]) -> Result<(), FileEnd> {
    let mut file = fs::create(system, name)?;
    file.write_all(bytes)?;
    Ok(())
}

fn write_beside<R: Files>(
    alloc: Global,
    system: &R,
    place: &str,
    bytes: &[u8],
    permissions: Option<Permissions>,
) -> Result<(), FileEnd> {
    for number in 0..MOST_NAMES {
        let beside = format!(in alloc; "{place}.{number}.new")?;
        match File::create_new(system, beside.as_str()) {
            Ok(file) => {
                let names = (beside.as_str(), place);
                return replace(system, file, names, bytes, permissions);
            }
            Err(error) if error.kind() == ErrorKind::AlreadyExists => {}
            Err(error) => return Err(error)?,
        }
    }
    Err(FileEnd::System(ErrorKind::AlreadyExists))
}

// Fills the new file, which has the first name, and gives it the second one; where that fails it is removed.
fn replace<R: Files>(
    system: &R,
    mut file: R::File,
    (beside, place): (&str, &str),
    bytes: &[u8],
    permissions: Option<Permissions>,
) -> Result<(), FileEnd> {
    let filled = fill(&mut file, bytes, permissions);
    match filled.and_then(|()| fs::rename(system, beside, place)) {
        Ok(()) => Ok(()),
        Err(error) => {
            // That this file can't be removed either tells nothing new.
            let _ = fs::remove_file(system, beside);
            Err(error)?
        }
    }
}

fn fill<F: Write + OpenFile>(
    file: &mut F,
    bytes: &[u8],
    permissions: Option<Permissions>,
) -> io::Result<()> {
    file.write_all(bytes)?;
    if let Some(permissions) = permissions {
        file.set_permissions(permissions)?;
    }
    file.sync_all()
}
