//! Where a path of the system itself leads. No clause can speak of it.
use crate::place::{Node, Place};
use std::os::unix::fs::MetadataExt;
use std::path::Path;
use std::{fs, io};

/// Where a path leads: to a file, or to a name in a folder that has no such file yet.
pub(crate) fn place_at(rt: &HostRuntime, path: &str) -> io::Result<Place> {
    match fs::canonicalize(rt, path) {
        Ok(real) => place_of_file(rt, real.into_string()),
        Err(error) => match error.kind() {
            io::ErrorKind::NotFound => place_of_name(rt, path),
            _ => Err(error),
        },
    }
}

/// The place of the file at a path that has no link in it.
fn place_of_file(rt: &HostRuntime, path: String) -> io::Result<Place> {
    let metadata = fs::metadata(rt, path.as_str())?;
    let node = Some(Node {
        device: metadata.dev(),
        number: metadata.ino(),
    });
    Ok(Place { path, node })
}

/// The place of a path that no file is at: its name, in the folder that it names.
fn place_of_name(rt: &HostRuntime, path: &str) -> io::Result<Place> {
    let (Some(folder), Some(name)) = (folder_of(path), Path::new(path).file_name()) else {
        return Err(io::Error::from(io::ErrorKind::NotFound));
    };
    let mut real = fs::canonicalize(rt, folder)?;
    real.push(name)?;
    let path = real.into_string();
    let node = None;
    Ok(Place { path, node })
}

/// The folder that a path names, `.` where it has a name alone.
fn folder_of(path: &str) -> Option<&str> {
    let folder = Path::new(path).parent()?.as_os_str();
    match folder.is_empty() {
        true => Some("."),
        false => Some(folder),
    }
}
