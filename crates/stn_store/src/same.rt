//! Which file has a name.

use std::fs::{self, File};
use std::io::{self, ErrorKind};
use std::os::unix::fs::MetadataExt;
use std::rt::Files;

/// Whether a name is that of an open file, and no link to it.
pub fn has_name<T: Files>(rt: &T, file: &File, name: &str) -> io::Result<bool> {
    let opened = file.metadata()?;
    match fs::symlink_metadata(rt, name) {
        Ok(there) => Ok(there.dev() == opened.dev() && there.ino() == opened.ino()),
        Err(error) if error.kind() == ErrorKind::NotFound => Ok(false),
        Err(error) => Err(error),
    }
}

/// Whether nothing has a name.
pub fn is_free<T: Files>(rt: &T, name: &str) -> io::Result<bool> {
    match fs::symlink_metadata(rt, name) {
        Ok(_) => Ok(false),
        Err(error) if error.kind() == ErrorKind::NotFound => Ok(true),
        Err(error) => Err(error),
    }
}
