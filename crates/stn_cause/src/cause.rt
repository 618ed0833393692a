ghost use Rattle.std.specs.Prelude.{◌≡◌};
ghost use Rattle.stn_cause.specs.Cause.{cause_of, cause_text};

use std::io::{Error, ErrorKind};

/// Why a file, a folder or an address can't be used.
#[derive(Clone, Copy, Debug, PartialEq, Eq)]
pub enum Cause {
    /// Nothing has the name.
    Missing,
    /// The user has no right to it.
    Forbidden,
    /// A folder has the name.
    Folder,
    /// What has the name is no file.
    NotFile,
    /// A part of the name before its end is no folder.
    BelowFile,
    /// The name is too long.
    LongName,
    /// Links lead to each other.
    Links,
    /// Something has the name already.
    There,
    /// The file has another name too.
    OtherName,
    /// The file is to be empty, and is not.
    NotEmpty,
    /// The file has too many bytes.
    TooLong,
    /// The disk can't be written.
    ReadOnly,
    /// The disk has no room.
    NoRoom,
    /// Another program changed it meanwhile.
    Changed,
    /// Another program uses the address.
    InUse,
    /// The address is not of this machine.
    Elsewhere,
    /// The address has not the form of one.
    NoAddress,
    /// Nobody serves at the address.
    Nobody,
    /// No way leads to the address.
    Unreachable,
    /// The time was over.
    Late,
    /// The other end went away.
    Left,
    /// A read failed.
    Unread,
    /// A write failed.
    Unwritten,
    /// The system says something else.
    Refused,
}

impl Cause {
    /// The cause of what the system answers.
    pub fn of(kind: ErrorKind) -> Cause
        ensures { result ≡ cause_of kind }
    {
        match kind {
            ErrorKind::NotFound => Cause::Missing,
            ErrorKind::PermissionDenied => Cause::Forbidden,
            ErrorKind::IsADirectory => Cause::Folder,
            ErrorKind::NotADirectory => Cause::BelowFile,
            ErrorKind::InvalidFilename => Cause::LongName,
            ErrorKind::FilesystemLoop => Cause::Links,
            ErrorKind::AlreadyExists => Cause::There,
            ErrorKind::ReadOnlyFilesystem => Cause::ReadOnly,
            ErrorKind::StorageFull | ErrorKind::QuotaExceeded => Cause::NoRoom,
            ErrorKind::AddrInUse => Cause::InUse,
            ErrorKind::AddrNotAvailable => Cause::Elsewhere,
            ErrorKind::ConnectionRefused => Cause::Nobody,
            ErrorKind::HostUnreachable | ErrorKind::NetworkUnreachable | ErrorKind::NetworkDown => {
                Cause::Unreachable
            }
            ErrorKind::TimedOut | ErrorKind::WouldBlock => Cause::Late,
            ErrorKind::BrokenPipe | ErrorKind::ConnectionReset | ErrorKind::ConnectionAborted => {
                Cause::Left
            }
            _ => Cause::Refused,
        }
    }

    /// What is said of it, after the name of the file, the folder or the address.
    pub fn text(self) -> &'static [u8]
        ensures { result.now ≡ cause_text self }
    {
        match self {
            Cause::Missing => b"no such file or folder",
            Cause::Forbidden => b"permission denied",
            Cause::Folder => b"is a folder",
            Cause::NotFile => b"is not a file",
            Cause::BelowFile => b"is below a file",
            Cause::LongName => b"the name is too long",
            Cause::Links => b"its links lead to each other",
            Cause::There => b"is there already",
            Cause::OtherName => b"has another name too",
            Cause::NotEmpty => b"is not empty",
            Cause::TooLong => b"has too many bytes",
            Cause::ReadOnly => b"is on a disk that can't be written",
            Cause::NoRoom => b"no room is left on the disk",
            Cause::Changed => b"another program changed it meanwhile",
            Cause::InUse => b"is in use",
            Cause::Elsewhere => b"is not an address of this machine",
            Cause::NoAddress => b"is not an address and a port (as 127.0.0.1:7000)",
            Cause::Nobody => b"nobody answers",
            Cause::Unreachable => b"can't be reached",
            Cause::Late => b"no answer in time",
            Cause::Left => b"the other end left",
            Cause::Unread => b"can't be read",
            Cause::Unwritten => b"can't be written",
            Cause::Refused => b"the system refuses it",
        }
    }
}

impl From<Error> for Cause {
    ghost use Rattle.std.specs.IoError.{error_kind};

    ghost from_gives = { λ error given. given ≡ cause_of (error_kind error) };

    fn from(error: Error) -> Cause {
        Cause::of(error.kind())
    }
}
