ghost use Rattle.std.specs.{Prelude.{◌≡◌, ◌≢◌, ◌<◌, ◌≤◌, ◌+◌, length, Err, OnOk, OnErr, IfOk, IfSome, IsErrOf}, Io.KnownBytes.{Appends, Consumes, IsAtEnd}};
ghost use Rattle.stn_refusal.specs.declared.failure.Failure.TheVariants.{Failed};
ghost use Rattle.stn_refusal.specs.declared.failure.Fault.TheVariants as device;
ghost use Rattle.stn_device.specs.{Counted.{counted_device, CountsFailure, KeepsCount}, Bytes.{ConsumesAtMost, AppendsPart, UsesUpTo}, declared.whole.ReadFault.TheVariants.Memory, Failures.read_failure};

use crate::counted::Counted;
use std::alloc::{AllocError, Allocator};
use std::io::{Read, Write};
use stn_refusal::{Failure, Fault};
use thiserror::Error;

/// How many bytes a script, the input of a shell, a session, a log or a stream of replies has at most.
pub const MOST_BYTES: usize = 16_777_216;

/// How many bytes one call of a reader is asked for at most.
const PIECE: usize = 4096;

/// Why an input could not be read whole.
#[derive(Clone, Copy, Debug, Error)]
pub enum ReadFault {
    /// A call of the reader failed.
    #[error("a read failed")]
    Read,
    /// The input is longer than its limit.
    #[error("the input is too long")]
    Bound,
    /// Memory was refused.
    #[error("out of memory")]
    Memory,
}

impl From<AllocError> for ReadFault {
    ghost from_gives = { λ _ fault. fault ≡ Memory };

    fn from(_error: AllocError) -> ReadFault {
        ReadFault::Memory
    }
}

impl From<ReadFault> for Failure {
    ghost from_gives = { λ fault given. given ≡ read_failure fault };

    fn from(fault: ReadFault) -> Failure {
        match fault {
            ReadFault::Read => Failure::Failed(Fault::Read),
            ReadFault::Bound => Failure::Failed(Fault::Bound),
            ReadFault::Memory => Failure::Failed(Fault::Memory),
        }
    }
}

/// A call of the writer failed, or took none of the bytes that were left.
#[derive(Clone, Copy, Debug, PartialEq, Eq, Error)]
#[error("a write failed")]
pub struct WriteFault;

impl From<WriteFault> for Failure {
    ghost from_gives = { λ _ given. given ≡ Failed device.Write };

    fn from(_fault: WriteFault) -> Failure {
        Failure::Failed(Fault::Write)
    }
}

/// Reads an input to its end, which comes after at most `limit` bytes. At the limit it asks for one byte more,
/// which shows that the input is longer. The first failed call is the answer, an interrupted one too.
pub fn read_whole<R: Read, A: Allocator>(
    alloc: A,
    reader: &mut Counted<R>,
    limit: usize,
) -> Result<Vec<u8, A>, ReadFault>
    ensures bytes { IfOk result (λ bytes. Consumes (R.remaining (counted_device reader.old))
        (R.remaining (counted_device reader.new)) bytes.items) }
    ensures within { IfOk result (λ bytes. length bytes.items ≤ limit) }
    ensures end { OnOk result (IsAtEnd (R.remaining (counted_device reader.new))) }

    ensures read { IsErrOf result ReadFault.Read → CountsFailure reader.old reader.new }
    ensures kept { result ≢ Err ReadFault.Read → KeepsCount reader.old reader.new }
    ensures bound { IsErrOf result ReadFault.Bound
        → IfSome (R.remaining (counted_device reader.old)) (λ input. limit < length input) }
    ensures used { ConsumesAtMost (R.remaining (counted_device reader.old))
        (R.remaining (counted_device reader.new)) (limit + 1) }
{
    let mut bytes = Vec::new(alloc);
    let mut piece = [0u8; PIECE];
    while bytes.len() < limit {
        let room = PIECE.min(limit - bytes.len());
        match reader.read(&mut piece[..room]) {
            Ok(0) => return Ok(bytes),
            Ok(count) => bytes.extend_from_slice(&piece[..count])?,
            Err(_) => return Err(ReadFault::Read),
        }
    }
    let mut beyond = [0u8; 1];
    match reader.read(&mut beyond) {
        Ok(0) => Ok(bytes),
        Ok(_) => Err(ReadFault::Bound),
        Err(_) => Err(ReadFault::Read),
    }
}

/// Writes all of `bytes`, call after call. The first failed call is the answer, an interrupted one too.
pub fn write_whole<W: Write>(writer: &mut Counted<W>, bytes: &[u8]) -> Result<(), WriteFault>
    ensures written { OnOk result (Appends (W.contents (counted_device writer.old))
        (W.contents (counted_device writer.new)) bytes.now) }
    ensures part { OnErr result (AppendsPart (W.contents (counted_device writer.old))
        (W.contents (counted_device writer.new)) bytes.now) }
    ensures failed { OnErr result (CountsFailure writer.old writer.new) }
    ensures kept { OnOk result (KeepsCount writer.old writer.new) }
{
    let mut rest = bytes;
    while !rest.is_empty() {
        match writer.write(rest) {
            Ok(0) => return Err(WriteFault),
            Ok(count) => rest = &rest[count..],
            Err(_) => return Err(WriteFault),
        }
    }
    Ok(())
}

/// Reads and drops what comes, to the end or the first failed call, at most `limit` bytes.
pub fn drain<R: Read>(reader: &mut Counted<R>, limit: usize)
    ensures { UsesUpTo R.remaining limit reader.old reader.new }
{
    let mut piece = [0u8; PIECE];
    let mut left = limit;
    while left > 0 {
        let room = PIECE.min(left);
        match reader.read(&mut piece[..room]) {
            Ok(0) => return,
            Ok(count) => left -= count,
            Err(_) => return,
        }
    }
}
