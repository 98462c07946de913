// Whole texts in and out.
ghost use Rattle.std.specs.Prelude.{◌≡◌, ◌≤◌, ◌<◌, ◌+◌, vec_len, length, IfOk, IfSome, OnOk, OnErr, OnSome, IsErrOf, take};
ghost use Rattle.outside.specs.Counts.{ChangesReads, ChangesWrites, NoneFalls, Rose};
ghost use Rattle.outside.specs.Known.{WhereKnown};
ghost use Rattle.outside.specs.Files.{bytes_in, HoldsAll, HoldsFirst};
ghost use Rattle.outside.specs.Sink.{Adds, AddsSome};

use crate::{Files, Refusal, Sink};
use std::alloc::{AllocError, Global};
use thiserror::Error;

/// The most bytes that an input file may have, whatever its format.
pub const LONGEST_TEXT: u64 = 1 << 28;

// As many bytes are read at once as were read so far, within these two.
const SMALLEST_PIECE: usize = 1 << 16;

const LARGEST_PIECE: usize = 1 << 22;

/// Why a whole file was not read.
#[derive(Clone, Copy, Debug, PartialEq, Eq, Error)]
pub enum ReadError {
    /// A read of the file failed.
    #[error("the file cannot be read")]
    ReadFault,
    /// The file has more bytes than the limit.
    #[error("the file is too long")]
    TooLong,
    /// There was no memory.
    #[error("out of memory")]
    Want,
}

/// Why bytes were not written.
#[derive(Clone, Copy, Debug, PartialEq, Eq, Error)]
pub enum WriteError {
    /// A write failed.
    #[error("the bytes cannot be written")]
    WriteFault,
    /// There was no memory.
    #[error("out of memory")]
    Want,
}

impl From<Refusal> for ReadError {
    ghost use Rattle.std.specs.Prelude.{◌≡◌};
    ghost use Rattle.outside.specs.Whole.{read_error_of};

    ghost from_gives = { λ refusal e. e ≡ read_error_of refusal };

    fn from(refusal: Refusal) -> ReadError {
        match refusal {
            Refusal::Failed => ReadError::ReadFault,
            Refusal::Want => ReadError::Want,
        }
    }
}

impl From<AllocError> for ReadError {
    ghost use Rattle.std.specs.Prelude.{◌≡◌};
    ghost use Rattle.outside.specs.declared.whole.ReadError.TheVariants.{Want};

    ghost from_gives = { λ _ e. e ≡ Want };

    fn from(_: AllocError) -> ReadError {
        ReadError::Want
    }
}

impl From<Refusal> for WriteError {
    ghost use Rattle.std.specs.Prelude.{◌≡◌};
    ghost use Rattle.outside.specs.Whole.{write_error_of};

    ghost from_gives = { λ refusal e. e ≡ write_error_of refusal };

    fn from(refusal: Refusal) -> WriteError {
        match refusal {
            Refusal::Failed => WriteError::WriteFault,
            Refusal::Want => WriteError::Want,
        }
    }
}

/// Reads a whole file of at most `limit` bytes.
///
/// `TooLong` where it has more, `ReadFault` where a read failed.
/// A file that grows or shrinks between two reads gives the bytes that the reads gave.
pub fn read_whole<F: Files>(
    alloc: Global,
    files: &mut F,
    name: &str,
    limit: u64,
) -> Result<Vec<u8>, ReadError>
    ensures bytes { IfOk result
        (λ bytes. IfSome (F.known files.old) (λ held. bytes.items ≡ bytes_in held name.now)) }
    ensures within { IfOk result (λ bytes. vec_len bytes ≤ limit) }
    ensures too_long { IsErrOf result ReadError.TooLong
        → IfSome (F.known files.old) (λ held. limit < length (bytes_in held name.now)) }
    ensures fault { IsErrOf result ReadError.ReadFault
        → Rose (F.counts files.old).faults (F.counts files.new).faults }
    ensures fault_of_name { IsErrOf result ReadError.ReadFault
        → OnSome (F.known files.old)
        (Rose ((F.counts files.old).reads name.now) ((F.counts files.new).reads name.now)) }

    // No file changes. No count falls, none of another name changes, and none at all where the file was read or is too
    // long.
    ensures kept { F.known files.new ≡ F.known files.old }
    ensures none_falls { NoneFalls (F.counts files.old) (F.counts files.new) }
    ensures only { ChangesReads name.now (F.counts files.old) (F.counts files.new) }
    ensures calm { OnOk result (F.counts files.new ≡ F.counts files.old) }
    ensures calm_too_long { IsErrOf result ReadError.TooLong → F.counts files.new ≡ F.counts files.old }
{
    let mut bytes = Vec::new(alloc);
    let mut filled = 0;
    while filled as u64 <= limit {
        make_room(&mut bytes, filled, limit)?;
        let count = files.read_at(name, filled as u64, &mut bytes[filled..])?;
        if count == 0 {
            bytes.truncate(filled);
            return Ok(bytes);
        }
        filled += count;
    }
    Err(ReadError::TooLong)
}

// Makes room for the next read where there is none, up to one byte more than the limit.
fn make_room(bytes: &mut Vec<u8>, filled: usize, limit: u64) -> Result<(), AllocError>
    requires filled { filled ≤ vec_len bytes.old }
    requires below { filled ≤ limit }
    requires within { vec_len bytes.old ≤ limit + 1 }
    ensures room { OnOk result (filled < vec_len bytes.new) }
    ensures within { OnOk result (vec_len bytes.new ≤ limit + 1) }
    ensures kept { OnOk result (take filled bytes.new.items ≡ take filled bytes.old.items) }
{
    if filled == bytes.len() {
        let left = limit - filled as u64;
        let piece = filled.clamp(SMALLEST_PIECE, LARGEST_PIECE) as u64;
        let more = left.min(piece - 1) as usize + 1;
        bytes.resize(filled + more, 0)?;
    }
    Ok(())
}

/// Writes all the bytes.
///
/// `WriteFault` where a write failed. After a refusal the first bytes, perhaps none, were written.
pub fn send<O: Sink>(out: &mut O, bytes: &[u8]) -> Result<(), WriteError>
    ensures sent { OnOk result (WhereKnown (Adds bytes.now) (O.known out.old) (O.known out.new)) }
    ensures part { OnErr result (WhereKnown (AddsSome bytes.now) (O.known out.old) (O.known out.new)) }
    ensures calm { OnOk result (O.faults out.new ≡ O.faults out.old) }
    ensures none_falls { O.faults out.old ≤ O.faults out.new }
    ensures fault { IsErrOf result WriteError.WriteFault → Rose (O.faults out.old) (O.faults out.new) }
{
    let mut sent = 0;
    while sent < bytes.len() {
        sent += out.write(&bytes[sent..])?;
    }
    Ok(())
}

/// Writes a whole file: makes it anew, in the place of the one that was there, and adds all the bytes.
///
/// `WriteFault` where it could not be made or a write failed. After a refusal the file was not made, or holds the first
/// of the bytes, perhaps none.
pub fn write_whole<F: Files>(files: &mut F, name: &str, bytes: &[u8]) -> Result<(), WriteError>
    ensures written { OnOk result (WhereKnown (HoldsAll name.now bytes.now) (F.known files.old) (F.known files.new)) }
    ensures part { OnErr result (WhereKnown (HoldsFirst name.now bytes.now) (F.known files.old) (F.known files.new)) }
    ensures fault { IsErrOf result WriteError.WriteFault
        → Rose (F.counts files.old).faults (F.counts files.new).faults }
    ensures fault_of_name { IsErrOf result WriteError.WriteFault
        → OnSome (F.known files.old)
        (Rose ((F.counts files.old).writes name.now) ((F.counts files.new).writes name.now)) }

    // No count falls, none of another name changes, and none at all where the file was written.
    ensures none_falls { NoneFalls (F.counts files.old) (F.counts files.new) }
    ensures only { ChangesWrites name.now (F.counts files.old) (F.counts files.new) }
    ensures calm { OnOk result (F.counts files.new ≡ F.counts files.old) }
{
    files.create(name)?;
    let mut added = 0;
    while added < bytes.len() {
        added += files.append(name, &bytes[added..])?;
    }
    Ok(())
}
