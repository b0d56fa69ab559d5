// Whole texts, read from a source and written to a sink.
ghost use Rattle.std.specs.Prelude.{◌≡◌, ℕ, List, ◌+◌, ◌^◌, ◌<◌, ◌≤◌, ◌++◌, length, take, drop, [], IsSome, is_some, IfOk, OnOk, OnErr, IsErrOf};
ghost use Rattle.zms_dev.specs.Causes.{HasCauseOf};
ghost use Rattle.zms_dev.specs.Prints.{Prints};
ghost use Rattle.zms_dev.specs.Stream.{told, Moves};
ghost use Rattle.zms_dev.specs.declared.texts.ReadError.TheVariants.{Memory, Failed as ReadFailed};

use crate::filling::append;
use crate::{Failed, Sink, Source};
use std::alloc::{AllocError, Global};
use std::error::Error;
use std::fmt;

/// How many bytes are asked of a source at once.
const PIECE: usize = 65536;

/// Why a text was not read to its end.
#[derive(Clone, Copy, Debug, PartialEq, Eq)]
pub enum ReadError {
    Memory,
    Failed,
}

impl fmt::Display for ReadError {
    fn fmt<W: fmt::Write>(&self, f: &mut fmt::Formatter<W>) -> fmt::Result {
        match self {
            ReadError::Memory => write!(f, "out of memory"),
            ReadError::Failed => write!(f, "input failed"),
        }
    }
}

impl Error for ReadError {}

impl From<AllocError> for ReadError {
    ghost from_gives = { λ _ e. e ≡ Memory };

    fn from(_: AllocError) -> Self {
        ReadError::Memory
    }
}

impl From<Failed> for ReadError {
    ghost from_gives = { λ _ e. e ≡ ReadFailed };

    fn from(_: Failed) -> Self {
        ReadError::Failed
    }
}

/// Writes all the bytes, in as many calls as the sink needs. At `Err` it has taken some of the first of them.
pub fn write_whole<S: Sink>(sink: &mut S, bytes: &[u8]) -> Result<(), Failed>
    ensures { Prints (S.state sink.old) (S.state sink.new) bytes.now result }
{
    let mut written = 0;
    while written < bytes.len() {
        let n = sink.write(&bytes[written..])?;
        if n == 0 {
            return Err(Failed);
        }
        written += n;
    }
    Ok(())
}

/// Appends what the source has left to `into`, up to its end or until `limit + 1` bytes were read, so that a text
/// past the limit shows. It ends with the first read that fails. Whatever the answer, all that was read stands in
/// `into`. Linear in the bytes read.
pub fn read_text<S: Source>(
    alloc: Global,
    source: &mut S,
    into: &mut Vec<u8>,
    limit: usize,
) -> Result<(), ReadError>
    requires { limit + 1 < 2 ^ 64 }
    ensures text { IsSome ((S.state source.old).left) → OnOk result (into.new.items ≡ into.old.items ++ take (limit + 1) (told ((S.state source.old).left))) }
    ensures rest { IsSome ((S.state source.old).left) → OnOk result (told ((S.state source.new).left) ≡ drop (limit + 1) (told ((S.state source.old).left))) }
    ensures partly { IsSome ((S.state source.old).left) → (n : ℕ) × (n ≤ limit + 1) × Moves (told ((S.state source.old).left)) (told ((S.state source.new).left)) into.old.items into.new.items n }

    // Whatever the source does.
    ensures appends { (more : List ℕ) × (length more ≤ limit + 1) × (into.new.items ≡ into.old.items ++ more) }
    ensures kind { is_some ((S.state source.new).left) ≡ is_some ((S.state source.old).left) }

    ensures cause { HasCauseOf ReadError.Failed ReadError.Memory (S.state source.old).faults (S.state source.new).faults result }
{
    let mut piece = zeros(alloc, PIECE)?;
    read_pieces(source, &mut piece, into, limit + 1)
}

fn zeros(alloc: Global, count: usize) -> Result<Vec<u8>, AllocError>
    ensures { IfOk result (λ v. length v.items ≡ count) }
{
    vec![in alloc; 0u8; count]
}

// Reads through the buffer, until the source ends or `most` bytes were read.
fn read_pieces<S: Source>(
    source: &mut S,
    piece: &mut [u8],
    into: &mut Vec<u8>,
    most: usize,
) -> Result<(), ReadError>
    requires { 0 < length piece.old }
    ensures text { IsSome ((S.state source.old).left) → OnOk result (into.new.items ≡ into.old.items ++ take most (told ((S.state source.old).left))) }
    ensures rest { IsSome ((S.state source.old).left) → OnOk result (told ((S.state source.new).left) ≡ drop most (told ((S.state source.old).left))) }
    ensures partly { IsSome ((S.state source.old).left) → (n : ℕ) × (n ≤ most) × Moves (told ((S.state source.old).left)) (told ((S.state source.new).left)) into.old.items into.new.items n }
    ensures appends { (more : List ℕ) × (length more ≤ most) × (into.new.items ≡ into.old.items ++ more) }
    ensures kind { is_some ((S.state source.new).left) ≡ is_some ((S.state source.old).left) }
    ensures cause { HasCauseOf ReadError.Failed ReadError.Memory (S.state source.old).faults (S.state source.new).faults result }
{
    let mut taken = 0;
    while taken < most {
        let n = read_piece(source, piece, into, most - taken)?;
        if n == 0 {
            return Ok(());
        }
        taken += n;
    }
    Ok(())
}

// One piece of at most `most` bytes. The room for it is taken before the source is asked.
fn read_piece<S: Source>(
    source: &mut S,
    piece: &mut [u8],
    into: &mut Vec<u8>,
    most: usize,
) -> Result<usize, ReadError>
    requires some { 0 < length piece.old }
    requires more { 0 < most }
    ensures moves { IsSome ((S.state source.old).left) → IfOk result (Moves (told ((S.state source.old).left)) (told ((S.state source.new).left)) into.old.items into.new.items) }
    ensures ended { IsSome ((S.state source.old).left) → IfOk result (λ n. n ≡ 0 → told ((S.state source.old).left) ≡ []) }
    ensures appends { IfOk result (λ n. (more : List ℕ) × (length more ≡ n) × (into.new.items ≡ into.old.items ++ more)) }
    ensures bound { IfOk result (λ n. n ≤ most) }
    ensures err { OnErr result ((into.new.items ≡ into.old.items) × ((S.state source.new).left ≡ (S.state source.old).left)) }
    ensures kind { is_some ((S.state source.new).left) ≡ is_some ((S.state source.old).left) }
    ensures cause { HasCauseOf ReadError.Failed ReadError.Memory (S.state source.old).faults (S.state source.new).faults result }
{
    let wanted = most.min(piece.len());
    into.reserve(wanted)?;
    let n = source.read(&mut piece[..wanted])?;
    append(into, &piece[..n]);
    Ok(n)
}
