ghost use Rattle.std.specs.Prelude.{◌≡◌, ◌≤◌, length, OnOk, OnErr, IfOk};
ghost use Rattle.std.specs.Io.KnownBytes.{Appends};
ghost use Rattle.dch_io.specs.Ends.{Breaks, end_of};
ghost use Rattle.dch_io.specs.Pieces.{LIMIT, PIECE, ReadsOn};

use crate::{Failed, Sink, Source};
use dch_bits::NoMemory;
use std::alloc::Global;

/// The most bytes that a run takes.
pub const LIMIT: usize = 67_108_864;

/// The most bytes that a run reads at a time.
pub const PIECE: usize = 65_536;

/// The sink failed.
#[derive(Clone, Copy)]
pub struct WriteFailed;

/// What a run took before the lines of a script.
#[derive(Clone, Copy)]
pub struct InputOffset {
    pub bytes: usize,
    pub lines: u64,
}

/// What was read of an input and not followed yet: the bytes of the piece from `from` to `to`.
#[derive(Clone, Copy)]
pub struct Pending {
    pub from: usize,
    pub to: usize,
    /// Whether the input has ended with them.
    pub at_end: bool,
}

/// Why the next piece of an input doesn't come.
#[derive(Clone, Copy)]
pub enum ReadStop {
    /// The source failed.
    Failed,
    /// More than 67,108,864 bytes came in.
    TooLong,
}

/// A buffer for a piece.
pub fn new_piece(alloc: Global) -> Result<Vec<u8>, NoMemory>
    ensures { IfOk result (λ piece. length piece.items ≡ PIECE) }
{
    match vec![in alloc; 0; PIECE] {
        Ok(piece) => Ok(piece),
        Err(_) => Err(NoMemory),
    }
}

/// Reads the next piece of an input of which so many bytes came to the front of `room`, and answers its length: 0 at
/// the end of the input. Where as many bytes came as may come, just one more is looked for.
pub fn read_next<S: Source>(
    source: &mut S,
    room: &mut [u8],
    count: usize,
) -> Result<usize, ReadStop>
    requires room { length room.old ≡ PIECE }
    requires within { count ≤ LIMIT }
    ensures reads { ReadsOn (end_of S.left S.faults source.old source.new) count room.new result }
    ensures later { S.faults source.old ≤ S.faults source.new }
{
    let most = PIECE.min((LIMIT - count).max(1));
    match source.read(&mut room[..most]) {
        Ok(read) if count + read > LIMIT => Err(ReadStop::TooLong),
        Ok(read) => Ok(read),
        Err(Failed) => Err(ReadStop::Failed),
    }
}

/// Writes all of `text`.
#[tactic(auto, using(crate::proofs::Bytes::written_more, crate::proofs::Bytes::breaks_at))]
pub fn write_all<K: Sink>(sink: &mut K, text: &[u8]) -> Result<(), WriteFailed>
    ensures ok { OnOk result (Appends (K.taken sink.old) (K.taken sink.new) text.now) }
    ensures err { OnErr result (Breaks (end_of K.taken K.faults sink.old sink.new) text.now) }
    ensures later { K.faults sink.old ≤ K.faults sink.new }
{
    let mut taken = 0;
    while taken < text.len() {
        match sink.write(&text[taken..]) {
            Ok(count) => taken += count,
            Err(Failed) => return Err(WriteFailed),
        }
    }
    Ok(())
}
