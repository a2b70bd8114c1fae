ghost use Rattle.std.specs.Prelude.{◌≡◌, ◌<◌, ◌≤◌, ℕ, List, length, IfOk};
ghost use Rattle.std.specs.Io.{ReadsAtMost, WritesAtMost};
ghost use Rattle.std.specs.Io.KnownBytes.{ReadConsumes, WriteAppends};
ghost use Rattle.std.specs.declared.option.Option.{Option};
ghost use Rattle.dch_io.specs.Causes.{HasCause, TakesSome};

/// The outside failed: a read or a write was not made. The count of faults of the source or sink has risen, or stands
/// at its greatest value.
#[derive(Clone, Copy, Debug, PartialEq, Eq)]
pub struct Failed;

/// Where bytes come from.
///
/// A source counts its faults, and may tell the bytes that it has left.
pub trait Source {
    /// The bytes that reads will give from here on, where the source knows them.
    ghost left: { Self → Option (List ℕ) };

    /// How often the source has failed: from 0 to 2^64 - 1, and never less than before.
    ghost faults: { Self → ℕ };

    /// Reads the next bytes to the front of `into`, and answers how many. None come only at the end of the input, or
    /// where
    /// `into` is empty.
    fn read(&mut self, into: &mut [u8]) -> Result<usize, Failed>
        ensures bound { ReadsAtMost result into.new }
        ensures bytes { ReadConsumes (left self.old) (left self.new) result into.new }
        ensures cause { HasCause (faults self.old) (faults self.new) result };
}

/// Where bytes go.
///
/// A sink counts its faults, and may tell the bytes that it took.
pub trait Sink {
    /// The bytes taken so far, where the sink knows them.
    ghost taken: { Self → Option (List ℕ) };

    /// How often the sink has failed: from 0 to 2^64 - 1, and never less than before.
    ghost faults: { Self → ℕ };

    /// Takes a front of `piece`, at least one byte of it unless it is empty.
    fn write(&mut self, piece: &[u8]) -> Result<usize, Failed>
        ensures bound { WritesAtMost result piece.now }
        ensures some { TakesSome result piece.now }
        ensures bytes { WriteAppends (taken self.old) (taken self.new) result piece.now }
        ensures cause { HasCause (faults self.old) (faults self.new) result };
}
