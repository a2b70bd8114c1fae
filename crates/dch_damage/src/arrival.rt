ghost use Rattle.std.specs.Prelude.{◌≡◌, length, replicate};

/// What became of a frame that was hit by the damage that waited.
#[derive(Clone, Copy)]
pub enum Arrival {
    /// It arrives as it was sent, and nothing does where nothing was sent.
    AsSent,
    /// It is lost.
    Lost,
    /// It arrives, perhaps otherwise than it was sent.
    Damaged,
}

/// Writes one value to each place.
pub fn clear<T: Copy>(list: &mut [T], value: T)
    ensures { list.new ≡ replicate (length list.old) value }
{
    for i in 0..list.len() {
        list[i] = value;
    }
}
