ghost use Rattle.std.specs.Prelude.{◌≡◌, ◌≢◌, ◌*◌, ◌/◌, ◌%◌, ◌^◌, ◌<◌, ◌≤◌, ℕ, length, slice_index_or};
ghost use Rattle.dch_inter.specs.Places.{first_column, frame_of, place_of};
ghost use Rattle.dch_types.specs.Limits.{IsFrames};
ghost use Rattle.dch_frame.specs.Stages.{segment_place};

use dch_inter::first;

/// Writes what radio frame `frame` carries of a TTI of so many radio frames (TS 25.212 4.2.5 and 4.2.6).
pub fn segment<T: Copy>(frames: usize, frame: usize, tti: &[T], out: &mut [T])
    requires frames { IsFrames frames }
    requires inside { frame < frames }
    requires whole { length tti.now ≡ length out.old * frames }
    ensures { (m : ℕ) (d : T) → m < length out.new →
        slice_index_or out.new m d ≡ slice_index_or tti.now (segment_place frames (length tti.now) frame m) d }
{
    if frames == 1 {
        out.copy_from_slice(tti);
    } else {
        read_column(frames, frame, tti, out);
    }
}

fn read_column<T: Copy>(frames: usize, frame: usize, tti: &[T], out: &mut [T])
    requires frames { IsFrames frames }
    requires inside { frame < frames }
    requires whole { length tti.now ≡ length out.old * frames }
    ensures { (m : ℕ) (d : T) → m < length out.new →
        slice_index_or out.new m d ≡ slice_index_or tti.now (segment_place frames (length tti.now) frame m) d }
{
    let column = column(frames, frame);
    for m in 0..out.len() {
        out[m] = tti[m * frames + column];
    }
}

/// Puts what radio frame `frame` carried to its places of the TTI. The other places stay.
pub fn put_segment<T: Copy>(frames: usize, frame: usize, segment: &[T], tti: &mut [T])
    requires frames { IsFrames frames }
    requires inside { frame < frames }
    requires whole { length tti.old ≡ length segment.now * frames }
    ensures carried { (i : ℕ) (d : T) → i < length tti.new → frame_of frames (length tti.new) i ≡ frame →
        slice_index_or tti.new i d ≡ slice_index_or segment.now (place_of frames (length tti.new) i) d }
    ensures same { (i : ℕ) (d : T) → i < length tti.new → frame_of frames (length tti.new) i ≢ frame →
        slice_index_or tti.new i d ≡ slice_index_or tti.old i d }
{
    if frames == 1 {
        tti.copy_from_slice(segment);
    } else {
        write_column(frames, frame, segment, tti);
    }
}

fn write_column<T: Copy>(frames: usize, frame: usize, segment: &[T], tti: &mut [T])
    requires frames { IsFrames frames }
    requires inside { frame < frames }
    requires whole { length tti.old ≡ length segment.now * frames }
    ensures carried { (i : ℕ) (d : T) → i < length tti.new → frame_of frames (length tti.new) i ≡ frame →
        slice_index_or tti.new i d ≡ slice_index_or segment.now (place_of frames (length tti.new) i) d }
    ensures same { (i : ℕ) (d : T) → i < length tti.new → frame_of frames (length tti.new) i ≢ frame →
        slice_index_or tti.new i d ≡ slice_index_or tti.old i d }
{
    let column = column(frames, frame);
    for m in 0..segment.len() {
        tti[m * frames + column] = segment[m];
    }
}

/// The column of the TTI that radio frame `frame` carries, as the place that it shows of as many places as frames.
fn column(frames: usize, frame: usize) -> usize
    requires frames { IsFrames frames }
    requires inside { frame < frames }
    ensures value { result ≡ first_column frames frame }
    ensures inside { result < frames }
{
    first(frames, frames, frame)
}
