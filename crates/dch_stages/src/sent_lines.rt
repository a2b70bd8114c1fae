ghost use Rattle.std.specs.Prelude.{◌≡◌, ◌<◌, ◌≤◌, ◌+◌, ◌*◌, ◌++◌, length};
ghost use Rattle.dch_types.specs.Parts.{side_of};
ghost use Rattle.dch_accept.specs.Cells.{code_cells, frame_cells};
ghost use Rattle.dch_stages.specs.FrameLines.{codes_in, codes_of, sent_line};

use crate::frame_lines::{put_code, put_interleaved_code, put_radio_frame, put_tfci};
use dch_accept::{Accepted, FrameView};
use dch_bits::Trit;
use dch_lines::Page;
use dch_types::Dir;

/// The most cells of a code in the uplink (TS 25.212 4.2.10).
const UPLINK_CODE: usize = 9600;

/// The codes of a radio frame, and the cells of each.
#[derive(Clone, Copy)]
pub struct Codes {
    pub count: usize,
    pub size: usize,
}

impl Codes {
    /// Those of the radio frames of a direction in a combination (TS 25.212 4.2.10).
    pub fn of(accepted: &Accepted, dir: Dir, combination: u16) -> Codes
        requires { combination < length (side_of accepted.now.config dir).combinations }
        ensures count { result.count ≡ codes_of accepted.now dir combination }
        ensures size { result.size ≡ code_cells accepted.now dir (frame_cells accepted.now dir combination) }
        ensures whole { result.count * result.size ≤ frame_cells accepted.now dir combination }
        ensures few { result.count ≤ 57600 }
    {
        // A radio frame has at most 57,600 cells.
        let _most = accepted.most_cells(dir);
        let cells = accepted.frame_cells(dir, combination);
        let size = code_size(accepted, dir, cells);
        let count = code_count(cells, size);
        Codes { count, size }
    }
}

/// How many codes of one size so many cells fill.
#[tactic(auto, using(crate::proofs::Codes::code_counts))]
fn code_count(cells: usize, size: usize) -> usize
    requires { 0 < cells → 0 < size }
    ensures value { result ≡ codes_in cells size }
    ensures whole { result * size ≤ cells }
    ensures few { result ≤ cells }
{
    if cells == 0 { 0 } else { cells / size }
}

/// The cells of a code of a radio frame of so many.
fn code_size(accepted: &Accepted, dir: Dir, cells: usize) -> usize
    ensures value { result ≡ code_cells accepted.now dir cells }
    ensures some { 0 < cells → 0 < result }
{
    match dir {
        Dir::Up => cells.min(UPLINK_CODE),
        Dir::Down => accepted.config().downlink.code_bits(),
    }
}

/// A radio frame, as it is multiplexed and as it is sent.
#[derive(Clone, Copy)]
pub struct SentFrame<'a> {
    pub multiplexed: &'a [Trit],
    pub view: FrameView<'a>,
    pub codes: Codes,
}

/// Adds line `k` of those behind the multiplexed cells of a radio frame.
#[tactic(auto, unfolding(crate::specs::FrameLines::sent_line))]
pub fn put_sent_line<P: Page>(page: &mut P, dir: Dir, frame: SentFrame<'_>, k: usize)
    requires same { length frame.view.cells.now ≡ length frame.multiplexed.now }
    requires codes { frame.codes.count * frame.codes.size ≤ length frame.multiplexed.now }
    ensures text { P.writes page.old (sent_line dir frame.entry.codes.count frame.entry.codes.size
        frame.entry.view.tfci.now frame.entry.multiplexed.now frame.entry.view.cells.now k) page.new }
{
    let Codes { count, size } = frame.codes;
    if k < count {
        put_code(page, frame.multiplexed, size, k);
    } else if k - count < count {
        put_interleaved_code(page, frame.view.cells, size, k - count);
    } else if k - 2 * count == 0 {
        put_tfci(page, frame.view.tfci);
    } else {
        put_radio_frame(page, dir, frame.view.tfci, frame.view.cells);
    }
}
