ghost use Rattle.std.specs.Prelude.{◌≡◌, ◌<◌, length, IfOk};
ghost use Rattle.dch_types.specs.Parts.{channel_at, side_of};
ghost use Rattle.dch_accept.specs.Blocks.{HoldsTtis};
ghost use Rattle.dch_bench.specs.Trips.{AreNoted, IsTripOf};

use crate::carry::carry;
use crate::ends::Ends;
use crate::given::{are_given, fits, give, note, nothing};
use dch_accept::{Accepted, PhyFrame, TtiBlocks};
use dch_bits::NoMemory;
use dch_tti::TtiOutcome;
use dch_types::{ends as ends_tti, started, starts};
use std::alloc::Global;

/// Both ends of a direction, and the air between them.
#[derive(Drop)]
pub struct RoundTrip<E> {
    ends: E,
    noted: [Option<u8>; 8],
    given: TtiBlocks,
    sent: PhyFrame,
    received: PhyFrame,
    read: TtiBlocks,
}

impl<E: Ends + Drop> RoundTrip<E> {
    /// Takes all memory. Nothing is loaded by it, and no frame was sent.
    pub fn open(alloc: Global, accepted: &Accepted, ends: E) -> Result<RoundTrip<E>, NoMemory>
        requires { E.opened accepted.now ends }
        ensures { IfOk result (IsTripOf E.dir E.opened E.loaded accepted.now) }
    {
        let dir = E::dir();
        Ok(RoundTrip {
            ends,
            noted: nothing(),
            given: TtiBlocks::open(alloc, accepted, dir)?,
            sent: PhyFrame::open(alloc, accepted, dir)?,
            received: PhyFrame::open(alloc, accepted, dir)?,
            read: TtiBlocks::open(alloc, accepted, dir)?,
        })
    }

    /// Loads the channels whose TTI starts at a CFN in the formats of a combination, and writes its frame. Answers how
    /// many cells it has; none where the combination is not in the list, or a TTI that is on runs in another format.
    pub fn send(&mut self, accepted: &Accepted, cfn: u8, combination: u16) -> Option<usize>
        requires opened { IsTripOf E.dir E.opened E.loaded accepted.now self.old }
        ensures opened { IsTripOf E.dir E.opened E.loaded accepted.now self.new }
    {
        let side = accepted.config().side(E::dir());
        if combination as usize >= side.combinations.len() {
            return None;
        }
        load_channels(
            accepted,
            cfn,
            combination,
            &mut self.given,
            &mut self.ends,
            &mut self.noted,
        );
        if fits(side, combination, &self.noted) {
            self.ends.write(accepted, cfn, combination, &mut self.sent);
            Some(self.sent.view().cells.len())
        } else {
            None
        }
    }

    /// Brings the last frame over, with one cell in so many inverted; none for 0.
    pub fn arrive(&mut self, accepted: &Accepted, cfn: u8, every: usize)
        requires opened { IsTripOf E.dir E.opened E.loaded accepted.now self.old }
        ensures opened { IsTripOf E.dir E.opened E.loaded accepted.now self.new }
    {
        carry(&self.sent, every, &mut self.received);
        self.ends.receive(accepted, cfn, &self.received);
    }

    /// Whether each TTI that ends with the frame of a CFN is read as it was loaded.
    pub fn is_back(&mut self, accepted: &Accepted, cfn: u8) -> bool
        requires opened { IsTripOf E.dir E.opened E.loaded accepted.now self.old }
        ensures opened { IsTripOf E.dir E.opened E.loaded accepted.now self.new }
    {
        are_back(
            accepted,
            cfn,
            &self.noted,
            &mut self.given,
            &mut self.ends,
            &mut self.read,
        )
    }
}

/// Loads the channels whose TTI starts at a CFN in the formats of a combination.
fn load_channels<E: Ends>(
    accepted: &Accepted,
    cfn: u8,
    combination: u16,
    given: &mut TtiBlocks,
    ends: &mut E,
    noted: &mut [Option<u8>],
)
    requires combination { combination < length (side_of accepted.now.config E.dir).combinations }
    requires given { HoldsTtis (side_of accepted.now.config E.dir) given.old.room }
    requires ends { E.opened accepted.now ends.old }
    requires noted { AreNoted (E.loaded ends.old) noted.old }
    requires eight { length noted.old ≡ 8 }
    ensures given { HoldsTtis (side_of accepted.now.config E.dir) given.new.room }
    ensures ends { E.opened accepted.now ends.new }
    ensures noted { AreNoted (E.loaded ends.new) noted.new }
{
    let side = accepted.config().side(E::dir());
    for i in 0..side.channels.len() {
        if starts(side.channel(i).frames, cfn) {
            let format = side.tfi(combination as usize, i);
            load_channel(accepted, cfn, i as u8, format, given, ends, noted);
        }
    }
}

/// Loads a channel in a format, and notes it.
fn load_channel<E: Ends>(
    accepted: &Accepted,
    cfn: u8,
    channel: u8,
    format: u8,
    given: &mut TtiBlocks,
    ends: &mut E,
    noted: &mut [Option<u8>],
)
    requires channel { channel < length (side_of accepted.now.config E.dir).channels }
    requires eighth { channel < 8 }
    requires format { format < length (channel_at (side_of accepted.now.config E.dir) channel).formats }
    requires given { HoldsTtis (side_of accepted.now.config E.dir) given.old.room }
    requires ends { E.opened accepted.now ends.old }
    requires noted { AreNoted (E.loaded ends.old) noted.old }
    requires eight { length noted.old ≡ 8 }
    ensures given { given.new.room ≡ given.old.room }
    ensures ends { E.opened accepted.now ends.new }
    ensures noted { AreNoted (E.loaded ends.new) noted.new }
    ensures eight { length noted.new ≡ 8 }
{
    give(accepted, E::dir(), cfn, channel, format, given);
    ends.load(accepted, channel, format, given.bits());
    note(noted, channel, format);
}

/// Whether each TTI that ends at a CFN is read as it was loaded.
fn are_back<E: Ends>(
    accepted: &Accepted,
    cfn: u8,
    noted: &[Option<u8>],
    given: &mut TtiBlocks,
    ends: &mut E,
    read: &mut TtiBlocks,
) -> bool
    requires noted { length noted.now ≡ 8 }
    requires given { HoldsTtis (side_of accepted.now.config E.dir) given.old.room }
    requires ends { E.opened accepted.now ends.old }
    requires read { HoldsTtis (side_of accepted.now.config E.dir) read.old.room }
    ensures given { HoldsTtis (side_of accepted.now.config E.dir) given.new.room }
    ensures ends { E.opened accepted.now ends.new }
    ensures same { E.loaded ends.new ≡ E.loaded ends.old }
    ensures read { HoldsTtis (side_of accepted.now.config E.dir) read.new.room }
{
    let side = accepted.config().side(E::dir());
    for i in 0..side.channels.len() {
        let frames = side.channel(i).frames;
        if ends_tti(frames, cfn) {
            let start = started(frames, cfn);
            let Some(format) = noted[i] else {
                return false;
            };
            if !is_back(accepted, start, i as u8, format, given, ends, read) {
                return false;
            }
        }
    }
    true
}

/// Whether the TTI of a channel that the last frame ends is read as it was loaded.
fn is_back<E: Ends>(
    accepted: &Accepted,
    start: u8,
    channel: u8,
    format: u8,
    given: &mut TtiBlocks,
    ends: &mut E,
    read: &mut TtiBlocks,
) -> bool
    requires channel { channel < length (side_of accepted.now.config E.dir).channels }
    requires given { HoldsTtis (side_of accepted.now.config E.dir) given.old.room }
    requires ends { E.opened accepted.now ends.old }
    requires read { HoldsTtis (side_of accepted.now.config E.dir) read.old.room }
    ensures given { given.new.room ≡ given.old.room }
    ensures ends { E.opened accepted.now ends.new }
    ensures same { E.loaded ends.new ≡ E.loaded ends.old }
    ensures read { read.new.room ≡ read.old.room }
{
    let side = accepted.config().side(E::dir());
    if format as usize >= side.channel(channel as usize).formats.len() {
        return false;
    }
    give(accepted, E::dir(), start, channel, format, given);
    ends.read(accepted, channel, read) == TtiOutcome::Blocks && are_given(read, format, given)
}
