ghost use Rattle.std.specs.Prelude.{◌≡◌, ◌<◌, ◌≤◌, ◌+◌, ◌*◌, ◌%◌, ◌++◌, ◌^◌, ℕ, IfErr, IfOk, None, Some, length};
ghost use Rattle.dch_types.specs.declared.channel.Dir.TheVariants.{Down, Up};
ghost use Rattle.dch_types.specs.Parts.{channel_at, format_at, format_number, side_of};
ghost use Rattle.dch_coding.specs.Segments.{plan_of};
ghost use Rattle.dch_tti.specs.Loaded.{loaded_at};
ghost use Rattle.dch_ulphy.specs.Loaded.{IsTtiOf as IsUplinkTti};
ghost use Rattle.dch_dlphy.specs.Loaded.{IsTtiOf as IsDownlinkTti};
ghost use Rattle.dch_script.specs.declared.event.LineError.TheVariants.{When};
ghost use Rattle.dch_stages.specs.Coded.{AreCut};
ghost use Rattle.dch_stages.specs.FrameLines.{frame_lines};
ghost use Rattle.dch_stages.specs.Answers.{amount_of};
ghost use Rattle.dch_stages.specs.Rules.{IsOutside, answer_line, answer_lines, answer_text};
ghost use Rattle.dch_stages.specs.Showing.{HasAsked, HasLoaded, HasSent, IsBegun};
ghost use Rattle.dch_stages.specs.Handlers.{CanShow, HaveRooms, IsShowing, asks, format_in, formats_in};
ghost use Rattle.dch_stages.specs.TtiLines.{tti_line, tti_lines};
ghost use Rattle.dch_stages.specs.declared.showing.Asking.TheVariants.{Tti};

use crate::answers::{amount_of, put_answer as put_bits};
use crate::coded::CodedTti;
use crate::downlink::DownlinkLoads;
use crate::downlink_frame::put_downlink_frame_line;
use crate::frame_lines::buffer_of;
use crate::frame_room::FrameAt;
use crate::places::TtiOf;
use crate::rooms::{MOST_BITS, Rooms};
use crate::sent_lines::Codes;
use crate::tti_lines::{Shown, coding_lines, put_downlink_line, put_uplink_line};
use crate::uplink::UplinkLoads;
use crate::uplink_frame::put_uplink_frame_line;
use dch_accept::Accepted;
use dch_bits::{Bit, NoMemory};
use dch_lines::Page;
use dch_script::{LineError, Question};
use dch_types::Dir;
use std::alloc::Global;

/// Of what the last line asked to see the stages.
#[derive(Clone, Copy)]
pub enum Asking {
    Nothing,
    Tti {
        dir: Dir,
        channel: u8,
        format: u8,
    },
    Frame {
        dir: Dir,
        at: FrameAt,
    },
    Bits {
        question: Question,
        tti: TtiOf,
        number: u32,
    },
}

/// A configuration, what is loaded of its channels, and what the last line asked for.
#[derive(Drop)]
pub struct Showing {
    pub accepted: Accepted,
    pub up: UplinkLoads,
    pub down: DownlinkLoads,
    pub stages: CodedTti,
    pub asked: Asking,
}

impl Showing {
    /// Takes the memory. Nothing is loaded, and nothing was asked for.
    pub fn open(alloc: Global, accepted: Accepted) -> Result<Showing, NoMemory>
        ensures { IfOk result (IsBegun accepted) }
    {
        let up = UplinkLoads::open(alloc, &accepted)?;
        let down = DownlinkLoads::open(alloc, &accepted)?;
        let stages = CodedTti::open(alloc, MOST_BITS)?;
        Ok(Showing {
            accepted,
            up,
            down,
            stages,
            asked: Asking::Nothing,
        })
    }

    /// Codes the transport blocks of a TTI and loads them.
    pub fn load(&mut self, dir: Dir, channel: u8, format: u8, bits: &[Bit])
        requires showing { IsShowing self.old }
        requires channel { channel < length (side_of self.old.accepted.config dir).channels }
        requires format { format < length (channel_at (side_of self.old.accepted.config dir) channel).formats }
        requires bits { length bits.now ≡
            (format_at (channel_at (side_of self.old.accepted.config dir) channel) format).number *
            (format_at (channel_at (side_of self.old.accepted.config dir) channel) format).size }
        ensures showing { IsShowing self.new }
        ensures loaded { HasLoaded dir channel format bits.now self.old self.new }
    {
        let trch = self.accepted.channel(dir, channel);
        self.stages.code(trch, trch.format(format as usize), bits);
        self.asked = Asking::Tti {
            dir,
            channel,
            format,
        };
        match dir {
            Dir::Up => self.up.load(&self.accepted, channel, format, bits),
            Dir::Down => self.down.load(&self.accepted, channel, format, bits),
        }
    }

    /// Sends the radio frame of the CFN that comes, where the formats of a combination are loaded.
    pub fn send(&mut self, dir: Dir, combination: u16) -> Result<(), LineError>
        requires showing { IsShowing self.old }
        requires combination { combination < length (side_of self.old.accepted.config dir).combinations }
        ensures showing { IsShowing self.new }
        ensures sent { IfOk result (λ _. HasSent dir combination self.old self.new) }
        ensures when { IfErr result (λ why. why ≡ When) }
        ensures untimely { IfErr result (λ _. ((i : ℕ) → i < length (side_of self.old.accepted.config dir).channels →
            format_in (formats_in self.old dir) i ≡ Some (format_number (side_of self.old.accepted.config dir)
            combination i)) → ⊥) }
        ensures same { IfErr result (λ _. self.new ≡ self.old) }
    {
        let side = self.accepted.side(dir);
        let cfn = match dir {
            Dir::Up => self.up.loads.send(side, combination),
            Dir::Down => self.down.loads.send(side, combination),
        };
        let Some(cfn) = cfn else {
            return Err(LineError::When);
        };
        let at = FrameAt { cfn, combination };
        self.asked = Asking::Frame { dir, at };
        Ok(())
    }

    /// Asks a question of the TTI that was loaded last of a channel.
    pub fn ask(
        &mut self,
        question: Question,
        dir: Dir,
        channel: u8,
        number: u32,
    ) -> Result<(), LineError>
        requires showing { IsShowing self.old }
        requires channel { channel < length (side_of self.old.accepted.config dir).channels }
        ensures showing { IsShowing self.new }
        ensures asked { IfOk result (λ _. HasAsked question dir channel number self.old self.new) }
        ensures outside { IfErr result (IsOutside (amount_of self.old.accepted question dir channel)
            (format_in (formats_in self.old dir) channel) number) }
        ensures same { IfErr result (λ _. self.new ≡ self.old) }
    {
        let formats = match dir {
            Dir::Up => &self.up.loads.formats,
            Dir::Down => &self.down.loads.formats,
        };
        let Some(format) = formats[channel as usize] else {
            return Err(LineError::When);
        };
        let tti = TtiOf {
            dir,
            channel,
            format,
        };
        if number as usize >= amount_of(&self.accepted, question, tti) {
            return Err(LineError::Number);
        }
        self.asked = Asking::Bits {
            question,
            tti,
            number,
        };
        Ok(())
    }

    /// How many lines show what was asked for.
    pub fn lines(&self) -> u32
        requires { IsShowing self.now }
        ensures { result ≡ answer_lines self.now.accepted (asks self.now self.now.asked) }
    {
        match self.asked {
            Asking::Nothing => 0,
            Asking::Tti {
                dir,
                channel,
                format,
            } => tti_lines(&self.accepted, &self.stages, dir, channel, format),
            Asking::Frame { dir, at } => frame_lines(&self.accepted, dir, at.combination),
            Asking::Bits { .. } => 1,
        }
    }
}

/// How many lines show the TTI of a channel in a format.
fn tti_lines(accepted: &Accepted, stages: &CodedTti, dir: Dir, channel: u8, format: u8) -> u32
    requires channel { channel < length (side_of accepted.now.config dir).channels }
    requires format { format < length (channel_at (side_of accepted.now.config dir) channel).formats }
    requires stages { AreCut (channel_at (side_of accepted.now.config dir) channel)
        (format_at (channel_at (side_of accepted.now.config dir) channel) format) stages.now }
    ensures { result ≡ tti_lines dir (format_at (channel_at (side_of accepted.now.config dir) channel) format).number
        (plan_of (length stages.now.joined) (channel_at (side_of accepted.now.config dir) channel).coding).blocks }
{
    let trch = accepted.channel(dir, channel);
    let coding = coding_lines(trch, trch.format(format as usize), stages) as u32;
    match dir {
        Dir::Up => coding + 2,
        Dir::Down => coding + 3,
    }
}

/// How many lines show a radio frame of a direction in a combination.
fn frame_lines(accepted: &Accepted, dir: Dir, combination: u16) -> u32
    requires { combination < length (side_of accepted.now.config dir).combinations }
    ensures { result ≡ frame_lines accepted.now dir combination }
{
    let channels = accepted.side(dir).channels.len() as u32;
    let codes = Codes::of(accepted, dir, combination).count as u32;
    let joining = match dir {
        Dir::Up => channels + 1,
        Dir::Down => 2,
    };
    channels + joining + 2 * codes + 2
}

/// Adds the lines that show what was asked for.
pub fn put_answers<P: Page>(page: &mut P, showing: &Showing, rooms: &mut Rooms)
    requires showing { IsShowing showing.now }
    requires rooms { HaveRooms showing.now.accepted.config rooms.old }
    ensures text { P.writes page.old (answer_text showing.now.accepted (asks showing.now showing.now.asked)) page.new }
    ensures rooms { HaveRooms showing.now.accepted.config rooms.new }
{
    for k in 0..showing.lines() {
        put_answer(page, showing, rooms, k as usize);
    }
}

/// Adds line `k` of those that show what was asked for.
fn put_answer<P: Page>(page: &mut P, showing: &Showing, rooms: &mut Rooms, k: usize)
    requires showing { IsShowing showing.now }
    requires rooms { HaveRooms showing.now.accepted.config rooms.old }
    ensures text { P.writes page.old (answer_line showing.now.accepted (asks showing.now showing.now.asked) k)
        page.new }
    ensures rooms { HaveRooms showing.now.accepted.config rooms.new }
{
    match showing.asked {
        Asking::Nothing => {}
        Asking::Tti {
            dir,
            channel,
            format,
        } => match dir {
            Dir::Up => put_uplink_tti(page, showing, rooms, channel, format, k),
            Dir::Down => put_downlink_tti(page, showing, rooms, channel, format, k),
        },
        Asking::Frame { dir, at } => match dir {
            Dir::Up => put_uplink_frame_line(
                page,
                &showing.accepted,
                &showing.up.tti,
                at,
                &mut rooms.up,
                k,
            ),
            Dir::Down => put_downlink_frame_line(
                page,
                &showing.accepted,
                &showing.down.tti,
                at,
                &mut rooms.down,
                k,
            ),
        },
        Asking::Bits {
            question,
            tti,
            number,
        } => put_bits(page, &showing.accepted, question, tti, number),
    }
}

/// Adds line `k` of the TTI that is loaded of an uplink channel in a format.
fn put_uplink_tti<P: Page>(
    page: &mut P,
    showing: &Showing,
    rooms: &mut Rooms,
    channel: u8,
    format: u8,
    k: usize,
)
    requires showing { IsShowing showing.now }
    requires asked { CanShow showing.now (Tti Up channel format) }
    requires rooms { HaveRooms showing.now.accepted.config rooms.old }
    ensures text { P.writes page.old (tti_line showing.now.accepted Up channel format showing.now.stages.joined
        (loaded_at showing.now.up.tti channel) k) page.new }
    ensures rooms { HaveRooms showing.now.accepted.config rooms.new }
{
    // A good configuration has room for each format.
    let accepted = &showing.accepted;
    let _side = accepted.side(Dir::Up);
    let buffer = buffer_of(showing.up.tti.tti_buffers(), channel);
    let shown = Shown {
        accepted,
        channel,
        format,
        buffer,
    };
    put_uplink_line(page, shown, &showing.stages, &mut rooms.cells, k);
}

/// Adds line `k` of the TTI that is loaded of a downlink channel in a format.
fn put_downlink_tti<P: Page>(
    page: &mut P,
    showing: &Showing,
    rooms: &mut Rooms,
    channel: u8,
    format: u8,
    k: usize,
)
    requires showing { IsShowing showing.now }
    requires asked { CanShow showing.now (Tti Down channel format) }
    requires rooms { HaveRooms showing.now.accepted.config rooms.old }
    ensures text { P.writes page.old (tti_line showing.now.accepted Down channel format showing.now.stages.joined
        (loaded_at showing.now.down.tti channel) k) page.new }
    ensures rooms { HaveRooms showing.now.accepted.config rooms.new }
{
    // A good configuration has room for each format.
    let accepted = &showing.accepted;
    let _config = accepted.config();
    let _plan = accepted.downlink_plan();
    let buffer = buffer_of(showing.down.tti.tti_buffers(), channel);
    let shown = Shown {
        accepted,
        channel,
        format,
        buffer,
    };
    put_downlink_line(
        page,
        shown,
        &showing.stages,
        &mut rooms.space,
        &mut rooms.cells,
        k,
    );
}
