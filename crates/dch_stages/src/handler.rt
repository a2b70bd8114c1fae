ghost use Rattle.std.specs.Prelude.{◌≡◌, ◌<◌, ◌≤◌, ◌+◌, ◌*◌, ◌++◌, IfErr, IfOk, OnOk, length, true};
ghost use Rattle.dch_types.specs.Parts.{channel_at, format_at, side_of};
ghost use Rattle.dch_script.specs.Stages.{is_all_bits};
ghost use Rattle.dch_lines.specs.Semantics.{Adds, Leads};
ghost use Rattle.dch_lines.specs.Texts.{bits_of};
ghost use Rattle.dch_stages.specs.Overlong.{stages_refuse_long};
ghost use Rattle.dch_stages.specs.Rules.{State, opened, rules};
ghost use Rattle.dch_stages.specs.Showing.{HasLoaded, IsRefused, Obeys};
ghost use Rattle.dch_stages.specs.Handlers.{IsReady, IsShowing, Represents};
ghost use Rattle.dch_stages.specs.declared.rooms.TheConstants.{MOST_BITS};

use crate::places::{TtiOf, blocks_bits};
use crate::rooms::Rooms;
use crate::showing::{Showing, put_answers};
use dch_accept::Accepted;
use dch_bits::{Bit, NoMemory};
use dch_lines::{LineFault, LineHandler, Page, put_line, read_tfci};
use dch_script::{Line, LineError, StageLine, parse_stage};
use std::alloc::Global;

/// The handler of the program: each line loads a TTI or sends a radio frame, and its stages are shown line by line.
#[derive(Drop)]
pub struct StagesHandler {
    pub showing: Showing,
    pub rooms: Rooms,
}

impl StagesHandler {
    /// A handler before the first line, with all its memory.
    pub fn open(alloc: Global, accepted: Accepted) -> Result<StagesHandler, NoMemory>
        ensures ready { IfOk result IsReady }
        ensures stands { IfOk result (Represents (opened accepted)) }
    {
        let showing = Showing::open(alloc, accepted)?;
        let rooms = Rooms::open(alloc, &showing.accepted)?;
        Ok(StagesHandler { showing, rooms })
    }

    /// Does what a line says, and writes its answer.
    fn take_line<P: Page>(&mut self, line: &[u8], page: &mut P) -> Result<(), LineError>
        requires ready { IsReady self.old }
        ensures ok { OnOk result (Leads Represents self.old self.new
            (λ old new. Adds P.writes (rules.handles old line.now new) page.old page.new)) }
        ensures err { IfErr result (λ why. (state : State) → Represents state self.old →
            rules.refuses state line.now why × Represents state self.new) }
        ensures same { IfErr result (λ _. page.new ≡ page.old) }
        ensures ready { IsReady self.new }
    {
        match take(&mut self.showing, &mut self.rooms.bits, line) {
            Ok(()) => {
                put_answers(page, &self.showing, &mut self.rooms);
                Ok(())
            }
            Err(why) => Err(why),
        }
    }
}

/// Does what a line says. `bits` is room for the bits of its transport blocks.
fn take(showing: &mut Showing, bits: &mut [Bit], line: &[u8]) -> Result<(), LineError>
    requires showing { IsShowing showing.old }
    requires bits { length bits.old ≡ MOST_BITS }
    ensures showing { IsShowing showing.new }
    ensures accepted { showing.new.accepted ≡ showing.old.accepted }
    ensures ok { OnOk result (Obeys line.now showing.old showing.new) }
    ensures err { IfErr result (IsRefused showing.old line.now) }
    ensures same { IfErr result (λ _. showing.new ≡ showing.old) }
    ensures bits { length bits.new ≡ length bits.old }
{
    match parse_stage(showing.accepted.config(), line) {
        Ok(
            StageLine::Load {
                dir,
                channel,
                format,
                bits: text,
            },
        ) => {
            load(
                showing,
                bits,
                TtiOf {
                    dir,
                    channel,
                    format,
                },
                text,
            );
            Ok(())
        }
        Ok(StageLine::Frame { dir, combination }) => showing.send(dir, combination),
        Ok(
            StageLine::Ask {
                question,
                dir,
                channel,
                number,
            },
        ) => showing.ask(question, dir, channel, number),
        Err(why) => Err(why),
    }
}

/// Loads the transport blocks that a text shows.
fn load(showing: &mut Showing, bits: &mut [Bit], place: TtiOf, text: &[u8])
    requires showing { IsShowing showing.old }
    requires bits { length bits.old ≡ MOST_BITS }
    requires channel { place.channel < length (side_of showing.old.accepted.config place.dir).channels }
    requires format { place.format < length (channel_at (side_of showing.old.accepted.config place.dir)
        place.channel).formats }
    requires text { is_all_bits ((format_at (channel_at (side_of showing.old.accepted.config place.dir) place.channel)
        place.format).number
        * (format_at (channel_at (side_of showing.old.accepted.config place.dir) place.channel) place.format).size)
        text.now ≡ true }
    ensures showing { IsShowing showing.new }
    ensures loaded { HasLoaded place.dir place.channel place.format (bits_of text.now) showing.old showing.new }
    ensures bits { length bits.new ≡ length bits.old }
{
    let TtiOf {
        dir,
        channel,
        format,
    } = place;
    let count = blocks_bits(&showing.accepted, place);
    let blocks = read_blocks(text, count, bits);
    showing.load(dir, channel, format, blocks);
}

/// The bits of a text of so many letters, where a dot stands for none, at the front of `room`.
fn read_blocks<'a>(text: &[u8], count: usize, room: &'a mut [Bit]) -> &'a [Bit]
    requires text { is_all_bits count text.now ≡ true }
    requires room { count ≤ length room.old }
    ensures bits { result.now ≡ bits_of text.now }
    ensures long { length result.now ≡ count }
{
    if count == 0 {
        &room[..0]
    } else {
        read_tfci(text, &mut room[..count])
    }
}

impl LineHandler for StagesHandler {
    ghost State = { State };

    ghost semantics = { rules };

    ghost represents = { Represents };

    ghost stands = { IsReady };

    ghost handled = { λ _. 0 };

    fn handle_line<P: Page>(&mut self, line: &[u8], page: &mut P) -> Result<(), LineFault> {
        match self.take_line(line, page) {
            Ok(()) => Ok(()),
            Err(why) => Err(LineFault::Malformed(why)),
        }
    }

    fn close<P: Page>(&self, nonempty_lines: u64, page: &mut P) {
        put_line(page, &Line::EndLines(nonempty_lines));
    }

    ghost overlong = { stages_refuse_long };

    ghost stood = { λ _ ready. (ready.state, ready.stands) };
}
