ghost use Rattle.std.specs.Prelude.{◌≡◌, ◌<◌, ◌≤◌, ◌+◌, ◌%◌, ℕ, [], true, false, length, IfOk, IfErr, IfSome, Err};
ghost use Rattle.dch_accept.specs.Plans.{Planned};
ghost use Rattle.dch_script.specs.Meaning.{meaning_in};
ghost use Rattle.dch_script.specs.declared.event.Command.TheVariants.{Link as LinkLines};
ghost use Rattle.dch_lines.specs.Semantics.{Adds, Leads};
ghost use Rattle.dch_link.specs.Link.{opened_link};
ghost use Rattle.dch_link.specs.Passing.{next_stage};
ghost use Rattle.dch_link.specs.LinkNodes.{HasNext, HaveHistories, IsLinkOf, Represents};
ghost use Rattle.dch_lines.specs.Coming.{CanFollow};
ghost use Rattle.dch_lines.specs.declared.later.Later.{Later as Coming};
ghost use Rattle.dch_lines.specs.declared.line_texts.TheConstants.{OCTETS};
ghost use Rattle.dch_linkcmd.specs.Overlong.{link_refuses_long};
ghost use Rattle.dch_linkcmd.specs.Rules.{Begins, MayChange, PassesFrame, PassesFrames, PassesNext, PassesStage, link_lines};
ghost use Rattle.dch_linkcmd.specs.Run.{Run, opened_run};
ghost use Rattle.dch_linkcmd.specs.Handlers.{StandsBetween, IsPrepared, IsReady, RepresentsRun, ready_stands};
ghost use Rattle.dch_linkcmd.specs.Stepping.{GoesBy};
ghost use Rattle.dch_linkcmd.specs.Taking.{Tells};

use crate::filter::{happen, pass};
use crate::reading::{LinkLine, read_line};
use dch_accept::Accepted;
use dch_bits::{Bit, NoMemory};
use dch_lines::{Filter, Later, LineFault, LineHandler, OCTETS, Page, UNIT_BITS, put_line};
use dch_link::{CHECKS, Link, NodeB, Rnc, STAGES, Stage, Ue};
use dch_script::{Line, LineError};
use std::alloc::Global;
use std::marker::Model;
use std::mem;

/// The handler of the command `link`, which takes each line as something that happens between two radio frames, or as
/// radio frames, stage by stage. All memory is taken at opening.
pub struct LinkHandler {
    accepted: Accepted,
    later: Option<Later>,
    link: Link,
    octets: Vec<u8>,
    quiet: bool,
    stage: Stage,
    left: u32,
    frames: u64,
    lines: u64,
}

// By hand, so that whoever holds one drops it by one call.
impl Drop for LinkHandler {
    fn drop(self) {
        let LinkHandler {
            accepted: _accepted,
            later: _later,
            link: _link,
            octets: _octets,
            quiet: _quiet,
            stage: _stage,
            left: _left,
            frames: _frames,
            lines: _lines,
        } = self;
    }
}

impl Model for LinkHandler {
    ghost use Rattle.std.specs.Prelude.{◌≡◌, length};
    ghost use Rattle.dch_lines.specs.declared.line_texts.TheConstants.{OCTETS};
    ghost use Rattle.dch_linkcmd.specs.Handlers.{Handler};

    ghost Value = { Handler };

    ghost view = { λ h. record {
      accepted = h.accepted;
      later = h.later;
      link = h.link;
      quiet = h.quiet;
      stage = h.stage;
      left = h.left;
      frames = h.frames;
      lines = h.lines;
    } };

    ghost invariant = { λ h. length h.octets.items ≡ OCTETS };
}

impl LinkHandler {
    /// Opens the nodes for a configuration, and for a second one where one is to come, in which every bearer goes on.
    /// The first radio frame has this CFN. With `quiet` the lines of frames are left out of the text.
    pub fn open(
        alloc: Global,
        accepted: Accepted,
        later: Option<Later>,
        first_cfn: u8,
        quiet: bool,
    ) -> Result<LinkHandler, NoMemory>
        requires cfn { first_cfn % 8 ≡ 0 }
        requires follows { IfSome later (CanFollow accepted) }
        ensures ready { IfOk result StandsBetween }
        ensures stands { IfOk result (RepresentsRun (opened_run accepted later first_cfn quiet)) }
        ensures new { IfOk result (λ handler. (handler.accepted ≡ accepted) × (handler.later ≡ later) ×
            (handler.lines ≡ 0)) }
    {
        let Ok(octets) = vec![in alloc; 0; OCTETS] else {
            return Err(NoMemory);
        };
        let Ok(link) = open_link(alloc, &accepted, &later, first_cfn) else {
            return Err(NoMemory);
        };
        Ok(LinkHandler {
            accepted,
            later,
            link,
            octets,
            quiet,
            stage: Stage::RncTick,
            left: 0,
            frames: 0,
            lines: 0,
        })
    }

    /// The nodes, after the work. Each stands for what happened to it in the run.
    pub fn into_nodes(self) -> (Ue, NodeB, Rnc)
        ensures { (run : Run) → RepresentsRun run self →
            HaveHistories run.began self.accepted run.first run.link result.0 result.1 result.2 }
    {
        let LinkHandler {
            accepted: _accepted,
            later: _later,
            link,
            octets: _octets,
            quiet: _quiet,
            stage: _stage,
            left: _left,
            frames: _frames,
            lines: _lines,
        } = self;
        link.into_nodes()
    }

    /// Passes so many radio frames. Once a write has failed, the one that is on is the last. None is left then.
    fn pass_frames<P: Page>(&mut self, count: u32, page: &mut P)
        requires ready { IsReady self.old }
        requires left { self.old.left ≡ count }
        requires some { 1 ≤ count }
        requires first { self.old.stage ≡ Stage.RncTick }
        ensures passes { Leads RepresentsRun self.old self.new
            (λ old new. Adds P.writes (PassesFrames (P.broken page.new) old new) page.old page.new) }
        ensures ready { IsReady self.new }
        ensures first { self.new.stage ≡ Stage.RncTick }
        ensures none { self.new.left ≡ 0 }
        ensures lines { self.new.lines ≡ self.old.lines }
    {
        for _ in 0..count {
            self.pass_frame(page);
            if !page.is_open() {
                self.leave_off();
                return;
            }
        }
    }

    /// Leaves off the radio frames that are left of a line.
    fn leave_off(&mut self)
        requires { IsReady self.old }
        ensures ready { IsReady self.new }
        ensures none { self.new ≡ record self.old { left = 0 } }
    {
        self.left = 0;
    }

    /// Passes a radio frame, stage by stage.
    fn pass_frame<P: Page>(&mut self, page: &mut P)
        requires ready { IsReady self.old }
        requires left { 0 < self.old.left }
        requires first { self.old.stage ≡ Stage.RncTick }
        ensures passes { Leads RepresentsRun self.old self.new
            (λ old new. Adds P.writes (PassesFrame old new) page.old page.new) }
        ensures ready { IsReady self.new }
        ensures first { self.new.stage ≡ Stage.RncTick }
        ensures left { self.new.left + 1 ≡ self.old.left }
        ensures lines { self.new.lines ≡ self.old.lines }
    {
        for _ in 0..STAGES {
            self.pass(page);
        }
    }

    /// Passes the next stage of a radio frame, in the second configuration where that becomes active with it.
    fn pass<P: Page>(&mut self, page: &mut P)
        requires ready { IsReady self.old }
        requires left { 0 < self.old.left }
        ensures passes { Leads RepresentsRun self.old self.new
            (λ old new. Adds P.writes (PassesNext old new) page.old page.new) }
        ensures ready { IsReady self.new }
        ensures lines { self.new.lines ≡ self.old.lines }
        ensures goes { GoesBy Stage.RncTick (next_stage self.old.stage) self.old.left self.new.stage self.new.left }
    {
        self.change(page);
        self.pass_stage(page);
    }

    /// The second configuration becomes active where the radio frame begins from which it is to be active.
    fn change<P: Page>(&mut self, page: &mut P)
        requires { IsReady self.old }
        ensures changes { Leads RepresentsRun self.old self.new MayChange }
        ensures ready { IsReady self.new }
        ensures stage { self.new.stage ≡ self.old.stage }
        ensures left { self.new.left ≡ self.old.left }
        ensures lines { self.new.lines ≡ self.old.lines }
        ensures same { page.new ≡ page.old }
    {
        if !is_due(&self.later, self.stage, self.frames) {
            return;
        }
        if let Some(mut later) = self.later.take() {
            mem::swap(&mut self.accepted, &mut later.accepted);
            let mut filter = Filter {
                quiet: self.quiet,
                lead: &[],
                page,
            };
            self.link.change(&self.accepted, &mut filter);
        }
    }

    /// Passes a stage of a radio frame, after the last of which the next radio frame is on.
    fn pass_stage<P: Page>(&mut self, page: &mut P)
        requires ready { IsReady self.old }
        requires left { 0 < self.old.left }
        ensures passes { Leads RepresentsRun self.old self.new
            (λ old new. Adds P.writes (PassesStage old new) page.old page.new) }
        ensures ready { IsReady self.new }
        ensures lines { self.new.lines ≡ self.old.lines }
        ensures goes { GoesBy Stage.RncTick (next_stage self.old.stage) self.old.left self.new.stage self.new.left }
    {
        let mut filter = Filter {
            quiet: self.quiet,
            lead: &[],
            page,
        };
        pass(&mut filter, &self.accepted, self.stage, &mut self.link);
        match self.stage.next() {
            Some(stage) => self.stage = stage,
            None => {
                self.link.end_frame(&self.accepted);
                self.stage = Stage::RncTick;
                self.left -= 1;
                self.frames += 1;
            }
        }
    }
}

/// Opens the nodes for one configuration or two.
fn open_link(
    alloc: Global,
    accepted: &Accepted,
    later: &Option<Later>,
    first_cfn: u8,
) -> Result<Link, NoMemory>
    requires cfn { first_cfn % 8 ≡ 0 }
    requires follows { IfSome later.now (CanFollow accepted.now) }
    ensures opened { IfOk result (IsLinkOf accepted.now) }
    ensures next { IfOk result (λ link. IfSome later.now (IsPrepared accepted.now link)) }
    ensures stands { IfOk result (Represents accepted.now accepted.now first_cfn (opened_link accepted.now first_cfn)) }
{
    match later {
        Some(later) => Link::open_both(alloc, accepted, &later.accepted, first_cfn),
        None => Link::open(alloc, accepted, first_cfn),
    }
}

/// Whether a second configuration is to come, and this stage begins the radio frame from which it is active.
fn is_due(later: &Option<Later>, stage: Stage, frames: u64) -> bool
    ensures due { result ≡ true → (coming : Coming) × Begins later.now stage frames coming }
    ensures undue { result ≡ false → (coming : Coming) → ¬ Begins later.now stage frames coming }
{
    match later {
        Some(later) => stage.is_first() && u64::from(later.frame) == frames,
        None => false,
    }
}

/// Takes a line. Answers how many radio frames it asks for, if it asks for any; otherwise what it says has happened.
/// `octets` is room for the octets of a unit.
fn take<P: Page>(
    accepted: &Accepted,
    line: &[u8],
    octets: &mut [u8],
    link: &mut Link,
    quiet: bool,
    page: &mut P,
) -> Result<Option<u32>, LineError>
    requires octets { length octets.old ≡ OCTETS }
    requires opened { IsLinkOf accepted.now link.old }
    ensures ok { IfOk result (λ count. Tells P.writes accepted.now line.now count quiet link.old link.new page.old
        page.new) }
    ensures err { IfErr result (λ why. meaning_in LinkLines accepted.now.config line.now ≡ Err why) }
    ensures same { IfErr result (λ _. (link.new ≡ link.old) × (page.new ≡ page.old)) }
    ensures opened { IsLinkOf accepted.now link.new }
    ensures next { (second : Planned) → HasNext accepted.now second link.old → HasNext accepted.now second link.new }
    ensures cfn { link.new.ue.cfn ≡ link.old.ue.cfn }
{
    let mut bits = [Bit::Zero; UNIT_BITS];
    match read_line(accepted, line, octets, &mut bits) {
        Ok(LinkLine::Happens(event)) => {
            let mut filter = Filter {
                quiet,
                lead: &[],
                page,
            };
            happen(&mut filter, accepted, event, link);
            Ok(None)
        }
        Ok(LinkLine::Frames(count)) => Ok(Some(count)),
        Err(why) => Err(why),
    }
}

impl LineHandler for LinkHandler {
    ghost State = { Run };

    ghost semantics = { link_lines };

    ghost represents = { RepresentsRun };

    ghost stands = { StandsBetween };

    ghost handled = { λ h. h.lines };

    fn handle_line<P: Page>(&mut self, line: &[u8], page: &mut P) -> Result<(), LineFault> {
        match take(
            &self.accepted,
            line,
            &mut self.octets,
            &mut self.link,
            self.quiet,
            page,
        ) {
            Ok(None) => Ok(()),
            Ok(Some(count)) => {
                self.left = count;
                self.lines += 1;
                self.pass_frames(count, page);
                Ok(())
            }
            Err(why) => Err(LineFault::Malformed(why)),
        }
    }

    #[tactic(auto, unfolding(dch_lines::specs::LineTexts::closing))]
    fn close<P: Page>(&self, _nonempty_lines: u64, page: &mut P) {
        put_line(page, &Line::EndFrames(self.frames));
    }

    ghost overlong = { link_refuses_long };

    ghost stood = { ready_stands };
}
