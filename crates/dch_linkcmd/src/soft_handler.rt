ghost use Rattle.std.specs.Prelude.{◌≡◌, ◌<◌, ◌≤◌, ◌+◌, ◌%◌, ℕ, [], length, IfOk, IfErr, Err};
ghost use Rattle.dch_lines.specs.Semantics.{Adds, Leads};
ghost use Rattle.dch_script.specs.Soft.{soft_meaning};
ghost use Rattle.dch_link.specs.SoftPassing.{next_stage};
ghost use Rattle.dch_link.specs.SoftNodes.{HaveHistories, IsSoftOf};
ghost use Rattle.dch_lines.specs.declared.line_texts.TheConstants.{OCTETS};
ghost use Rattle.dch_linkcmd.specs.SoftOverlong.{soft_refuses_long};
ghost use Rattle.dch_linkcmd.specs.SoftRules.{PassesFrame, PassesFrames, PassesStage, soft_lines};
ghost use Rattle.dch_linkcmd.specs.SoftRun.{Run, opened_run};
ghost use Rattle.dch_linkcmd.specs.SoftHandlers.{StandsBetween, IsReady, RepresentsRun, ready_stands};
ghost use Rattle.dch_linkcmd.specs.SoftTaking.{Tells};
ghost use Rattle.dch_linkcmd.specs.Stepping.{GoesBy};

use crate::soft_filter::{happen, lead, pass};
use crate::soft_reading::{SoftLine, read_line};
use dch_accept::Accepted;
use dch_bits::{Bit, NoMemory};
use dch_lines::{Filter, LineFault, LineHandler, OCTETS, Page, UNIT_BITS, put_line};
use dch_link::soft_stage::Stage;
use dch_link::{Leg, NodeB, Rnc, Soft, Ue};
use dch_script::{Line, LineError};
use std::alloc::Global;
use std::marker::Model;

/// The handler of the command `soft`, which takes each line as something that happens between two radio frames, or as
/// radio frames, stage by stage. All memory is taken at opening.
pub struct SoftHandler {
    accepted: Accepted,
    soft: Soft,
    octets: Vec<u8>,
    quiet: bool,
    stage: Stage,
    left: u32,
    frames: u64,
    lines: u64,
}

// By hand, so that whoever holds one drops it by one call.
impl Drop for SoftHandler {
    fn drop(self) {
        let SoftHandler {
            accepted: _accepted,
            soft: _soft,
            octets: _octets,
            quiet: _quiet,
            stage: _stage,
            left: _left,
            frames: _frames,
            lines: _lines,
        } = self;
    }
}

impl Model for SoftHandler {
    ghost use Rattle.std.specs.Prelude.{◌≡◌, length};
    ghost use Rattle.dch_lines.specs.declared.line_texts.TheConstants.{OCTETS};
    ghost use Rattle.dch_linkcmd.specs.SoftHandlers.{Handler};

    ghost Value = { Handler };

    ghost view = { λ h. record {
      accepted = h.accepted;
      soft = h.soft;
      quiet = h.quiet;
      stage = h.stage;
      left = h.left;
      frames = h.frames;
      lines = h.lines;
    } };

    ghost invariant = { λ h. length h.octets.items ≡ OCTETS };
}

impl SoftHandler {
    /// Opens the nodes for a configuration, with so many legs, of which there are 1 to 6. The first radio frame has
    /// this CFN. With `quiet` the lines of frames are left out of the text.
    pub fn open(
        alloc: Global,
        accepted: Accepted,
        first_cfn: u8,
        legs: u8,
        quiet: bool,
    ) -> Result<SoftHandler, NoMemory>
        requires first { first_cfn % 8 ≡ 0 }
        requires some { 1 ≤ legs }
        requires few { legs ≤ 6 }
        ensures ready { IfOk result StandsBetween }
        ensures stands { IfOk result (RepresentsRun (opened_run accepted first_cfn legs quiet)) }
        ensures new { IfOk result (λ handler. (handler.accepted ≡ accepted) × (handler.lines ≡ 0)) }
    {
        let Ok(octets) = vec![in alloc; 0; OCTETS] else {
            return Err(NoMemory);
        };
        let Ok(soft) = Soft::open(alloc, &accepted, first_cfn, legs) else {
            return Err(NoMemory);
        };
        Ok(SoftHandler {
            accepted,
            soft,
            octets,
            quiet,
            stage: Stage::RncTick,
            left: 0,
            frames: 0,
            lines: 0,
        })
    }

    /// The nodes, after the work: each leg has a Node B. Each stands for what happened to it in the run.
    pub fn into_nodes(self) -> (Ue, Vec<Leg>, Rnc)
        ensures { (run : Run) → RepresentsRun run self →
            HaveHistories self.accepted run.first run.soft result.0 result.1.items result.2 }
    {
        let SoftHandler {
            accepted: _accepted,
            soft,
            octets: _octets,
            quiet: _quiet,
            stage: _stage,
            left: _left,
            frames: _frames,
            lines: _lines,
        } = self;
        soft.into_nodes()
    }

    /// Passes so many radio frames. Once a write has failed, the one that is on is the last. None is left then.
    fn pass_frames<P: Page>(&mut self, count: u32, page: &mut P)
        requires ready { IsReady self.old }
        requires left { self.old.left ≡ count }
        requires some { 1 ≤ count }
        requires first { self.old.stage ≡ Stage.RncTick }
        ensures passes { Leads RepresentsRun self.old self.new
            (λ old new. Adds P.writes (PassesFrames (P.broken page.new) old new) page.old page.new) }
        ensures ready { IsReady self.new }
        ensures first { self.new.stage ≡ Stage.RncTick }
        ensures none { self.new.left ≡ 0 }
        ensures lines { self.new.lines ≡ self.old.lines }
    {
        for _ in 0..count {
            self.pass_frame(page);
            if !page.is_open() {
                self.leave_off();
                return;
            }
        }
    }

    /// Leaves off the radio frames that are left of a line.
    fn leave_off(&mut self)
        requires { IsReady self.old }
        ensures ready { IsReady self.new }
        ensures none { self.new ≡ record self.old { left = 0 } }
    {
        self.left = 0;
    }

    /// Passes a radio frame, stage by stage.
    fn pass_frame<P: Page>(&mut self, page: &mut P)
        requires ready { IsReady self.old }
        requires left { 0 < self.old.left }
        requires first { self.old.stage ≡ Stage.RncTick }
        ensures passes { Leads RepresentsRun self.old self.new
            (λ old new. Adds P.writes (PassesFrame old new) page.old page.new) }
        ensures ready { IsReady self.new }
        ensures first { self.new.stage ≡ Stage.RncTick }
        ensures left { self.new.left + 1 ≡ self.old.left }
        ensures lines { self.new.lines ≡ self.old.lines }
        ensures legs { length self.new.soft.legs ≡ length self.old.soft.legs }
    {
        let stages = Stage::RncTick.left(self.soft.legs());
        for _ in 0..stages {
            self.pass(page);
        }
    }

    /// Passes the next stage of a radio frame, after the last of which the next radio frame is on.
    fn pass<P: Page>(&mut self, page: &mut P)
        requires ready { IsReady self.old }
        requires left { 0 < self.old.left }
        ensures passes { Leads RepresentsRun self.old self.new
            (λ old new. Adds P.writes (PassesStage old new) page.old page.new) }
        ensures ready { IsReady self.new }
        ensures accepted { self.new.accepted ≡ self.old.accepted }
        ensures lines { self.new.lines ≡ self.old.lines }
        ensures legs { length self.new.soft.legs ≡ length self.old.soft.legs }
        ensures goes { GoesBy Stage.RncTick (next_stage (length self.old.soft.legs) self.old.stage)
            self.old.left self.new.stage self.new.left }
    {
        let mut filter = Filter {
            quiet: self.quiet,
            lead: lead(self.stage.leg()),
            page,
        };
        pass(&mut filter, &self.accepted, self.stage, &mut self.soft);
        match self.stage.next(self.soft.legs()) {
            Some(stage) => self.stage = stage,
            None => {
                self.soft.end_frame(&self.accepted);
                self.stage = Stage::RncTick;
                self.left -= 1;
                self.frames += 1;
            }
        }
    }
}

/// Takes a line. Answers how many radio frames it asks for, if it asks for any; otherwise what it says has happened.
/// `octets` is room for the octets of a unit.
fn take<P: Page>(
    accepted: &Accepted,
    line: &[u8],
    octets: &mut [u8],
    soft: &mut Soft,
    quiet: bool,
    page: &mut P,
) -> Result<Option<u32>, LineError>
    requires octets { length octets.old ≡ OCTETS }
    requires opened { IsSoftOf accepted.now soft.old }
    ensures ok { IfOk result (λ count. Tells P.writes accepted.now line.now count quiet soft.old soft.new page.old
        page.new) }
    ensures err { IfErr result (λ why. soft_meaning (length soft.old.legs) accepted.now.config line.now ≡ Err why) }
    ensures same { IfErr result (λ _. (soft.new ≡ soft.old) × (page.new ≡ page.old)) }
    ensures opened { IsSoftOf accepted.now soft.new }
    ensures legs { length soft.new.legs ≡ length soft.old.legs }
{
    let mut bits = [Bit::Zero; UNIT_BITS];
    match read_line(accepted, soft.legs(), line, octets, &mut bits) {
        Ok(SoftLine::Happens(event)) => {
            let mut filter = Filter {
                quiet,
                lead: &[],
                page,
            };
            happen(&mut filter, accepted, event, soft);
            Ok(None)
        }
        Ok(SoftLine::Frames(count)) => Ok(Some(count)),
        Err(why) => Err(why),
    }
}

impl LineHandler for SoftHandler {
    ghost State = { Run };

    ghost semantics = { soft_lines };

    ghost represents = { RepresentsRun };

    ghost stands = { StandsBetween };

    ghost handled = { λ h. h.lines };

    fn handle_line<P: Page>(&mut self, line: &[u8], page: &mut P) -> Result<(), LineFault> {
        match take(
            &self.accepted,
            line,
            &mut self.octets,
            &mut self.soft,
            self.quiet,
            page,
        ) {
            Ok(None) => Ok(()),
            Ok(Some(count)) => {
                self.left = count;
                self.lines += 1;
                self.pass_frames(count, page);
                Ok(())
            }
            Err(why) => Err(LineFault::Malformed(why)),
        }
    }

    #[tactic(auto, unfolding(dch_lines::specs::LineTexts::closing))]
    fn close<P: Page>(&self, _nonempty_lines: u64, page: &mut P) {
        put_line(page, &Line::EndFrames(self.frames));
    }

    ghost overlong = { soft_refuses_long };

    ghost stood = { ready_stands };
}
