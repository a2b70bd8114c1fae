ghost use Rattle.std.specs.Prelude.{◌≡◌, ◌<◌, ◌≤◌, ◌+◌, ◌%◌, ◌++◌, ℕ, List, Some, length, IfOk};
ghost use Rattle.dch_accept.specs.Plans.{IsPlanned};
ghost use Rattle.dch_node.specs.Lines.{Line};
ghost use Rattle.dch_link.specs.Events.{Happens};
ghost use Rattle.dch_link.specs.Link.{LinkState, opened_link};
ghost use Rattle.dch_link.specs.Passing.{IsStage};
ghost use Rattle.dch_link.specs.Stages.{AtStage};
ghost use Rattle.dch_link.specs.LinkNodes.{HaveHistories, MayCome, Represents, event_of};
ghost use Rattle.dch_gen.specs.Summary.{summary};
ghost use Rattle.dch_gen.specs.Run.{HappenAll, PassesAll, PassesFrame, Runs};
ghost use Rattle.dch_gen.specs.Generators.{Advances, HasBearers, HasPassed, IsReady, MayCount};
ghost use Rattle.dch_gen.specs.Units.{offered_below, offers};
ghost use Rattle.dch_gen.specs.Sizes.{size_of};

use crate::counts::{BEARERS, Counts};
use crate::units::{MOST_BITS, MOST_OCTETS, UnitSize, fill_bits, fill_octets, unit_size};
use dch_accept::Accepted;
use dch_bits::{Bit, NoMemory};
use dch_link::{Link, LinkEvent, NodeB, Rnc, Stage, Ue};
use dch_script::Report;
use dch_types::Dir;
use std::alloc::Global;
use std::marker::Model;

/// Three nodes that run together, to whose bearers units are offered before each radio frame, and what is counted of
/// what they tell. All memory is taken at opening.
pub struct Generator {
    accepted: Accepted,
    link: Link,
    counts: Counts,
}

// By hand, so that whoever holds one drops it by one call.
impl Drop for Generator {
    fn drop(self) {
        let Generator {
            accepted: _accepted,
            link: _link,
            counts: _counts,
        } = self;
    }
}

impl Model for Generator {
    ghost use Rattle.dch_gen.specs.Generators.{Parts};

    ghost Value = { Parts };

    ghost view = { λ g. record { accepted = g.accepted; link = g.link; counts = g.counts } };
}

impl Generator {
    /// Opens the nodes for a configuration, of which the first six bearers send in both directions. The first radio
    /// frame has this CFN.
    pub fn open(alloc: Global, accepted: Accepted, first_cfn: u8) -> Result<Generator, NoMemory>
        requires cfn { first_cfn % 8 ≡ 0 }
        requires bearers { HasBearers accepted }
        ensures ready { IfOk result IsReady }
        ensures room { IfOk result (λ generator. MayCount generator 3200000) }
        ensures stands { IfOk result (λ generator. (n : ℕ) → HasPassed first_cfn n 0 generator) }
        ensures accepted { IfOk result (λ generator. generator.accepted ≡ accepted) }
        ensures planned { IfOk result (λ generator. IsPlanned generator.accepted) }
    {
        // A good configuration has at most 16 bearers.
        let _config = accepted.config();
        let link = Link::open(alloc, &accepted, first_cfn)?;
        Ok(Generator {
            accepted,
            link,
            counts: Counts::new(),
        })
    }

    /// Runs through so many radio frames, before each of which units are offered.
    pub fn run(&mut self, frames: u32)
        requires few { frames ≤ 100000 }
        requires ready { IsReady self.old }
        requires room { MayCount self.old 3200000 }
        ensures passed { (first : ℕ) → HasPassed first frames 0 self.old → HasPassed first frames frames self.new }
        ensures accepted { self.new.accepted ≡ self.old.accepted }
    {
        for frame in 0..frames {
            self.pass_frame(frame, frames);
        }
    }

    /// Writes the summary of a run through so many radio frames.
    pub fn put_summary(&self, frames: u32, report: &mut Report)
        requires { length report.old.text + 1500 ≤ report.old.most }
        ensures { (first : ℕ) (is : HasPassed first frames frames self.now) →
            report.new ≡ record report.old { text = report.old.text ++ summary frames is.lines } }
    {
        self.counts.put_summary(frames, report);
    }

    /// The nodes, after the work. Each stands for what happened to it.
    pub fn into_nodes(self) -> (Ue, NodeB, Rnc)
        ensures { (first : ℕ) (link : LinkState) → Represents self.accepted self.accepted first link self.link →
            HaveHistories self.accepted self.accepted first link result.0 result.1 result.2 }
    {
        let Generator {
            accepted: _accepted,
            link,
            counts: _counts,
        } = self;
        link.into_nodes()
    }

    /// Offers units to the bearers of both directions, and passes a radio frame.
    fn pass_frame(&mut self, frame: u32, frames: u32)
        requires few { frame < 100000 }
        requires ready { IsReady self.old }
        requires room { MayCount self.old 32 }
        ensures { Advances 32 (PassesFrame frames frame) self.old self.new }
    {
        self.offer(Dir::Up, frame, frames);
        self.offer(Dir::Down, frame, frames);
        self.pass_stages();
    }

    /// Offers units to the bearers of a direction.
    fn offer(&mut self, dir: Dir, frame: u32, frames: u32)
        requires few { frame < 100000 }
        requires ready { IsReady self.old }
        requires room { MayCount self.old 6 }
        ensures { Advances 6 (HappenAll (offered_below frames frame dir 6)) self.old self.new }
    {
        for bearer in 0..BEARERS {
            self.offer_unit(dir, bearer as u8, frame, frames);
        }
    }

    /// Offers a unit to a bearer, where it is time for one.
    fn offer_unit(&mut self, dir: Dir, bearer: u8, frame: u32, frames: u32)
        requires bearer { bearer < 6 }
        requires few { frame < 100000 }
        requires ready { IsReady self.old }
        requires room { MayCount self.old 1 }
        ensures { Advances 1 (HappenAll (offers frame dir bearer (size_of frames frame bearer))) self.old self.new }
    {
        match unit_size(bearer, frame, frames) {
            Some(UnitSize::Bits(count)) => self.offer_bits(dir, bearer, frame, count),
            Some(UnitSize::Octets(count)) => self.offer_octets(dir, bearer, frame, count),
            None => {}
        }
    }

    fn offer_bits(&mut self, dir: Dir, bearer: u8, frame: u32, count: usize)
        requires bearer { bearer < 6 }
        requires few { frame < 100000 }
        requires short { count ≤ 103 }
        requires ready { IsReady self.old }
        requires room { MayCount self.old 1 }
        ensures { Advances 1 (HappenAll (offers frame dir bearer (Some (UnitSize.Bits count)))) self.old self.new }
    {
        let mut room = [Bit::Zero; MOST_BITS];
        let bits = &mut room[..count];
        fill_bits(bits, dir, bearer, frame);
        self.happen(LinkEvent::Unit {
            dir,
            bearer,
            octets: &[],
            bits,
        });
    }

    fn offer_octets(&mut self, dir: Dir, bearer: u8, frame: u32, count: usize)
        requires bearer { bearer < 6 }
        requires few { frame < 100000 }
        requires short { count ≤ 400 }
        requires ready { IsReady self.old }
        requires room { MayCount self.old 1 }
        ensures { Advances 1 (HappenAll (offers frame dir bearer (Some (UnitSize.Octets count)))) self.old self.new }
    {
        let mut room = [0; MOST_OCTETS];
        let octets = &mut room[..count];
        fill_octets(octets, dir, bearer, frame);
        self.happen(LinkEvent::Unit {
            dir,
            bearer,
            octets,
            bits: &[],
        });
    }

    /// Something happens at the nodes.
    fn happen(&mut self, event: LinkEvent<'_>)
        requires event { MayCome self.old.accepted event }
        requires ready { IsReady self.old }
        requires room { MayCount self.old 1 }
        ensures { Advances 1 (λ link next lines. Happens link (event_of event.entry) next lines) self.old self.new }
    {
        self.link.happen(&self.accepted, event, &mut self.counts);
    }

    /// The nodes pass all stages of a radio frame.
    fn pass_stages(&mut self)
        requires ready { IsReady self.old }
        requires room { MayCount self.old 20 }
        ensures { Advances 20 PassesAll self.old self.new }
    {
        let mut next = Some(Stage::RncTick);
        while let Some(stage) = next {
            self.pass(stage);
            next = stage.next();
        }
        self.link.end_frame(&self.accepted);
    }

    /// The nodes pass a stage of a radio frame.
    fn pass(&mut self, stage: Stage)
        requires stage { IsStage stage }
        requires ready { IsReady self.old }
        requires room { MayCount self.old 1 }
        ensures { Advances 1 (AtStage stage) self.old self.new }
    {
        self.link.pass(&self.accepted, stage, &mut self.counts);
    }
}
