ghost use Rattle.std.specs.Prelude.{◌≡◌, ◌≤◌, length, IfSome};
ghost use Rattle.dch_script.specs.Good.{IsOfNodeB, IsWithin};
ghost use Rattle.dch_script.specs.ParsedLine.{parsed_of};
ghost use Rattle.dch_nodeb.specs.Opened.{HasNext, IsNodeOf};
ghost use Rattle.dch_nodeb.specs.Standing.{IsActiveBefore, IsReadyFor, KeepsNext, MayCome, Represents, Shows, event_of};
ghost use Rattle.dch_lines.specs.declared.line_texts.TheConstants.{CELLS, OCTETS, UNIT_BITS};
ghost use Rattle.dch_nodecmd.specs.NodeBLasting.{node_b_lasting};
ghost use Rattle.dch_nodecmd.specs.NodeBRules.{node_b_rules};
ghost use Rattle.dch_nodecmd.specs.Reading.{IsPlain, Reads};

use crate::node::CommandNode;
use crate::radio::read_radio;
use crate::taken::Taken;
use dch_accept::Accepted;
use dch_bits::{Bit, NoMemory, Trit};
use dch_indication::Indications;
use dch_lines::read_octets;
use dch_nodeb::{NodeB, NodeBEvent};
use dch_script::{Command, Event as LineEvent};
use dch_types::Dir;
use std::alloc::Global;

impl CommandNode for NodeB {
    ghost use Rattle.dch_nodeb.specs.State.{Event, State};

    ghost State = { State };

    ghost Event = { Event };

    ghost rules = { node_b_rules };

    ghost is_opened = { IsNodeOf };

    ghost has_next = { HasNext };

    ghost represents = { Represents };

    ghost shows = { Shows };

    fn command() -> Command {
        Command::NodeB
    }

    fn open(alloc: Global, accepted: &Accepted, first_cfn: u8) -> Result<NodeB, NoMemory> {
        NodeB::open(alloc, accepted, first_cfn)
    }

    fn open_both(
        alloc: Global,
        first: &Accepted,
        second: &Accepted,
        first_cfn: u8,
    ) -> Result<NodeB, NoMemory> {
        NodeB::open_both(alloc, first, second, first_cfn)
    }

    fn take<U: Indications>(
        &mut self,
        accepted: &Accepted,
        event: LineEvent<'_>,
        octets: &mut [u8],
        bits: &mut [Bit],
        cells: &mut [Trit],
        user: &mut U,
    ) -> Taken {
        let Some((event, frames)) = read(accepted, event, octets, bits, cells) else {
            return Taken::Change;
        };
        self.step_with(accepted, event, user);
        Taken::Event(frames)
    }

    fn change<U: Indications>(&mut self, accepted: &Accepted, user: &mut U) {
        self.step_with(accepted, NodeBEvent::Change, user);
    }

    ghost active = { λ planned state node stands. stands.active };

    ghost lasting = { node_b_lasting };
}

/// What the event of a line is to the Node B, and how many radio frames of 10 ms it stands for. None for a change.
fn read<'a>(
    accepted: &Accepted,
    event: LineEvent<'_>,
    octets: &'a mut [u8],
    bits: &'a mut [Bit],
    cells: &'a mut [Trit],
) -> Option<(NodeBEvent<'a>, u64)>
    requires good { IsOfNodeB accepted.now.config (parsed_of event) }
    requires within { IsWithin (parsed_of event) }
    requires octets { length octets.old ≡ OCTETS }
    requires bits { length bits.old ≡ UNIT_BITS }
    requires cells { length cells.old ≡ CELLS }
    ensures says { Reads node_b_rules (event_of accepted.now) accepted.now.config (parsed_of event.entry) result }
    ensures few { IfSome result (λ read. read.1 ≤ 1) }
    ensures comes { IfSome result (λ read. MayCome accepted.now read.0) }
    ensures plain { IfSome result (λ read. IsPlain (IsNodeOf accepted.now) (IsReadyFor accepted.now read.0)
        (IsActiveBefore accepted.now read.0 accepted.now) (KeepsNext accepted.now read.0) (HasNext accepted.now)) }
{
    match event {
        LineEvent::Iub { set, hex } => {
            let frame = read_octets(hex, octets);
            Some((NodeBEvent::Iub { set, frame }, 0))
        }
        LineEvent::Down => Some((NodeBEvent::Down, 0)),
        LineEvent::Phy {
            tfci,
            cells: letters,
        } => {
            let frame = read_radio(accepted, Dir::Up, tfci, letters, bits, cells);
            Some((NodeBEvent::Phy { frame: Some(frame) }, 1))
        }
        LineEvent::PhyNone => Some((NodeBEvent::Phy { frame: None }, 1)),
        LineEvent::Change => None,
        _ => unreachable!(),
    }
}
