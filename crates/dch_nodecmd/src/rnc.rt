ghost use Rattle.std.specs.Prelude.{◌≡◌, ◌≤◌, length, IfSome};
ghost use Rattle.dch_script.specs.Good.{IsOfRnc, IsWithin};
ghost use Rattle.dch_script.specs.ParsedLine.{parsed_of};
ghost use Rattle.dch_rnc.specs.Opened.{HasNext, IsNodeOf};
ghost use Rattle.dch_rnc.specs.Standing.{IsActiveBefore, IsReadyFor, KeepsNext, MayCome, Represents, Shows, event_of};
ghost use Rattle.dch_lines.specs.declared.line_texts.TheConstants.{OCTETS, UNIT_BITS};
ghost use Rattle.dch_nodecmd.specs.RncLasting.{rnc_lasting};
ghost use Rattle.dch_nodecmd.specs.RncRules.{rnc_rules};
ghost use Rattle.dch_nodecmd.specs.Reading.{IsPlain, Reads};

use crate::node::CommandNode;
use crate::taken::Taken;
use dch_accept::Accepted;
use dch_bits::{Bit, NoMemory, Trit};
use dch_indication::Indications;
use dch_lines::{read_octets, read_unit};
use dch_rnc::{Rnc, RncEvent};
use dch_script::{Command, Event as LineEvent};
use std::alloc::Global;

impl CommandNode for Rnc {
    ghost use Rattle.dch_rnc.specs.State.{Event, State};

    ghost State = { State };

    ghost Event = { Event };

    ghost rules = { rnc_rules };

    ghost is_opened = { IsNodeOf };

    ghost has_next = { HasNext };

    ghost represents = { Represents };

    ghost shows = { Shows };

    fn command() -> Command {
        Command::Rnc
    }

    fn open(alloc: Global, accepted: &Accepted, first_cfn: u8) -> Result<Rnc, NoMemory> {
        Rnc::open(alloc, accepted, first_cfn)
    }

    fn open_both(
        alloc: Global,
        first: &Accepted,
        second: &Accepted,
        first_cfn: u8,
    ) -> Result<Rnc, NoMemory> {
        Rnc::open_both(alloc, first, second, first_cfn)
    }

    fn take<U: Indications>(
        &mut self,
        accepted: &Accepted,
        event: LineEvent<'_>,
        octets: &mut [u8],
        bits: &mut [Bit],
        _cells: &mut [Trit],
        user: &mut U,
    ) -> Taken {
        let Some((event, frames)) = read(accepted, event, octets, bits) else {
            return Taken::Change;
        };
        self.step_with(accepted, event, user);
        Taken::Event(frames)
    }

    fn change<U: Indications>(&mut self, accepted: &Accepted, user: &mut U) {
        self.step_with(accepted, RncEvent::Change, user);
    }

    ghost active = { λ planned state node stands. stands.at.active };

    ghost lasting = { rnc_lasting };
}

/// What the event of a line is to the network controller, and how many radio frames of 10 ms it stands for. None for a
/// change.
fn read<'a>(
    accepted: &Accepted,
    event: LineEvent<'_>,
    octets: &'a mut [u8],
    bits: &'a mut [Bit],
) -> Option<(RncEvent<'a>, u64)>
    requires good { IsOfRnc accepted.now.config (parsed_of event) }
    requires within { IsWithin (parsed_of event) }
    requires octets { length octets.old ≡ OCTETS }
    requires bits { length bits.old ≡ UNIT_BITS }
    ensures says { Reads rnc_rules (event_of accepted.now) accepted.now.config (parsed_of event.entry) result }
    ensures few { IfSome result (λ read. read.1 ≤ 1) }
    ensures comes { IfSome result (λ read. MayCome accepted.now read.0) }
    ensures plain { IfSome result (λ read. IsPlain (IsNodeOf accepted.now) (IsReadyFor accepted.now read.0)
        (IsActiveBefore accepted.now read.0 accepted.now) (KeepsNext accepted.now read.0) (HasNext accepted.now)) }
{
    match event {
        LineEvent::Unit { bearer, text, .. } => {
            let (octets, bits) = read_unit(accepted.config(), bearer, text, octets, bits);
            let unit = RncEvent::Unit {
                bearer,
                octets,
                bits,
            };
            Some((unit, 0))
        }
        LineEvent::Block { combination, .. } => {
            let block = RncEvent::Block {
                combination,
                on: true,
            };
            Some((block, 0))
        }
        LineEvent::Free { combination, .. } => {
            let free = RncEvent::Block {
                combination,
                on: false,
            };
            Some((free, 0))
        }
        LineEvent::Iub { set, hex } => {
            let frame = read_octets(hex, octets);
            Some((RncEvent::Iub { set, frame }, 0))
        }
        LineEvent::Tick => Some((RncEvent::Tick, 1)),
        LineEvent::Change => None,
        _ => unreachable!(),
    }
}
