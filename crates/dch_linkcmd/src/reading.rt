ghost use Rattle.std.specs.Prelude.{◌≡◌, Some, length, IfOk, IfErr, Err};
ghost use Rattle.dch_script.specs.Good.{IsOfLink, IsUnit};
ghost use Rattle.dch_script.specs.Meaning.{meaning_in};
ghost use Rattle.dch_script.specs.ParsedLine.{parsed_of};
ghost use Rattle.dch_script.specs.declared.event.Command.TheVariants.{Link};
ghost use Rattle.dch_link.specs.LinkNodes.{MayCome, event_of};
ghost use Rattle.dch_lines.specs.declared.line_texts.TheConstants.{OCTETS, UNIT_BITS};
ghost use Rattle.dch_linkcmd.specs.LineEvents.{Says, said_by, unit_event};
ghost use Rattle.dch_linkcmd.specs.Reading.{MayBe, said_of};

use dch_accept::Accepted;
use dch_bits::Bit;
use dch_lines::read_unit;
use dch_link::LinkEvent;
use dch_script::{Command, Event, LineError, parse_in};
use dch_types::Dir;

/// What a line of `link` says.
#[derive(Clone, Copy)]
pub enum LinkLine<'a> {
    /// What happens between two radio frames.
    Happens(LinkEvent<'a>),
    /// So many radio frames pass, 1 to 100,000.
    Frames(u32),
}

/// Reads what a line says. The octets or bits of a unit are read into the rooms.
pub fn read_line<'a>(
    accepted: &Accepted,
    line: &[u8],
    octets: &'a mut [u8],
    bits: &'a mut [Bit],
) -> Result<LinkLine<'a>, LineError>
    requires octets { length octets.old ≡ OCTETS }
    requires bits { length bits.old ≡ UNIT_BITS }
    ensures says { IfOk result (λ said. Says accepted.now.config line.now (said_of said)) }
    ensures comes { IfOk result (MayBe accepted.now) }
    ensures err { IfErr result (λ why. meaning_in Link accepted.now.config line.now ≡ Err why) }
{
    match parse_in(Command::Link, accepted.config(), line) {
        Ok(event) => Ok(read_event(accepted, event, octets, bits)),
        Err(why) => Err(why),
    }
}

/// Reads the texts of an event.
fn read_event<'a>(
    accepted: &Accepted,
    event: Event<'_>,
    octets: &'a mut [u8],
    bits: &'a mut [Bit],
) -> LinkLine<'a>
    requires good { IsOfLink accepted.now.config (parsed_of event) }
    requires octets { length octets.old ≡ OCTETS }
    requires bits { length bits.old ≡ UNIT_BITS }
    ensures says { said_by accepted.now.config (parsed_of event.entry) ≡ Some (said_of result) }
    ensures comes { MayBe accepted.now result }
{
    let event = match event {
        Event::Frame(count) => return LinkLine::Frames(count),
        Event::Unit { dir, bearer, text } => offer(accepted, dir, bearer, text, octets, bits),
        Event::Block { dir, combination } => LinkEvent::Block {
            dir,
            combination,
            on: true,
        },
        Event::Free { dir, combination } => LinkEvent::Block {
            dir,
            combination,
            on: false,
        },
        Event::Flip { dir, tfci, place } => LinkEvent::Flip { dir, tfci, place },
        Event::Lose { dir } => LinkEvent::Lose { dir },
        Event::LoseIub { dir, set } => LinkEvent::LoseIub { dir, set },
        Event::Spoil {
            dir,
            set,
            octet,
            mask,
        } => LinkEvent::Spoil {
            dir,
            set,
            octet,
            mask,
        },
        _ => unreachable!(),
    };
    LinkLine::Happens(event)
}

/// A unit is offered to a bearer that sends in a direction.
fn offer<'a>(
    accepted: &Accepted,
    dir: Dir,
    bearer: u8,
    text: &[u8],
    octets: &'a mut [u8],
    bits: &'a mut [Bit],
) -> LinkEvent<'a>
    requires unit { IsUnit accepted.now.config dir bearer text.now }
    requires octets { length octets.old ≡ OCTETS }
    requires bits { length bits.old ≡ UNIT_BITS }
    ensures says { event_of result ≡ unit_event accepted.now.config dir bearer text.now }
    ensures comes { MayCome accepted.now result }
{
    let (octets, bits) = read_unit(accepted.config(), bearer, text, octets, bits);
    LinkEvent::Unit {
        dir,
        bearer,
        octets,
        bits,
    }
}
