ghost use Rattle.std.specs.Prelude.{◌≡◌, ℕ, Some, length, IfOk, IfErr, Err};
ghost use Rattle.dch_script.specs.Good.{IsDamage, IsOfSoft, IsTraffic, IsUnit};
ghost use Rattle.dch_script.specs.ParsedLine.{parsed_of};
ghost use Rattle.dch_script.specs.Soft.{soft_meaning};
ghost use Rattle.dch_link.specs.SoftNodes.{MayCome, MayHit, damage_of, event_of};
ghost use Rattle.dch_link.specs.SoftEvents.{Damages};
ghost use Rattle.dch_lines.specs.declared.line_texts.TheConstants.{OCTETS, UNIT_BITS};
ghost use Rattle.dch_linkcmd.specs.SoftLineEvents.{Says, OneEvent, said_at, said_by, said_of_leg, unit_event};
ghost use Rattle.dch_linkcmd.specs.SoftReading.{MayBe, said_of};

use dch_accept::Accepted;
use dch_bits::Bit;
use dch_lines::read_unit;
use dch_link::{LegDamage, SoftEvent};
use dch_script::{Event, LineError, parse_leg};
use dch_types::Dir;

/// What a line of `soft` says.
#[derive(Clone, Copy)]
pub enum SoftLine<'a> {
    /// What happens between two radio frames.
    Happens(SoftEvent<'a>),
    /// So many radio frames pass, 1 to 100,000.
    Frames(u32),
}

/// Reads what a line says where there are so many legs. The octets or bits of a unit are read into the rooms.
pub fn read_line<'a>(
    accepted: &Accepted,
    legs: u8,
    line: &[u8],
    octets: &'a mut [u8],
    bits: &'a mut [Bit],
) -> Result<SoftLine<'a>, LineError>
    requires octets { length octets.old ≡ OCTETS }
    requires bits { length bits.old ≡ UNIT_BITS }
    ensures says { IfOk result (λ said. Says legs accepted.now.config line.now (said_of said)) }
    ensures comes { IfOk result (MayBe accepted.now legs) }
    ensures err { IfErr result (λ why. soft_meaning legs accepted.now.config line.now ≡ Err why) }
{
    match parse_leg(legs, accepted.config(), line) {
        Ok((Some(leg), event)) => Ok(SoftLine::Happens(SoftEvent::Damage {
            leg,
            damage: read_damage(accepted, event),
        })),
        Ok((None, event)) => Ok(read_event(accepted, event, octets, bits)),
        Err(why) => Err(why),
    }
}

/// Reads what a line says of a leg.
fn read_damage(accepted: &Accepted, event: Event<'_>) -> LegDamage
    requires good { IsDamage accepted.now.config (parsed_of event) }
    ensures says { (leg : ℕ) → said_of_leg leg (parsed_of event.entry) ≡
        Some (OneEvent (Damages leg (damage_of result))) }
    ensures hits { MayHit accepted.now result }
{
    match event {
        Event::Flip { dir, tfci, place } => LegDamage::Flip { dir, tfci, place },
        Event::Lose { dir } => LegDamage::Lose { dir },
        Event::LoseIub { dir, set } => LegDamage::LoseIub { dir, set },
        Event::Spoil {
            dir,
            set,
            octet,
            mask,
        } => LegDamage::Spoil {
            dir,
            set,
            octet,
            mask,
        },
        _ => unreachable!(),
    }
}

/// Reads what a line without a leg says.
fn read_event<'a>(
    accepted: &Accepted,
    event: Event<'_>,
    octets: &'a mut [u8],
    bits: &'a mut [Bit],
) -> SoftLine<'a>
    requires good { IsTraffic accepted.now.config (parsed_of event) }
    requires octets { length octets.old ≡ OCTETS }
    requires bits { length bits.old ≡ UNIT_BITS }
    ensures says { said_by accepted.now.config (parsed_of event.entry) ≡ Some (said_of result) }
    ensures comes { (legs : ℕ) → MayBe accepted.now legs result }
{
    let event = match event {
        Event::Frame(count) => return SoftLine::Frames(count),
        Event::Unit { dir, bearer, text } => offer(accepted, dir, bearer, text, octets, bits),
        Event::Block { dir, combination } => SoftEvent::Block {
            dir,
            combination,
            on: true,
        },
        Event::Free { dir, combination } => SoftEvent::Block {
            dir,
            combination,
            on: false,
        },
        _ => unreachable!(),
    };
    SoftLine::Happens(event)
}

/// A unit is offered to a bearer that sends in a direction.
fn offer<'a>(
    accepted: &Accepted,
    dir: Dir,
    bearer: u8,
    text: &[u8],
    octets: &'a mut [u8],
    bits: &'a mut [Bit],
) -> SoftEvent<'a>
    requires unit { IsUnit accepted.now.config dir bearer text.now }
    requires octets { length octets.old ≡ OCTETS }
    requires bits { length bits.old ≡ UNIT_BITS }
    ensures says { event_of result ≡ unit_event accepted.now.config dir bearer text.now }
    ensures comes { (legs : ℕ) → MayCome accepted.now legs result }
{
    let (octets, bits) = read_unit(accepted.config(), bearer, text, octets, bits);
    SoftEvent::Unit {
        dir,
        bearer,
        octets,
        bits,
    }
}
