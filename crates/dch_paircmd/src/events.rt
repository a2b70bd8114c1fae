ghost use Rattle.std.specs.Prelude.{◌≡◌, ◌≢◌, IfErr, OnOk, drop, length, true};
ghost use Rattle.dch_am.specs.Rules.{Rules};
ghost use Rattle.dch_script.specs.Pair.{arrive, build, offer, pair_of};
ghost use Rattle.dch_script.specs.declared.event.LineError.TheVariants.{When};
ghost use Rattle.dch_script.specs.Texts.{is_unit};
ghost use Rattle.dch_types.specs.declared.bearer.Mode.TheVariants.{Am};
ghost use Rattle.dch_paircmd.specs.Ends.{Sides};
ghost use Rattle.dch_paircmd.specs.Handlers.{Answers, AreSides, IsEvent, LeadsTo, Match, SideValue, StaysSide};

use crate::queue::{MOST_OCTETS, MOST_PDUS};
use crate::side::Side;
use crate::texts::{put_octets, put_offer};
use dch_bits::NoMemory;
use dch_lines::{OCTETS, Page, read_octets};
use dch_script::{LineError, PairLine};
use std::alloc::Global;
use std::marker::Model;

/// The most octets of a unit that is handed up.
pub const UNIT: usize = 1500;

/// Room for the octets of a unit that is offered, and for a unit that is handed up.
#[derive(Drop)]
pub struct Rooms {
    octets: Vec<u8>,
    unit: Vec<u8>,
}

impl Model for Rooms {
    ghost use Rattle.std.specs.Prelude.{◌≡◌, length};
    ghost use Rattle.dch_lines.specs.declared.line_texts.TheConstants.{OCTETS};

    ghost Value = { Unit {0} };

    ghost view = { λ _. tt };

    ghost invariant = { λ r. record { octets : length r.octets.items ≡ OCTETS; unit : length r.unit.items ≡ 1500 } };
}

impl Rooms {
    /// Takes the memory.
    pub fn open(alloc: Global) -> Result<Rooms, NoMemory> {
        let octets = vec![in alloc; 0; OCTETS]?;
        let unit = vec![in alloc; 0; UNIT]?;
        Ok(Rooms { octets, unit })
    }
}

/// The event of a line happens at the near end, and its text is written. `When` where nothing is due, 1,024 PDUs are
/// in flight, or none is, and nothing changes then.
pub fn happen<P: Page>(
    near: &mut Side,
    far: &mut Side,
    line: PairLine<'_>,
    rooms: &mut Rooms,
    page: &mut P,
) -> Result<(), LineError>
    requires event { IsEvent (pair_of line) }
    requires matched { Match near.old far.old }
    ensures answers { (rules : Rules) (s : Sides) → AreSides rules near.old far.old s →
        Answers P.writes result rules s (pair_of line.entry) near.new far.new page.old page.new }
    ensures same { IfErr result (λ _. (near.new ≡ near.old) × (far.new ≡ far.old) × (page.new ≡ page.old)) }
    ensures near { StaysSide near.old near.new }
    ensures far { StaysSide far.old far.new }
{
    match line {
        PairLine::Offer { end, hex } => {
            offer(near, end, hex, rooms, page);
            Ok(())
        }
        PairLine::Build { end } => build(near, far, end, page),
        PairLine::Arrive { end } => arrive(near, end, rooms, page),
        PairLine::Lose { .. } => lose(near),
        PairLine::Tick { .. } => {
            near.tick();
            Ok(())
        }
        PairLine::Reset { .. } => {
            near.reset();
            Ok(())
        }
        PairLine::Ends { .. } => unreachable!(),
    }
}

/// Offers a unit to an end, given by its hexadecimal text.
fn offer<P: Page>(near: &mut Side, end: u8, hex: &[u8], rooms: &mut Rooms, page: &mut P)
    requires hex { is_unit Am hex.now ≡ true }
    ensures leads { (rules : Rules) (s : Sides) (far : SideValue) → AreSides rules near.old far s →
        LeadsTo P.writes rules s (offer end hex.now) near.new far page.old page.new }
    ensures near { StaysSide near.old near.new }
{
    let unit = read_octets(hex, &mut rooms.octets);
    let answer = near.offer(unit);
    put_offer(page, end, answer);
}

/// Builds a PDU at an end, which is in flight to the other one then.
fn build<P: Page>(near: &mut Side, far: &mut Side, end: u8, page: &mut P) -> Result<(), LineError>
    requires matched { Match near.old far.old }
    ensures answers { (rules : Rules) (s : Sides) → AreSides rules near.old far.old s →
        Answers P.writes result rules s (build end) near.new far.new page.old page.new }
    ensures same { IfErr result (λ _. (near.new ≡ near.old) × (far.new ≡ far.old) × (page.new ≡ page.old)) }
    ensures near { StaysSide near.old near.new }
    ensures far { StaysSide far.old far.new }
{
    if !near.due() || far.coming() >= MOST_PDUS {
        return Err(LineError::When);
    }
    let mut octets = [0; MOST_OCTETS];
    let out = &mut octets[..near.size()];
    near.build(out);
    far.send(out);
    put_octets(page, b"sent ", end, out);
    Ok(())
}

/// The first PDU in flight to an end arrives there.
fn arrive<P: Page>(
    near: &mut Side,
    end: u8,
    rooms: &mut Rooms,
    page: &mut P,
) -> Result<(), LineError>
    ensures answers { (rules : Rules) (s : Sides) (far : SideValue) → AreSides rules near.old far s →
        Answers P.writes result rules s (arrive end) near.new far page.old page.new }
    ensures same { IfErr result (λ _. (near.new ≡ near.old) × (page.new ≡ page.old)) }
    ensures near { StaysSide near.old near.new }
{
    if near.coming() == 0 {
        return Err(LineError::When);
    }
    near.arrive(end, &mut rooms.unit, page);
    Ok(())
}

/// The first PDU in flight to an end is lost.
fn lose(near: &mut Side) -> Result<(), LineError>
    ensures ok { OnOk result ((length near.old.coming ≢ 0) ×
        (near.new ≡ record near.old { coming = drop 1 near.old.coming })) }
    ensures err { IfErr result (λ why. (why ≡ When) × (length near.old.coming ≡ 0)) }
    ensures same { IfErr result (λ _. near.new ≡ near.old) }
    ensures near { StaysSide near.old near.new }
{
    match near.coming() {
        0 => Err(LineError::When),
        _ => {
            near.lose();
            Ok(())
        }
    }
}
