ghost use Rattle.std.specs.Prelude.{◌≡◌, ◌+◌, ◌≤◌, ◌==◌, [], drop, length, if◌then◌else◌};
ghost use Rattle.dch_am.specs.Contents.{body_in};
ghost use Rattle.dch_amrecv.specs.Lines.{greater, line, read_front};
ghost use Rattle.dch_amrecv.specs.Reading.{took_one};
ghost use Rattle.dch_amrecv.specs.Places.{front};

use crate::window::RxWindow;
use dch_rlcpdu::Body;
use dch_sar::Reassembler;

/// Reads on over so many PDUs in front, until a unit waits. Answers how many are left, and the trim of the next one.
pub fn read_on(
    window: &mut RxWindow,
    units: &mut Reassembler,
    trim: Option<u8>,
    todo: usize,
) -> (usize, Option<u8>)
    requires { todo ≤ front window.old.ring.items }
    ensures same { read_front result.0 (line window.new.ring result.1 units.new) ≡
        read_front todo (line window.old.ring trim units.old) }
    ensures within { result.0 ≤ front window.new.ring.items }
    ensures idle { units.new.waiting ≡ [] → result.0 ≡ 0 }
    ensures capacity { (window.new.ring.capacity ≡ window.old.ring.capacity) × (window.new.pdu ≡ window.old.pdu) }
{
    let mut next = trim;
    for done in 0..todo {
        if !units.settled() {
            return (todo - done, next);
        }
        read(units, next, &window.first());
        window.leave(1);
        next = None;
    }
    (0, next)
}

/// Reads the PDUs before the first gap, until a unit waits. Answers how many they are, how many are left, and the trim
/// of the next one.
pub fn run_on(
    window: &mut RxWindow,
    units: &mut Reassembler,
    trim: Option<u8>,
) -> (usize, usize, Option<u8>)
    ensures count { result.0 ≡ front window.old.ring.items }
    ensures same { read_front result.1 (line window.new.ring result.2 units.new) ≡
        read_front (front window.old.ring.items) (line window.old.ring trim units.old) }
    ensures within { result.1 ≤ front window.new.ring.items }
    ensures idle { units.new.waiting ≡ [] → result.1 ≡ 0 }
    ensures gap { front (drop result.1 window.new.ring.items) ≡ 0 }
    ensures capacity { (window.new.ring.capacity ≡ window.old.ring.capacity) × (window.new.pdu ≡ window.old.pdu) }
{
    let run = window.front();
    let (todo, next) = read_on(window, units, trim, run);
    (run, todo, next)
}

/// The trim of the next PDU where so many places are passed and indicators up to another place end no unit.
pub fn greater_trim(trim: Option<u8>, count: usize, n: u8) -> u8
    ensures { result ≡ (if count == 0 then greater trim n else n) }
{
    match trim {
        Some(m) if count == 0 => n.max(m),
        _ => n,
    }
}

/// Reads the next PDU, which has at most 124 indicators and octets. Indicators up to a place may end no unit: octets
/// before the last of them are then dropped.
pub fn read(units: &mut Reassembler, trim: Option<u8>, body: &Body<'_>)
    requires settled { units.old.waiting ≡ [] }
    requires small { length body.now.indicators + length body.now.octets ≤ 124 }
    ensures { units.new ≡ took_one trim (body_in body.now) units.old }
{
    let full = body.previous_full();
    match trim {
        Some(n) => {
            let left_out = (n as usize).saturating_sub(usize::from(full));
            let dead = left_out.min(body.ends());
            units.abandon();
            units.take(false, dead, body);
        }
        None => units.take(full, 0, body),
    }
}
