ghost use Rattle.std.specs.Prelude.{◌≡◌, ◌≤◌, ◌<◌, IfOk, length};
ghost use Rattle.dch_amrecv.specs.Standing.{IsSame};

use dch_amrecv::{AmRecv, MrwTaken, Taken};
use dch_bits::NoMemory;
use dch_rlcpdu::{AmView, Handed, read_am};
use dch_types::AmRules;
use std::alloc::Global;
use std::test::Fail;

fn rules(missing: bool) -> AmRules
    ensures { result.window ≡ 128 }
{
    AmRules {
        window: 128,
        poll_timer: 0,
        poll_pdus: 0,
        poll_units: 0,
        poll_window: 0,
        status_period: 0,
        status_prohibit: 0,
        missing,
        discard_age: 0,
        discard_sent: 0,
        discard_repeat: 1,
    }
}

/// What a receiver answers to a PDU.
#[derive(Clone, Copy, PartialEq)]
enum Answer {
    Data(Taken),
    Move(MrwTaken),
    Nothing,
}

// Takes the PDU of these octets, where no unit waits.
fn feed(receiver: &mut AmRecv, p: &[u8]) -> Answer
    requires { length p.now ≤ receiver.old.pdu }
    ensures { IsSame receiver.old receiver.new }
{
    match read_am(p) {
        Ok(AmView::Payload { sn, poll, body, .. }) if receiver.settled() && sn < 4096 => {
            Answer::Data(receiver.pdu(sn, poll, &body))
        }
        Ok(AmView::Status(status)) if receiver.settled() => Answer::Move(receiver.control(&status)),
        _ => Answer::Nothing,
    }
}

// A PDU of 18 octets with this number, without an indicator.
fn plain(sn: u16) -> [u8; 18]
    requires { sn < 4096 }
{
    let mut p = [7; 18];
    p[0] = 0x80 | (sn / 32) as u8;
    p[1] = (sn % 32 * 8) as u8;
    p
}

// These octets, and zeros behind them.
fn padded(front: &[u8]) -> [u8; 18]
    requires { length front.now ≤ 18 }
{
    let mut p = [0; 18];
    p[..front.len()].copy_from_slice(front);
    p
}

// A PDU with this number, that has one unit of three such octets.
fn unit_of(sn: u8, octet: u8) -> [u8; 18]
    requires { sn < 32 }
{
    padded(&[0x80, 8 * sn + 1, 0x07, 0xfe, octet, octet, octet])
}

// A status that moves the window to a number, up to a place in its PDU.
fn mrw(sn: u8, n: u8) -> [u8; 18]
    requires { n < 16 }
{
    padded(&[0x06, 0x10, sn, 16 * n])
}

// Writes what is due.
fn told(receiver: &mut AmRecv) -> Option<[u8; 18]>
    requires { receiver.old.reply ≡ 18 }
    ensures { IsSame receiver.old receiver.new }
{
    if !receiver.status_due() {
        return None;
    }
    let mut out = [0xff; 18];
    receiver.write_status(&mut out);
    Some(out)
}

// The size of the unit that waits, with its first and its last octet.
fn unit(receiver: &mut AmRecv) -> Option<(usize, u8, u8)>
    ensures { IsSame receiver.old receiver.new }
{
    let mut out = [0; 1500];
    match receiver.next_unit(&mut out) {
        Some(Handed::Whole(size)) if 0 < size && size <= 1500 => Some((
            size,
            out[0],
            out[size - 1],
        )),
        Some(_) => Some((0, 0, 0)),
        None => None,
    }
}

// A receiver of PDUs of 18 octets, whose statuses have as many.
fn open(alloc: Global, missing: bool) -> Result<AmRecv, NoMemory>
    ensures comes { IfOk result (λ v. v.pdu ≡ 18) }
    ensures goes { IfOk result (λ v. v.reply ≡ 18) }
{
    AmRecv::open(alloc, 18, 18, rules(missing))
}

fn answers_round_the_window(receiver: &mut AmRecv) -> bool
    requires { receiver.old.pdu ≡ 18 }
{
    feed(receiver, &plain(127)) == Answer::Data(Taken::Kept)
        && feed(receiver, &plain(128)) == Answer::Data(Taken::Outside)
        && feed(receiver, &plain(4095)) == Answer::Data(Taken::Duplicate)
}

#[test]
fn numbers_round_the_window(rt: HostRuntime) -> Result<(), Fail> {
    let mut receiver = open(rt.alloc(), true)?;
    let answered = answers_round_the_window(&mut receiver);
    receiver.close();
    assert!(rt; answered);
    Ok(())
}

// PDUs 0 and 3 are kept.
fn tells_two_missing(receiver: &mut AmRecv) -> bool
    requires comes { receiver.old.pdu ≡ 18 }
    requires goes { receiver.old.reply ≡ 18 }
{
    feed(receiver, &plain(0));
    let nothing = told(receiver) == None;
    feed(receiver, &plain(3));
    receiver.tick();
    let two = told(receiver) == Some(padded(&[0x03, 0x10, 0x01, 0x12, 0x00, 0x40]));
    nothing && two && told(receiver) == None
}

#[test]
fn a_status_of_two_missing_pdus(rt: HostRuntime) -> Result<(), Fail> {
    let mut receiver = open(rt.alloc(), true)?;
    let two = tells_two_missing(&mut receiver);
    receiver.close();
    assert!(rt; two);
    Ok(())
}

fn late() -> [u8; 18] {
    [
        0x80, 0x05, 0x15, 0xfe, 0, 1, 2, 3, 4, 5, 6, 7, 8, 9, 0, 0, 0, 0,
    ]
}

// The MRW is answered as this, and then this is told.
fn obeys(receiver: &mut AmRecv, taken: MrwTaken, status: [u8; 18]) -> bool
    requires comes { receiver.old.pdu ≡ 18 }
    requires goes { receiver.old.reply ≡ 18 }
    ensures { IsSame receiver.old receiver.new }
{
    let obeyed = feed(receiver, &mrw(0, 1)) == Answer::Move(taken);
    let said = told(receiver) == Some(status);
    obeyed && said
}

fn obeys_once(receiver: &mut AmRecv) -> bool
    requires comes { receiver.old.pdu ≡ 18 }
    requires goes { receiver.old.reply ≡ 18 }
{
    let first = padded(&[0x07, 0x10, 0x00, 0x00]);
    let second = padded(&[0x07, 0x00, 0x01, 0x20, 0x01]);
    obeys(receiver, MrwTaken::Obeyed, first)
        && feed(receiver, &late()) == Answer::Data(Taken::Kept)
        && unit(receiver) == None
        && obeys(receiver, MrwTaken::Old, second)
        && told(receiver) == None
}

#[test]
fn an_mrw_is_obeyed_once(rt: HostRuntime) -> Result<(), Fail> {
    let mut receiver = open(rt.alloc(), false)?;
    let obeyed = obeys_once(&mut receiver);
    receiver.close();
    assert!(rt; obeyed);
    Ok(())
}

// The first three units after these PDUs.
fn units_of(receiver: &mut AmRecv, pdus: &[[u8; 18]]) -> [Option<(usize, u8, u8)>; 3]
    requires { receiver.old.pdu ≡ 18 }
{
    for p in pdus {
        feed(receiver, p);
    }
    [unit(receiver), unit(receiver), unit(receiver)]
}

// Whether these units are handed up after these PDUs.
fn hands_up(alloc: Global, pdus: &[[u8; 18]], units: &[Option<(usize, u8, u8)>; 3]) -> bool {
    match open(alloc, false) {
        Ok(mut receiver) => {
            let handed = units_of(&mut receiver, pdus);
            receiver.close();
            handed == *units
        }
        Err(NoMemory) => false,
    }
}

// The ends of two units, and the first 12 octets of the next one.
fn two_ends() -> [u8; 18] {
    [
        0x80, 0x01, 0x03, 0x04, 1, 2, 3, 3, 3, 3, 3, 3, 3, 3, 3, 3, 3, 3,
    ]
}

// Units of one, two and three octets.
fn three_units() -> [u8; 18] {
    padded(&[0x80, 0x01, 0x03, 0x07, 0x0d, 0xfe, 1, 2, 2, 3, 3, 3])
}

fn fills_a_gap(alloc: Global) -> bool {
    let pdus = [unit_of(2, 6), unit_of(1, 5), unit_of(2, 9), unit_of(0, 4)];
    hands_up(alloc, &pdus[..3], &[None, None, None])
        && hands_up(
            alloc,
            &pdus,
            &[Some((3, 4, 4)), Some((3, 5, 5)), Some((3, 6, 6))],
        )
}

fn ends_in_the_next_pdu(alloc: Global) -> bool {
    let pdus = [plain(0), padded(&[0x80, 0x09, 0x01, 0xfe])];
    hands_up(alloc, &pdus, &[Some((16, 7, 7)), None, None])
}

#[test]
fn units_in_order(rt: HostRuntime) {
    assert!(rt; fills_a_gap(rt.alloc()));
    assert!(rt; ends_in_the_next_pdu(rt.alloc()));
}

fn goes_to_the_greater_place(alloc: Global) -> bool {
    let pdus = [mrw(0, 2), mrw(0, 1), three_units()];
    hands_up(alloc, &pdus, &[Some((3, 3, 3)), None, None])
}

fn goes_behind_all_indicators(alloc: Global) -> bool {
    let pdus = [mrw(0, 15), two_ends(), padded(&[0x80, 0x09, 0x03, 0xfe, 4])];
    hands_up(alloc, &pdus, &[Some((13, 3, 4)), None, None])
}

fn drops_a_unit_in_progress(alloc: Global) -> bool {
    let pdus = [plain(0), mrw(1, 0), unit_of(1, 5)];
    hands_up(alloc, &pdus, &[Some((3, 5, 5)), None, None])
}

#[test]
fn units_behind_a_discard(rt: HostRuntime) {
    assert!(rt; goes_to_the_greater_place(rt.alloc()));
    assert!(rt; goes_behind_all_indicators(rt.alloc()));
    assert!(rt; drops_a_unit_in_progress(rt.alloc()));
}
