ghost use Rattle.std.specs.Prelude.{◌≡◌, ◌≤◌, length};

use dch_bits::{NoMemory, Offer};
use dch_rlcpdu::{Handed, read_um};
use dch_rlcum::{UmRecv, UmSend};
use std::alloc::Global;
use std::test::Fail;

// Takes a PDU where no unit waits.
fn feed(receiver: &mut UmRecv, p: &[u8])
    requires { length p.now ≤ 125 }
{
    if let Ok(view) = read_um(p) {
        if receiver.settled() {
            receiver.pdu(&view);
        }
    }
}

// The size of the unit that waits, with its first and its last octet; zeros for one that is too long.
fn unit(receiver: &mut UmRecv) -> Option<(usize, u8, u8)> {
    let mut out = [0; 1500];
    match receiver.next_unit(&mut out) {
        Some(Handed::Whole(size)) if 0 < size && size <= 1500 => Some((
            size,
            out[0],
            out[size - 1],
        )),
        Some(_) => Some((0, 0, 0)),
        None => None,
    }
}

// The units after a PDU of 18 octets, and the first two after one of eight octets more.
fn units_of(
    alloc: Global,
    first: [u8; 18],
    second: [u8; 8],
) -> Result<[Option<(usize, u8, u8)>; 3], NoMemory> {
    let mut receiver = UmRecv::open(alloc)?;
    feed(&mut receiver, &first);
    let before = unit(&mut receiver);
    feed(&mut receiver, &second);
    Ok([before, unit(&mut receiver), unit(&mut receiver)])
}

// One unit of ten octets, its start and its end marked, and padding.
fn marked() -> [u8; 18] {
    [
        0x01, 0xf9, 0x15, 0xfe, 0, 1, 2, 3, 4, 5, 6, 7, 8, 9, 0, 0, 0, 0,
    ]
}

// The same without the indicator of its start.
fn plain() -> [u8; 18] {
    [
        0x01, 0x15, 0xfe, 0, 1, 2, 3, 4, 5, 6, 7, 8, 9, 0, 0, 0, 0, 0,
    ]
}

// PDU 0 without an indicator, all of one unit.
fn just_full() -> [u8; 18] {
    let mut p = [7; 18];
    p[0] = 0;
    p
}

#[test]
fn units_of_pdus(rt: HostRuntime) -> Result<(), Fail> {
    let ten = Some((10, 0, 9));
    // The indicator 0 in PDU 1 ends the unit before it, and in PDU 2, after a loss, one of unknown start. A whole unit
    // stands behind it.
    let indicator_0 = [0x03, 0x01, 0xfe, 0, 0, 0, 0, 0];
    let behind_a_loss = [0x05, 0x05, 0x09, 0xfe, 7, 7, 8, 9];
    assert!(rt; units_of(rt.alloc(), marked(), indicator_0)? == [ten, None, None]);
    assert!(rt; units_of(rt.alloc(), plain(), behind_a_loss)? == [ten, Some((2, 8, 9)), None]);
    assert!(rt; units_of(rt.alloc(), just_full(), indicator_0)? == [None, Some((17, 7, 7)), None]);
    Ok(())
}

/// What is done at a sender, and what comes of it.
#[derive(Clone, Copy)]
enum Step {
    /// A unit of so many octets, 0, 1, 2 and so on, is offered.
    Offer(usize, Offer),
    /// So many PDUs are available.
    Available(u16),
    /// A PDU of these octets is built; zeros stand behind it.
    Build([u8; 18]),
}

// The octets 0, 1, 2 and so on.
fn octets() -> [u8; 1501] {
    let mut octets = [0; 1501];
    for i in 0..1501usize {
        octets[i] = (i % 251) as u8;
    }
    octets
}

fn offer(sender: &mut UmSend, unit: &[u8]) -> Offer
    ensures { sender.new.pdu ≡ sender.old.pdu }
{
    sender.offer(unit)
}

fn offer_octets(sender: &mut UmSend, size: usize) -> Offer
    ensures { sender.new.pdu ≡ sender.old.pdu }
{
    if size <= 1501 {
        offer(sender, &octets()[..size])
    } else {
        Offer::WrongSize
    }
}

// Builds the next PDU where there is one.
fn next_pdu(sender: &mut UmSend, out: &mut [u8])
    requires { length out.old ≡ sender.old.pdu }
    ensures { sender.new.pdu ≡ sender.old.pdu }
{
    if sender.available() > 0 {
        sender.build(out);
    }
}

// Whether the step has this result, where a PDU has as many octets as `out`.
fn goes(sender: &mut UmSend, step: Step, out: &mut [u8]) -> bool
    requires { length out.old ≡ sender.old.pdu }
    ensures { sender.new.pdu ≡ sender.old.pdu }
{
    match step {
        Step::Offer(size, answer) => offer_octets(sender, size) == answer,
        Step::Available(pdus) => sender.available() == pdus,
        Step::Build(p) => {
            next_pdu(sender, out);
            p.starts_with(out)
        }
    }
}

// Whether each step has its result, where a PDU has as many octets as `out`.
fn all_go(sender: &mut UmSend, steps: &[Step], out: &mut [u8]) -> bool
    requires { length out.old ≡ sender.old.pdu }
{
    for step in steps {
        if !goes(sender, *step, out) {
            return false;
        }
    }
    true
}

// Whether there is a sender of such PDUs with so many blocks at which each step has its result.
fn run(alloc: Global, pdu: usize, buffer: u16, mark_start: bool, steps: &[Step]) -> bool
    requires from { 3 ≤ pdu }
    requires most { pdu ≤ 18 }
{
    match UmSend::open(alloc, pdu, buffer, mark_start) {
        Ok(mut sender) => all_go(&mut sender, steps, &mut [0; 18][..pdu]),
        Err(NoMemory) => false,
    }
}

// These octets, and zeros behind them.
fn padded(front: &[u8]) -> [u8; 18]
    requires { length front.now ≤ 18 }
{
    let mut p = [0; 18];
    p[..front.len()].copy_from_slice(front);
    p
}

// 32 PDUs of two octets, and one with the indicator 0.
fn one_block() -> [Step; 7] {
    [
        Step::Offer(65, Offer::Full),
        Step::Offer(1501, Offer::WrongSize),
        Step::Offer(0, Offer::WrongSize),
        Step::Available(0),
        Step::Offer(64, Offer::Accepted),
        Step::Offer(1, Offer::Full),
        Step::Available(33),
    ]
}

fn a_unit_with_padding() -> [Step; 3] {
    [
        Step::Offer(10, Offer::Accepted),
        Step::Build(marked()),
        Step::Available(0),
    ]
}

fn a_unit_that_just_fills_a_pdu() -> [Step; 6] {
    [
        Step::Offer(3, Offer::Accepted),
        Step::Build(padded(&[0x00, 0, 1, 2])),
        Step::Offer(1, Offer::Full),
        Step::Available(1),
        Step::Build(padded(&[0x03, 0x01, 0xfe])),
        Step::Offer(1, Offer::Accepted),
    ]
}

fn three_units_of_which_the_last_goes_on() -> [Step; 6] {
    [
        Step::Offer(2, Offer::Accepted),
        Step::Offer(1, Offer::Accepted),
        Step::Offer(5, Offer::Accepted),
        Step::Available(2),
        Step::Build(padded(&[0x01, 0xf9, 0x05, 0x06, 0, 1, 0, 0, 1, 2])),
        Step::Build(padded(&[0x03, 0x05, 0xfe, 3, 4])),
    ]
}

#[test]
fn pdus_of_units(rt: HostRuntime) {
    assert!(rt; run(rt.alloc(), 3, 1, false, &one_block()));
    assert!(rt; run(rt.alloc(), 18, 4, true, &a_unit_with_padding()));
    assert!(rt; run(rt.alloc(), 4, 1, false, &a_unit_that_just_fills_a_pdu()));
    assert!(rt;
        run(
            rt.alloc(),
            10,
            4,
            true,
            &three_units_of_which_the_last_goes_on()
        )
    );
}

// How many units of 1,500 octets come back whole of 200 PDUs, more than there are numbers.
fn come_back(alloc: Global, mark_start: bool) -> Result<u32, NoMemory> {
    let mut sender = UmSend::open(alloc, 33, 24, mark_start)?;
    let mut receiver = UmRecv::open(alloc)?;
    let mut p = [0; 33];
    let mut out = [0; 1500];
    let mut whole = 0u32;
    for _ in 0..200 {
        let _ = offer_octets(&mut sender, 1500);
        next_pdu(&mut sender, &mut p);
        feed(&mut receiver, &p);
        if receiver.next_unit(&mut out) == Some(Handed::Whole(1500)) && octets().starts_with(&out) {
            whole = whole.wrapping_add(1);
        }
    }
    Ok(whole)
}

#[test]
fn units_sent_and_read_back(rt: HostRuntime) -> Result<(), Fail> {
    assert!(rt; come_back(rt.alloc(), false)? == 4);
    assert!(rt; come_back(rt.alloc(), true)? == 4);
    Ok(())
}
