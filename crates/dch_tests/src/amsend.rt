ghost use Rattle.std.specs.Prelude.{◌≡◌, ◌≤◌, length};
ghost use Rattle.dch_amsend.specs.Standing.{IsSame};

use dch_amsend::{AmSend, StatusTaken};
use dch_bits::{NoMemory, Offer};
use dch_rlcpdu::{AmView, read_am};
use dch_types::AmRules;
use std::alloc::Global;

/// What is done at a sender whose PDUs have 18 octets, and what comes of it.
#[derive(Clone, Copy)]
enum Step {
    /// A unit of so many octets, all 7, is offered.
    Offer(usize, Offer),
    /// So many units of fifteen octets are sent, each of which fills a PDU with its indicator.
    Send(u8),
    /// So many PDUs are built.
    BuildMany(u8),
    /// A PDU is built of these octets, so many octets of 7, and zeros; of zeros where none is available.
    Build([u8; 4], u8),
    /// A status arrives.
    Hear([u8; 6], StatusTaken),
    /// So many ticks.
    Wait(u8),
    /// So many units have been discarded.
    Discarded(u64),
    /// What is due to be told has these octets, and zeros behind them; zeros alone where nothing is due.
    Tell([u8; 4]),
}

fn rules() -> AmRules
    ensures { result.window ≤ 2048 }
{
    AmRules {
        window: 128,
        poll_timer: 2,
        poll_pdus: 0,
        poll_units: 0,
        poll_window: 0,
        status_period: 0,
        status_prohibit: 0,
        missing: true,
        discard_age: 5,
        discard_sent: 0,
        discard_repeat: 30,
    }
}

// The next PDU, zeros where there is none.
fn next(sender: &mut AmSend) -> [u8; 18]
    requires { sender.old.outgoing.size ≡ 18 }
    ensures { IsSame sender.old sender.new }
{
    let mut out = [0; 18];
    if sender.available() > 0 {
        sender.build(&mut out);
    }
    out
}

// These octets, so many of 7, and zeros.
fn padded(front: [u8; 4], sevens: u8) -> [u8; 18] {
    let mut pdu = [0; 18];
    pdu[..4].copy_from_slice(&front);
    for octet in pdu[4..].iter_mut().take(sevens as usize) {
        *octet = 7;
    }
    pdu
}

// The MRW that is due, zeros where none is.
fn next_mrw(sender: &mut AmSend) -> [u8; 18]
    requires { sender.old.outgoing.size ≡ 18 }
    ensures { IsSame sender.old sender.new }
{
    let mut out = [0; 18];
    if sender.control_due() {
        sender.write_control(&mut out);
    }
    out
}

fn hear(sender: &mut AmSend, status: &[u8]) -> Option<StatusTaken>
    ensures { IsSame sender.old sender.new }
{
    match read_am(status) {
        Ok(AmView::Status(status)) => Some(sender.status(&status)),
        _ => None,
    }
}

fn wait(sender: &mut AmSend, ticks: u8)
    ensures { IsSame sender.old sender.new }
{
    for _ in 0..ticks {
        sender.tick();
    }
}

// A unit of so many octets is offered.
fn offer(sender: &mut AmSend, octets: usize) -> Offer
    ensures { IsSame sender.old sender.new }
{
    let unit = [7; 1501];
    if octets <= 1501 {
        sender.offer(&unit[..octets])
    } else {
        Offer::WrongSize
    }
}

fn send(sender: &mut AmSend, units: u8)
    requires { sender.old.outgoing.size ≡ 18 }
    ensures { IsSame sender.old sender.new }
{
    for _ in 0..units {
        offer(sender, 15);
        next(sender);
    }
}

fn build_many(sender: &mut AmSend, pdus: u8)
    requires { sender.old.outgoing.size ≡ 18 }
    ensures { IsSame sender.old sender.new }
{
    for _ in 0..pdus {
        next(sender);
    }
}

// Whether the step has this result.
fn goes(sender: &mut AmSend, step: Step) -> bool
    requires { sender.old.outgoing.size ≡ 18 }
    ensures { IsSame sender.old sender.new }
{
    match step {
        Step::Offer(octets, answer) => offer(sender, octets) == answer,
        Step::Send(units) => {
            send(sender, units);
            true
        }
        Step::BuildMany(pdus) => {
            build_many(sender, pdus);
            true
        }
        Step::Build(front, sevens) => next(sender) == padded(front, sevens),
        Step::Hear(status, taken) => hear(sender, &status) == Some(taken),
        Step::Wait(ticks) => {
            wait(sender, ticks);
            true
        }
        Step::Discarded(units) => sender.discarded() == units,
        Step::Tell(front) => next_mrw(sender) == padded(front, 0),
    }
}

// Whether each step has its result.
fn all_go(sender: &mut AmSend, steps: &[Step]) -> bool
    requires { sender.old.outgoing.size ≡ 18 }
{
    for step in steps {
        if !goes(sender, *step) {
            return false;
        }
    }
    true
}

// Whether there is a sender with so many blocks at which each step has its result.
fn run(alloc: Global, buffer: u16, rules: AmRules, steps: &[Step]) -> bool
    requires { rules.window ≤ 2048 }
{
    match AmSend::open(alloc, 18, buffer, rules) {
        Ok(mut sender) => {
            let sent = all_go(&mut sender, steps);
            sender.close();
            sent
        }
        Err(NoMemory) => false,
    }
}

fn padding_and_its_discard() -> [Step; 11] {
    [
        Step::Offer(0, Offer::WrongSize),
        Step::Offer(10, Offer::Accepted),
        Step::Build([0x80, 0x05, 0x15, 0xfe], 10),
        Step::Wait(4),
        Step::Discarded(0),
        Step::Wait(1),
        Step::Discarded(1),
        Step::Tell([0x06, 0x10, 0x00, 0x10]),
        Step::Hear([0x07, 0x00, 0x01, 0x20, 0x01, 0], StatusTaken::Taken),
        Step::Wait(40),
        Step::Tell([0; 4]),
    ]
}

fn just_full_and_its_discard() -> [Step; 5] {
    [
        Step::Offer(16, Offer::Accepted),
        Step::Build([0x80, 0x00, 7, 7], 14),
        Step::Build([0x80, 0x0d, 0x01, 0xfe], 0),
        Step::Wait(5),
        Step::Tell([0x06, 0x10, 0x01, 0x00]),
    ]
}

fn longest() -> [Step; 2] {
    [
        Step::Offer(1501, Offer::WrongSize),
        Step::Offer(1500, Offer::Accepted),
    ]
}

#[test]
fn units_and_their_discard(rt: HostRuntime) {
    assert!(rt; run(rt.alloc(), 64, rules(), &longest()));
    assert!(rt; run(rt.alloc(), 64, rules(), &padding_and_its_discard()));
    assert!(rt; run(rt.alloc(), 64, rules(), &just_full_and_its_discard()));
}

// Of PDUs 0 to 3 in flight a status names 1 and 2 as missing.
fn statuses() -> [Step; 7] {
    [
        Step::Send(4),
        Step::Hear([0x02, 0x00, 0x50, 0, 0, 0], StatusTaken::Outside(5)),
        Step::Hear(
            [0x03, 0x10, 0x04, 0x02, 0x00, 0x40],
            StatusTaken::Outside(4),
        ),
        Step::Hear([0x03, 0x10, 0x01, 0x12, 0x00, 0x40], StatusTaken::Taken),
        Step::Build([0x80, 0x09, 0x1e, 7], 14),
        Step::Build([0x80, 0x15, 0x1e, 7], 14),
        Step::Build([0; 4], 0),
    ]
}

// PDU 0 is missing, and the poll of PDU 3, which has arrived, gets no answer.
fn owed_poll() -> [Step; 7] {
    [
        Step::Send(4),
        Step::Hear([0x03, 0x10, 0x00, 0x02, 0x00, 0x40], StatusTaken::Taken),
        Step::Build([0x80, 0x05, 0x1e, 7], 14),
        Step::Build([0; 4], 0),
        Step::Wait(2),
        Step::Build([0x80, 0x1d, 0x1e, 7], 14),
        Step::Build([0; 4], 0),
    ]
}

#[test]
fn statuses_and_owed_polls(rt: HostRuntime) {
    assert!(rt; run(rt.alloc(), 64, rules(), &statuses()));
    assert!(rt; run(rt.alloc(), 64, rules(), &owed_poll()));
}

// A unit that fills two blocks and eight PDUs ends in the ninth.
fn full_buffer() -> [Step; 7] {
    [
        Step::Offer(128, Offer::Accepted),
        Step::Offer(1, Offer::Full),
        Step::BuildMany(9),
        Step::Hear([0x02, 0x00, 0x80, 0, 0, 0], StatusTaken::Taken),
        Step::Offer(1, Offer::Full),
        Step::Hear([0x02, 0x00, 0x90, 0, 0, 0], StatusTaken::Taken),
        Step::Offer(1, Offer::Accepted),
    ]
}

#[test]
fn blocks_are_held_until_the_acknowledgement(rt: HostRuntime) {
    assert!(rt; run(rt.alloc(), 2, rules(), &full_buffer()));
}

// Four units wait, and the second octets of the second and the third PDU are these, where one polls at every so many
// PDUs, at every so many units and at so many hundredths of the window.
fn polls(alloc: Global, pdus: u16, units: u16, window: u8, second: u8, third: u8) -> bool {
    let mut rules = rules();
    rules.poll_pdus = pdus;
    rules.poll_units = units;
    rules.poll_window = window;
    let steps = [
        Step::Offer(15, Offer::Accepted),
        Step::Offer(15, Offer::Accepted),
        Step::Offer(15, Offer::Accepted),
        Step::Offer(15, Offer::Accepted),
        Step::Build([0x80, 0x01, 0x1e, 7], 14),
        Step::Build([0x80, second, 0x1e, 7], 14),
        Step::Build([0x80, third, 0x1e, 7], 14),
        Step::Build([0x80, 0x1d, 0x1e, 7], 14),
    ];
    run(alloc, 64, rules, &steps)
}

#[test]
fn polls_of_each_rule(rt: HostRuntime) {
    assert!(rt; polls(rt.alloc(), 0, 0, 0, 0x09, 0x11));
    assert!(rt; polls(rt.alloc(), 3, 0, 0, 0x09, 0x15));
    assert!(rt; polls(rt.alloc(), 0, 2, 0, 0x0d, 0x11));
    assert!(rt; polls(rt.alloc(), 0, 0, 2, 0x09, 0x15));
}
