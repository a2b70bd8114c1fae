ghost use Rattle.std.specs.Prelude.{◌≡◌, ◌≤◌, length};
ghost use Rattle.dch_pair.specs.EntityStanding.{AreSizes, size_in, size_of};

use crate::sum::Sum;
use crate::work::{Unit, Work};
use dch_bits::NoMemory;
use dch_pair::AmEntity;
use dch_rlcpdu::{Handed, read_am};
use dch_types::AmRules;
use std::alloc::Global;

/// The octets of a PDU, and of a unit that just fills one, behind two octets of header and a length indicator.
const PDU: usize = 126;

const UNIT: usize = 123;

/// How many units go before a status comes back.
const UNITS: u16 = 1024;

/// How many blocks of 64 octets units may hold.
const BUFFER: u16 = 4096;

/// The most octets of a unit that is handed up.
const LONGEST: usize = 1500;

/// The most statuses until all PDUs have come: each tells of 60 lost ones or more.
const STATUSES: usize = 8;

/// Two entities of the acknowledged mode: units go from one to the other, which acknowledges them.
#[derive(Drop)]
pub struct Entities {
    sender: AmEntity,
    receiver: AmEntity,
    room: Vec<u8>,
    handed: u32,
    /// Every third PDU is lost, and sent again.
    lossy: bool,
    ghost sends: { size_of sender ≡ 126 },
    ghost hears: { size_in sender ≡ 126 },
    ghost answers: { size_of receiver ≡ 126 },
    ghost takes: { size_in receiver ≡ 126 },
    ghost longest: { length room.items ≡ 1500 },
}

impl Entities {
    pub fn open(alloc: Global, lossy: bool) -> Result<Entities, NoMemory> {
        Ok(Entities {
            sender: AmEntity::open(alloc, PDU, PDU, BUFFER, rules())?,
            receiver: AmEntity::open(alloc, PDU, PDU, BUFFER, rules())?,
            room: vec![in alloc; 0; LONGEST]?,
            handed: 0,
            lossy,
        })
    }

    /// Offers a unit of octets with this number.
    fn offer(&mut self, number: u16) {
        self.sender.offer(&[(number % 256) as u8; UNIT]);
    }

    /// The next PDU goes to the receiver, and the units that it completes are handed up.
    fn pass(&mut self) {
        pass(&mut self.sender, &mut self.receiver);
        for _ in 0..3 {
            self.hand_up();
        }
    }

    /// The next unit is handed up, where one waits.
    fn hand_up(&mut self) {
        if self.receiver.next_unit(&mut self.room) == Some(Handed::Whole(UNIT)) {
            self.handed = self.handed.wrapping_add(1);
        }
    }

    /// The next PDU is lost.
    fn lose(&mut self) {
        if self.sender.is_due() {
            self.sender.build(&mut [0; PDU]);
        }
    }

    /// A status goes back, and the PDUs that it asks for are sent again.
    fn send_again(&mut self) {
        pass(&mut self.receiver, &mut self.sender);
        for _ in 0..self.sender.available() {
            self.pass();
        }
    }
}

impl Work for Entities {
    fn unit(&self) -> Unit {
        Unit::Pdus
    }

    fn amount(&self) -> u64 {
        u64::from(self.handed)
    }

    fn run(&mut self) {
        self.handed = 0;
        for number in 0..UNITS {
            self.offer(number);
        }
        for number in 0..UNITS {
            if self.lossy && number % 3 == 1 {
                self.lose();
            } else {
                self.pass();
            }
        }
        for _ in 0..STATUSES {
            self.send_again();
        }
    }

    fn sum(&self) -> u32 {
        let mut sum = Sum::new();
        sum.octets(&self.room);
        sum.value()
    }
}

/// An entity builds a PDU, if one is due, and the other one takes it.
fn pass(from: &mut AmEntity, to: &mut AmEntity)
    requires size { size_of from.old ≡ 126 }
    requires comes { size_in to.old ≡ 126 }
    ensures from { AreSizes from.old from.new }
    ensures to { AreSizes to.old to.new }
{
    if from.is_due() {
        let mut pdu = [0; PDU];
        from.build(&mut pdu);
        take(to, &pdu);
    }
}

/// An entity takes the PDU of these octets, where no unit waits.
fn take(entity: &mut AmEntity, pdu: &[u8])
    requires { length pdu.now ≤ size_in entity.old }
    ensures { AreSizes entity.old entity.new }
{
    match read_am(pdu) {
        Ok(view) if entity.settled() => {
            entity.receive(&view);
        }
        _ => {}
    }
}

/// Poll by the last PDU that waits.
fn rules() -> AmRules
    ensures { result.window ≤ 2048 }
{
    AmRules {
        window: 2048,
        poll_timer: 10,
        poll_pdus: 0,
        poll_units: 0,
        poll_window: 0,
        status_period: 0,
        status_prohibit: 0,
        missing: true,
        discard_age: 0,
        discard_sent: 0,
        discard_repeat: 30,
    }
}
