ghost use Rattle.std.specs.Prelude.{◌≡◌, ◌<◌, ◌≤◌, ◌*◌, ◌/◌, [], IfOk, IsSome, length, true};
ghost use Rattle.dch_rlcpdu.specs.Um.{um_reading};
ghost use Rattle.dch_rlcum.specs.Handing.{all_handed};
ghost use Rattle.dch_rlcum.specs.Receiving.{opened};
ghost use Rattle.dch_types.specs.declared.bearer.Mode.TheVariants.{Um};
ghost use Rattle.dch_indication.specs.Told.{Told};
ghost use Rattle.dch_layer2.specs.Shapes.{shape_of};
ghost use Rattle.dch_layer2.specs.Bearings.{bearer_in, channel_of, marks_start};
ghost use Rattle.dch_layer2.specs.BearerStanding.{FitsUm, HoldsReceiving, HoldsSending, StandsUm, opened_sends};
ghost use Rattle.dch_layer2.specs.Octets.{AreOctets, block_of, octets_of};
ghost use Rattle.dch_layer2.specs.UnitLines.{unit_lines};
ghost use Rattle.dch_layer2.specs.BearerValues.{FillsBlocks, IsSettled, heard_by, lines_of, um_after, um_answer, um_built, um_due, um_head, um_heard, um_lines, um_pdu};

use crate::block::{read_octets, write_block};
use crate::channel::{bearer_of, shape_on};
use crate::shape::Shape;
use crate::telling::{tell_bad, tell_handed};
use dch_accept::Accepted;
use dch_bits::{Bit, NoMemory, Offer};
use dch_indication::Indications;
use dch_mac::Head;
use dch_rlcpdu::read_um;
use dch_rlcum::{UmRecv, UmSend};
use dch_types::Dir;
use std::alloc::Global;
use std::marker::Model;

/// An unacknowledged bearer at an end, with each of its sides as far as it sends and receives.
pub struct UmBearer {
    number: u8,
    into: Dir,
    shape: Shape,
    sender: Option<UmSend>,
    receiver: Option<UmRecv>,
}

// By hand, so that whoever holds one drops it by one call.
impl Drop for UmBearer {
    fn drop(self) {
        let UmBearer {
            number: _number,
            into: _into,
            shape: _shape,
            sender: _sender,
            receiver: _receiver,
        } = self;
    }
}

impl Model for UmBearer {
    ghost use Rattle.dch_layer2.specs.BearerValues.{FillsBlocks, IsSettled, UmRunning};

    ghost Value = { UmRunning };

    ghost view = { λ b. record {
      number = b.number;
      into = b.into;
      shape = b.shape;
      sender = b.sender;
      receiver = b.receiver;
    } };

    ghost invariant = { λ b. FillsBlocks b.shape b.sender × IsSettled b.receiver };
}

impl UmBearer {
    /// Bearer `number`, whose blocks come in the direction `into`, and which sends blocks of this shape, if it sends.
    fn new(
        number: u8,
        into: Dir,
        shape: Shape,
        sender: Option<UmSend>,
        receiver: Option<UmRecv>,
    ) -> UmBearer
        requires sends { FillsBlocks shape sender }
        requires receives { IsSettled receiver }
        ensures { result ≡ record {
          number = number;
          into = into;
          shape = shape;
          sender = sender;
          receiver = receiver;
        } }
    {
        UmBearer {
            number,
            into,
            shape,
            sender,
            receiver,
        }
    }

    /// Takes the memory of an unacknowledged bearer of a configuration, at an end that sends in one direction and
    /// receives in the other.
    pub(crate) fn open(
        alloc: Global,
        accepted: &Accepted,
        out: Dir,
        into: Dir,
        bearer: u8,
    ) -> Result<UmBearer, NoMemory>
        requires there { bearer < length accepted.now.config.bearers }
        requires mode { (bearer_in accepted.now.config bearer).mode ≡ Um }
        ensures { IfOk result (StandsUm accepted.now.config out into bearer
            (opened_sends accepted.now.config out bearer) opened) }
    {
        let shape = shape_on(accepted, out, bearer);
        let sender = sender_of(alloc, accepted, out, bearer, shape)?;
        let receiver = receiver_of(alloc, accepted, into, bearer)?;
        Ok(UmBearer::new(bearer, into, shape, sender, receiver))
    }

    /// From now on sends the blocks of a configuration, at an end that sends in the direction `out`. The octets of its
    /// PDUs stay.
    pub(crate) fn change(&mut self, accepted: &Accepted, out: Dir)
        requires { FitsUm accepted.now.config out self.old }
        ensures { self.new ≡ record self.old { shape = shape_of accepted.now.config out self.old.number } }
    {
        // Whole octets fill the blocks in a good configuration.
        let _config = accepted.config();
        self.shape = shape_on(accepted, out, self.number);
    }

    /// Offers a unit of 1 to 1,500 octets.
    pub fn offer(&mut self, unit: &[u8]) -> Offer
        requires { IsSome self.old.sender }
        ensures answer { result ≡ um_answer unit.now self.old }
        ensures after { self.new ≡ um_after result unit.now self.old }
    {
        match &mut self.sender {
            Some(sender) => sender.offer(unit),
            None => Offer::WrongSize,
        }
    }

    /// The size of its blocks, and how many could be built one after another, at most 64.
    pub fn head(&self) -> Head
        ensures { result ≡ um_head self.now }
    {
        let count = match &self.sender {
            Some(sender) => sender.available(),
            None => 0,
        };
        Head {
            size: self.shape.bits,
            count,
        }
    }

    /// Builds the block of the next PDU. There is one.
    pub fn build(&mut self, out: &mut [Bit])
        requires due { um_due self.old ≡ true }
        requires size { length out.old ≡ self.old.shape.bits }
        ensures block { out.new ≡ block_of self.old.shape.ct (um_pdu self.old) }
        ensures octets { AreOctets (um_pdu self.old) }
        ensures after { self.new ≡ um_built self.old }
    {
        let mut octets = [0; 125];
        if let Some(sender) = &mut self.sender {
            let pdu = &mut octets[..self.shape.octets as usize];
            sender.build(pdu);
            write_block(self.shape.ct, pdu, out);
        }
    }

    /// Takes the bits of a PDU of at most 125 octets that came, and hands up the units that end in it, each by way of
    /// `unit`, which has 1,500 octets.
    pub fn take<U: Indications>(&mut self, bits: &[Bit], unit: &mut [u8], user: &mut U)
        requires receives { IsSome self.old.receiver }
        requires few { length bits.now ≤ 1000 }
        requires whole { length bits.now ≡ 8 * (length bits.now / 8) }
        requires unit { length unit.old ≡ 1500 }
        ensures told { Told U.shows user.old (um_lines (octets_of bits.now) self.old) user.new }
        ensures after { self.new ≡ um_heard (octets_of bits.now) self.old }
    {
        let mut octets = [0; 125];
        let pdu = &mut octets[..bits.len() / 8];
        read_octets(bits, pdu);
        if let Some(receiver) = &mut self.receiver {
            hear(receiver, pdu, self.into, self.number, unit, user);
        }
    }
}

/// The sending side of a bearer, where it has a channel in this direction.
fn sender_of(
    alloc: Global,
    accepted: &Accepted,
    dir: Dir,
    bearer: u8,
    shape: Shape,
) -> Result<Option<UmSend>, NoMemory>
    requires there { bearer < length accepted.now.config.bearers }
    requires mode { (bearer_in accepted.now.config bearer).mode ≡ Um }
    requires shape { shape ≡ shape_of accepted.now.config dir bearer }
    ensures fills { IfOk result (FillsBlocks shape) }
    ensures opened { IfOk result (HoldsSending (channel_of accepted.now.config dir bearer)
        (opened_sends accepted.now.config dir bearer).sending) }
{
    let it = bearer_of(accepted, bearer);
    match it.channel(dir) {
        None => Ok(None),
        Some(_) => {
            let sender = UmSend::open(alloc, shape.octets as usize, it.buffer, marks_start(dir))?;
            Ok(Some(sender))
        }
    }
}

/// Whether a sender marks where a unit starts: in the uplink.
fn marks_start(dir: Dir) -> bool
    ensures { result ≡ marks_start dir }
{
    match dir {
        Dir::Up => true,
        Dir::Down => false,
    }
}

/// The receiving side of a bearer, where it has a channel in this direction.
fn receiver_of(
    alloc: Global,
    accepted: &Accepted,
    dir: Dir,
    bearer: u8,
) -> Result<Option<UmRecv>, NoMemory>
    requires { bearer < length accepted.now.config.bearers }
    ensures settled { IfOk result IsSettled }
    ensures opened { IfOk result (HoldsReceiving (channel_of accepted.now.config dir bearer) opened) }
{
    match bearer_of(accepted, bearer).channel(dir) {
        None => Ok(None),
        Some(_) => Ok(Some(UmRecv::open(alloc)?)),
    }
}

/// A receiver takes a PDU, and hands up the units that end in it.
fn hear<U: Indications>(
    receiver: &mut UmRecv,
    pdu: &[u8],
    dir: Dir,
    bearer: u8,
    unit: &mut [u8],
    user: &mut U,
)
    requires settled { receiver.old.waiting ≡ [] }
    requires few { length pdu.now ≤ 125 }
    requires unit { length unit.old ≡ 1500 }
    ensures told { Told U.shows user.old (lines_of dir bearer (um_reading pdu.now) receiver.old) user.new }
    ensures after { receiver.new ≡ heard_by (um_reading pdu.now) receiver.old }
{
    match read_um(pdu) {
        Ok(view) => {
            receiver.pdu(&view);
            hand_up(receiver, dir, bearer, unit, user);
        }
        Err(error) => tell_bad(user, dir, bearer, error),
    }
}

/// A receiver hands up all units that wait.
fn hand_up<U: Indications>(
    receiver: &mut UmRecv,
    dir: Dir,
    bearer: u8,
    unit: &mut [u8],
    user: &mut U,
)
    requires { length unit.old ≡ 1500 }
    ensures told { Told U.shows user.old (unit_lines dir bearer receiver.old.waiting) user.new }
    ensures after { receiver.new ≡ all_handed receiver.old }
{
    while let Some(handed) = receiver.next_unit(unit) {
        tell_handed(user, dir, bearer, handed, unit);
    }
}
