ghost use Rattle.std.specs.Prelude.{◌≡◌, ◌<◌, ◌≤◌, ◌*◌, ◌/◌, IfOk, Ok, length, true};
ghost use Rattle.dch_rlcpdu.specs.Am.{am_reading};
ghost use Rattle.dch_am.specs.Discards.{tick_sender};
ghost use Rattle.dch_am.specs.Entities.{Entity, IsSmall, offers_to_send, pdu_of, receiver_by, sender_by};
ghost use Rattle.dch_am.specs.Receiver.{Receiver, opened_receiver};
ghost use Rattle.dch_am.specs.Rules.{Rules};
ghost use Rattle.dch_am.specs.Sender.{Sender, after_offer, offered, opened_sender};
ghost use Rattle.dch_am.specs.Telling.{tick_receiver};
ghost use Rattle.dch_amlaw.specs.Pair.{all_handed, is_beyond};
ghost use Rattle.dch_pair.specs.Answers.{is_outside, is_unknown};
ghost use Rattle.dch_pair.specs.EntityStanding.{AreSizes, Represents, is_settled, size_in, waiting_in};
ghost use Rattle.dch_types.specs.declared.bearer.Mode.TheVariants.{Am};
ghost use Rattle.dch_indication.specs.Told.{Told};
ghost use Rattle.dch_layer2.specs.Bearings.{bearer_in, rules_in};
ghost use Rattle.dch_layer2.specs.Hearing.{receiver_of, sender_of};
ghost use Rattle.dch_layer2.specs.Octets.{octets_of};
ghost use Rattle.dch_layer2.specs.UnitLines.{unit_lines};
ghost use Rattle.dch_layer2.specs.BearerStanding.{FitsAm, StandsAm};
ghost use Rattle.dch_layer2.specs.Acknowledged.{BuildsAtTurn, HasSides, HasTurn, IsAmShape, IsSameBearer, entity_of, lines_on, outside_first, outside_last};
ghost use Rattle.dch_layer2.specs.Shapes.{shape_of};

use crate::block::{read_octets, write_block};
use crate::channel::{bearer_of, shape_on};
use crate::shape::Shape;
use crate::telling::{tell_bad, tell_handed, tell_outside_if};
use dch_accept::Accepted;
use dch_am::{MrwTaken, StatusTaken, Taken};
use dch_bits::{Bit, NoMemory, Offer};
use dch_indication::Indications;
use dch_mac::Head;
use dch_pair::{AmEntity, Received};
use dch_rlcpdu::{AmView, read_am};
use dch_types::Dir;
use std::alloc::Global;
use std::marker::Model;

/// An acknowledged bearer at an end.
pub struct AmBearer {
    number: u8,
    into: Dir,
    shape: Shape,
    entity: AmEntity,
}

// By hand, so that whoever holds one drops it by one call.
impl Drop for AmBearer {
    fn drop(self) {
        let AmBearer {
            number: _number,
            into: _into,
            shape: _shape,
            entity: _entity,
        } = self;
    }
}

impl Model for AmBearer {
    ghost use Rattle.dch_layer2.specs.Acknowledged.{AmRunning, IsAmShape};

    ghost Value = { AmRunning };

    ghost view = { λ b. record { number = b.number; into = b.into; shape = b.shape; entity = b.entity } };

    ghost invariant = { λ b. IsAmShape b.shape b.entity };
}

impl AmBearer {
    /// Bearer `number`, whose blocks come in the direction `into`, and which sends blocks of this shape.
    fn new(number: u8, into: Dir, shape: Shape, entity: AmEntity) -> AmBearer
        requires { IsAmShape shape entity }
        ensures { result ≡ record { number = number; into = into; shape = shape; entity = entity } }
    {
        AmBearer {
            number,
            into,
            shape,
            entity,
        }
    }

    /// Takes the memory of an acknowledged bearer of a configuration, at an end that sends in one direction and
    /// receives in the other.
    pub(crate) fn open(
        alloc: Global,
        accepted: &Accepted,
        out: Dir,
        into: Dir,
        bearer: u8,
    ) -> Result<AmBearer, NoMemory>
        requires there { bearer < length accepted.now.config.bearers }
        requires mode { (bearer_in accepted.now.config bearer).mode ≡ Am }
        ensures { IfOk result (StandsAm accepted.now.config out into bearer opened_sender
            (opened_receiver (rules_in accepted.now.config bearer))) }
    {
        let it = bearer_of(accepted, bearer);
        let shape = shape_on(accepted, out, bearer);
        let comes = shape_on(accepted, into, bearer).octets as usize;
        let entity = AmEntity::open(alloc, shape.octets as usize, comes, it.buffer, it.rules)?;
        Ok(AmBearer::new(bearer, into, shape, entity))
    }

    /// From now on sends the blocks of a configuration, at an end that sends in the direction `out`. The octets of its
    /// PDUs stay.
    pub(crate) fn change(&mut self, accepted: &Accepted, out: Dir)
        requires { FitsAm accepted.now.config out self.old }
        ensures { self.new ≡ record self.old { shape = shape_of accepted.now.config out self.old.number } }
    {
        // Whole octets fill the blocks in a good configuration.
        let _config = accepted.config();
        self.shape = shape_on(accepted, out, self.number);
    }

    /// Offers a unit of 1 to 1,500 octets.
    pub fn offer(&mut self, unit: &[u8]) -> Offer
        ensures answer { (rules : Rules) (s : Sender) (r : Receiver) → HasSides rules s r self.old →
            result ≡ offered rules s unit.now }
        ensures sides { (rules : Rules) (s : Sender) (r : Receiver) → HasSides rules s r self.old →
            HasSides rules (after_offer (offered rules s unit.now) s unit.now) r self.new }
        ensures same { IsSameBearer self.old self.new }
    {
        self.entity.offer(unit)
    }

    /// One tick of 10 ms.
    pub fn tick(&mut self)
        ensures sides { (rules : Rules) (s : Sender) (r : Receiver) → HasSides rules s r self.old →
            HasSides rules (tick_sender rules s) (tick_receiver rules r) self.new }
        ensures same { IsSameBearer self.old self.new }
    {
        self.entity.tick();
    }

    /// The size of its blocks, and how many it could build: one each for a due status and a due MRW, and the data PDUs
    /// that could follow one another, at most 64.
    pub fn head(&self) -> Head
        ensures size { result.size ≡ self.now.shape.bits }
        ensures count { (rules : Rules) (s : Sender) (r : Receiver) → HasSides rules s r self.now →
            result.count ≡ offers_to_send rules self.now.shape.octets (entity_of s r) }
    {
        Head {
            size: self.shape.bits,
            count: self.entity.available(),
        }
    }

    /// Builds the block of what is due: a status, else an MRW, else a data PDU.
    pub fn build(&mut self, out: &mut [Bit])
        requires due { HasTurn self.old }
        requires size { length out.old ≡ self.old.shape.bits }
        ensures built { (rules : Rules) (s : Sender) (r : Receiver) → HasSides rules s r self.old →
            BuildsAtTurn rules s r self.old self.new out.new }
        ensures same { IsSameBearer self.old self.new }
    {
        let _due = self.entity.is_due();
        let octets_len = self.entity.size();
        let mut octets = [0; 126];
        let pdu = &mut octets[..octets_len];
        self.entity.build(pdu);
        write_block(self.shape.ct, pdu, out);
    }

    /// Takes the bits of a PDU that came, and hands up the units that end in it or are in order now, each by way of
    /// `unit`, which has 1,500 octets.
    pub fn take<U: Indications>(&mut self, bits: &[Bit], unit: &mut [u8], user: &mut U)
        requires few { length bits.now ≤ 1008 }
        requires whole { length bits.now ≡ 8 * (length bits.now / 8) }
        requires comes { length bits.now / 8 ≤ size_in self.old.entity }
        requires unit { length unit.old ≡ 1500 }
        ensures told { (rules : Rules) (s : Sender) (r : Receiver) → HasSides rules s r self.old →
            Told U.shows user.old (lines_on rules self.old.into self.old.number (am_reading (octets_of bits.now)) s r)
            user.new }
        ensures sides { (rules : Rules) (s : Sender) (r : Receiver) → HasSides rules s r self.old →
            HasSides rules (sender_of rules (am_reading (octets_of bits.now)) s)
            (receiver_of rules (am_reading (octets_of bits.now)) r) self.new }
        ensures same { IsSameBearer self.old self.new }
    {
        let mut octets = [0; 126];
        let pdu = &mut octets[..bits.len() / 8];
        read_octets(bits, pdu);
        hear(&mut self.entity, pdu, self.into, self.number, unit, user);
    }
}

/// An entity takes the octets of a PDU, and hands up the units that are in order now.
fn hear<U: Indications>(
    entity: &mut AmEntity,
    pdu: &[u8],
    dir: Dir,
    bearer: u8,
    unit: &mut [u8],
    user: &mut U,
)
    requires settled { is_settled entity.old ≡ true }
    requires few { length pdu.now ≤ size_in entity.old }
    requires unit { length unit.old ≡ 1500 }
    ensures told { (rules : Rules) (s : Sender) (r : Receiver) → Represents rules entity.old (entity_of s r) →
        Told U.shows user.old (lines_on rules dir bearer (am_reading pdu.now) s r) user.new }
    ensures sides { (rules : Rules) (s : Sender) (r : Receiver) → Represents rules entity.old (entity_of s r) →
        Represents rules entity.new (entity_of (sender_of rules (am_reading pdu.now) s)
        (receiver_of rules (am_reading pdu.now) r)) }
    ensures settled { is_settled entity.new ≡ true }
    ensures sizes { AreSizes entity.old entity.new }
{
    match read_am(pdu) {
        Ok(view) => receive(entity, &view, dir, bearer, unit, user),
        Err(error) => tell_bad(user, dir, bearer, error),
    }
}

/// An entity takes a PDU that was read, and hands up the units that are in order now.
fn receive<U: Indications>(
    entity: &mut AmEntity,
    view: &AmView<'_>,
    dir: Dir,
    bearer: u8,
    unit: &mut [u8],
    user: &mut U,
)
    requires settled { is_settled entity.old ≡ true }
    requires small { IsSmall (size_in entity.old) view.now }
    requires unit { length unit.old ≡ 1500 }
    ensures told { (rules : Rules) (s : Sender) (r : Receiver) → Represents rules entity.old (entity_of s r) →
        Told U.shows user.old (lines_on rules dir bearer (Ok view.now) s r) user.new }
    ensures sides { (rules : Rules) (s : Sender) (r : Receiver) → Represents rules entity.old (entity_of s r) →
        Represents rules entity.new (entity_of (sender_by rules (pdu_of view.now) s)
        (receiver_by rules (pdu_of view.now) r)) }
    ensures settled { is_settled entity.new ≡ true }
    ensures sizes { AreSizes entity.old entity.new }
{
    let received = entity.receive(view);
    tell_outside_if(user, outside_first(&received), dir, bearer);
    hand_up(entity, dir, bearer, unit, user);
    tell_outside_if(user, outside_last(&received), dir, bearer);
}

/// An entity hands up all units that wait.
fn hand_up<U: Indications>(
    entity: &mut AmEntity,
    dir: Dir,
    bearer: u8,
    unit: &mut [u8],
    user: &mut U,
)
    requires { length unit.old ≡ 1500 }
    ensures told { Told U.shows user.old (unit_lines dir bearer (waiting_in entity.old)) user.new }
    ensures settled { is_settled entity.new ≡ true }
    ensures sizes { AreSizes entity.old entity.new }
    ensures history { (rules : Rules) (e : Entity) → Represents rules entity.old e →
        Represents rules entity.new (all_handed e) }
{
    while let Some(handed) = entity.next_unit(unit) {
        tell_handed(user, dir, bearer, handed, unit);
    }
}

/// Whether it is reported before the units that a PDU, or a status, is outside the window.
fn outside_first(received: &Received) -> bool
    ensures { result ≡ outside_first received.now }
{
    match received {
        Received::Data { taken, .. } => is_outside(*taken),
        Received::Control { status, mrw } => is_unknown(*status) || is_beyond(*mrw),
        Received::Reset { .. } | Received::ResetAck { .. } => false,
    }
}

/// Whether it is reported behind the units that the status that rides on a PDU is outside the window.
fn outside_last(received: &Received) -> bool
    ensures { result ≡ outside_last received.now }
{
    match received {
        Received::Data {
            piggyback: Some(status),
            ..
        } => is_unknown(*status),
        _ => false,
    }
}

fn is_outside(taken: Taken) -> bool
    ensures { result ≡ is_outside taken }
{
    match taken {
        Taken::Kept | Taken::Duplicate => false,
        Taken::Outside => true,
    }
}

fn is_unknown(status: StatusTaken) -> bool
    ensures { result ≡ is_unknown status }
{
    match status {
        StatusTaken::Taken => false,
        StatusTaken::Outside(_) => true,
    }
}

fn is_beyond(mrw: MrwTaken) -> bool
    ensures { result ≡ is_beyond mrw }
{
    match mrw {
        MrwTaken::Nothing | MrwTaken::Obeyed | MrwTaken::Old => false,
        MrwTaken::Outside(_) => true,
    }
}
