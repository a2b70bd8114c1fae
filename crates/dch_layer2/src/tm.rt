ghost use Rattle.std.specs.Prelude.{◌≡◌, ◌≤◌, ◌<◌, [], IfOk, IsSome, IsSomeAnd, length, slice_get};
ghost use Rattle.dch_types.specs.declared.bearer.Mode.TheVariants.{Tm};
ghost use Rattle.dch_indication.specs.Lines.{GotBits};
ghost use Rattle.dch_layer2.specs.Bearings.{bearer_in};
ghost use Rattle.dch_layer2.specs.BearerStanding.{StandsTm};
ghost use Rattle.dch_layer2.specs.BearerValues.{AreSizes, tm_answer, tm_after, tm_head, tm_built, units_in};

use crate::channel::{bearer_of, greatest, sizes_of};
use crate::telling::tell_bits;
use dch_accept::Accepted;
use dch_bits::{Bit, NoMemory, Offer};
use dch_indication::Indications;
use dch_mac::Head;
use dch_rlctm::TmSend;
use dch_types::{Dir, Sequence};
use std::alloc::Global;
use std::marker::Model;

/// A transparent bearer at an end: units leave as blocks, and blocks come as units.
pub struct TmBearer {
    number: u8,
    into: Dir,
    sizes: Sequence<u16>,
    sender: Option<TmSend>,
}

// By hand, so that whoever holds one drops it by one call.
impl Drop for TmBearer {
    fn drop(self) {
        let TmBearer {
            number: _number,
            into: _into,
            sizes: _sizes,
            sender: _sender,
        } = self;
    }
}

impl Model for TmBearer {
    ghost use Rattle.dch_layer2.specs.BearerValues.{AreSizes, TmRunning};

    ghost Value = { TmRunning };

    ghost view = { λ b. record { number = b.number; into = b.into; sizes = b.sizes; sender = b.sender } };

    ghost invariant = { λ b. AreSizes b.sizes b.sender };
}

impl TmBearer {
    /// Bearer `number`, whose blocks come in the direction `into`, and which sends blocks of these sizes, if it sends.
    fn new(number: u8, into: Dir, sizes: Sequence<u16>, sender: Option<TmSend>) -> TmBearer
        requires { AreSizes sizes sender }
        ensures { result ≡ record { number = number; into = into; sizes = sizes; sender = sender } }
    {
        TmBearer {
            number,
            into,
            sizes,
            sender,
        }
    }

    /// Takes the memory of a transparent bearer of a configuration, at an end that sends in one direction and receives
    /// in the other.
    pub(crate) fn open(
        alloc: Global,
        accepted: &Accepted,
        out: Dir,
        into: Dir,
        bearer: u8,
    ) -> Result<TmBearer, NoMemory>
        requires there { bearer < length accepted.now.config.bearers }
        requires mode { (bearer_in accepted.now.config bearer).mode ≡ Tm }
        ensures { IfOk result (StandsTm accepted.now.config out into bearer (record {
          units = [];
          buffer = (bearer_in accepted.now.config bearer).buffer;
          most = 5000;
        })) }
    {
        let it = bearer_of(accepted, bearer);
        match it.channel(out) {
            None => Ok(TmBearer::new(bearer, into, Sequence::new(alloc), None)),
            Some(channel) => {
                let formats = accepted.channel(out, channel).formats.as_slice();
                let sizes = sizes_of(alloc, formats)?;
                let sender = TmSend::open(alloc, it.buffer, greatest(sizes.as_slice()))?;
                Ok(TmBearer::new(bearer, into, sizes, Some(sender)))
            }
        }
    }

    /// Offers a unit, which must have the size of a block.
    pub fn offer(&mut self, unit: &[Bit]) -> Offer
        requires { IsSome self.old.sender }
        ensures answer { result ≡ tm_answer unit.now self.old }
        ensures after { self.new ≡ tm_after result unit.now self.old }
    {
        match &mut self.sender {
            Some(sender) => sender.offer(self.sizes.as_slice(), unit),
            None => Offer::WrongSize,
        }
    }

    /// The size of the first unit, and how many units in front have it.
    pub fn head(&self) -> Head
        ensures { result ≡ tm_head self.now }
    {
        match &self.sender {
            Some(sender) => {
                let (size, count) = sender.available();
                Head { size, count }
            }
            None => Head { size: 0, count: 0 },
        }
    }

    /// The first unit leaves as a block, which must have as many bits as `out`.
    pub fn build(&mut self, out: &mut [Bit])
        requires { IsSomeAnd (slice_get (units_in self.old.sender) 0) (λ unit. length unit ≡ length out.old) }
        ensures { self.old ≡ tm_built out.new self.new }
    {
        if let Some(sender) = &mut self.sender {
            sender.build(out);
        }
    }

    /// Hands up a block that came.
    pub fn take<U: Indications>(&self, bits: &[Bit], user: &mut U)
        ensures { U.shows user.old (GotBits self.now.into self.now.number bits.now) user.new }
    {
        tell_bits(user, self.into, self.number, bits);
    }
}
