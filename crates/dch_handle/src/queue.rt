ghost use Rattle.std.specs.Prelude.{◌≡◌, ◌<◌, ◌≤◌, ◌+◌, ◌-◌, ◌++◌, [], ◌∷◌, ◌^◌, ℕ, List, None, Some, false, true, length, map, take, drop, slice_get, vec_capacity, IfOk, IfNone, IfSome};
ghost use Rattle.dch_bits.specs.Text.{cell_letter, letter_of};
ghost use Rattle.dch_indication.specs.Told.{line_of};
ghost use Rattle.dch_handle.specs.Runs.{is_idle};
ghost use Rattle.dch_handle.specs.Statuses.{IsRefused, done, nothing, short};
ghost use Rattle.dch_handle.specs.Telling.{IsPulled, IsWhole, Waiting, emptied, entered, has_place, number_of, payload_of, queued, told_of};
ghost use Rattle.dch_handle.specs.declared.told.Told.{Told as TheTold};

use crate::status::{DONE, NOTHING, SHORT};
use crate::told::Told;
use dch_bits::{Bit, NoMemory, Trit, bits_text, trits_text};
use dch_indication::{Indication, Indications};
use dch_types::Dir;
use std::alloc::Global;
use std::marker::Model;

/// What a node told, in order, until it is pulled. All memory is taken at opening.
#[derive(Drop)]
pub struct Queue {
    told: Vec<Told>,
    letters: Vec<u8>,
    at: usize,
    read: usize,
    most: usize,
    room: usize,
    lost: bool,
}

impl Model for Queue {
    ghost use Rattle.std.specs.Prelude.{◌-◌, drop, length, vec_capacity};
    ghost use Rattle.dch_handle.specs.QueueRoom.{IsQueue};
    ghost use Rattle.dch_handle.specs.Telling.{Waiting};

    ghost Value = { Waiting };

    ghost view = { λ q. record {
      told = drop q.at q.told.items;
      letters = drop q.read q.letters.items;
      heads_left = q.most - length q.told.items;
      room_left = q.room - length q.letters.items;
      most = q.most;
      room = q.room;
      lost = q.lost;
    } };

    ghost invariant = { λ q. IsQueue q.at (length q.told.items) q.most (vec_capacity q.told) ×
        IsQueue q.read (length q.letters.items) q.room (vec_capacity q.letters) };
}

impl Queue {
    /// Takes the memory for so many values and so many octets behind them.
    pub fn open(alloc: Global, most: usize, room: usize) -> Result<Queue, NoMemory>
        ensures { IfOk result (λ queue. queue ≡ record {
          told = [];
          letters = [];
          heads_left = most;
          room_left = room;
          most = most;
          room = room;
          lost = false;
        }) }
    {
        Ok(Queue {
            told: Vec::with_capacity(alloc, most)?,
            letters: Vec::with_capacity(alloc, room)?,
            at: 0,
            read: 0,
            most,
            room,
            lost: false,
        })
    }

    /// Forgets what was told.
    pub fn clear(&mut self)
        ensures { self.new ≡ emptied self.old }
    {
        self.told.clear();
        self.letters.clear();
        self.at = 0;
        self.read = 0;
        self.lost = false;
    }

    /// Whether nothing waits.
    pub fn is_empty(&self) -> bool
        ensures { result ≡ is_idle self.now }
    {
        self.at == self.told.len()
    }

    /// The next value, and how many octets stand behind it.
    pub fn next(&self) -> Option<Told>
        ensures some { IfSome result (λ told. slice_get self.now.told 0 ≡ Some told) }
        ensures none { IfNone result (self.now.told ≡ []) }
    {
        self.told.get(self.at).copied()
    }

    /// Takes the next value, and copies the octets behind it to the front of `out`.
    pub fn take(&mut self, told: Told, out: &mut [u8])
        requires some { 0 < length self.old.told }
        requires room { told.length ≤ length out.old }
        requires there { told.length ≤ length self.old.letters }
        ensures taken { self.new ≡ record self.old {
          told = drop 1 self.old.told;
          letters = drop told.length self.old.letters;
        } }
        ensures out { out.new ≡ take told.length self.old.letters ++ drop told.length out.old }
    {
        let to = self.read + told.length;
        out[..told.length].copy_from_slice(&self.letters[self.read..to]);
        self.at += 1;
        self.read = to;
    }

    /// Pulls the next value, and copies the octets behind it to the front of `out`, where that is long enough.
    pub fn pull(&mut self, told: &mut Told, out: &mut [u8]) -> u8
        requires { IsWhole self.old }
        ensures nothing { is_idle self.old ≡ true → (result ≡ nothing) × (told.new ≡ told.old) }
        ensures short { (first : TheTold) → slice_get self.old.told 0 ≡ Some first → length out.old < first.length →
            (result ≡ short) × (told.new ≡ first) }
        ensures done { (first : TheTold) → slice_get self.old.told 0 ≡ Some first → first.length ≤ length out.old →
            (result ≡ done) × IsPulled self.old self.new told.new out.old out.new }
        ensures same { IsRefused result → (self.new ≡ self.old) × (out.new ≡ out.old) }
        ensures whole { IsWhole self.new }
        ensures room { (self.new.most ≡ self.old.most) × (self.new.room ≡ self.old.room) }
    {
        let Some(first) = self.next() else {
            return NOTHING;
        };
        *told = first;
        if out.len() < first.length {
            return SHORT;
        }
        self.take(first, out);
        DONE
    }

    /// Adds a value with no octets.
    fn short(&mut self, kind: u8, dir: Dir, number: u8, more: u8)
        ensures { self.new ≡ entered self.old (record {
          kind = kind;
          direction = number_of dir;
          number = number;
          more = more;
          tfci = 0;
          length = 0;
        }) [] }
    {
        self.add(kind, dir, number, more, &[]);
    }

    /// Adds a value with octets.
    fn add(&mut self, kind: u8, dir: Dir, number: u8, more: u8, octets: &[u8])
        ensures { self.new ≡ entered self.old (record {
          kind = kind;
          direction = number_of dir;
          number = number;
          more = more;
          tfci = 0;
          length = length octets.now;
        }) octets.now }
    {
        if !self.has_place(octets.len()) {
            self.lost = true;
            return;
        }
        self.lost |= self.letters.extend_from_slice(octets).is_err();
        self.push(Told {
            kind,
            direction: number_of(dir),
            number,
            more,
            tfci: 0,
            length: octets.len(),
        });
    }

    /// Adds a value with letters of bits.
    fn add_bits(&mut self, dir: Dir, number: u8, bits: &[Bit])
        ensures { self.new ≡ entered self.old (record {
          kind = 11;
          direction = number_of dir;
          number = number;
          more = 0;
          tfci = 0;
          length = length bits.now;
        }) (map letter_of bits.now) }
    {
        if !self.has_place(bits.len()) {
            self.lost = true;
            return;
        }
        self.lost |= put_bits(&mut self.letters, bits);
        self.push(Told {
            kind: 11,
            direction: number_of(dir),
            number,
            more: 0,
            tfci: 0,
            length: bits.len(),
        });
    }

    /// Adds a radio frame.
    fn add_frame(&mut self, dir: Dir, tfci: &[Bit], cells: &[Trit])
        ensures { self.new ≡ entered self.old (record {
          kind = 14;
          direction = number_of dir;
          number = 0;
          more = 0;
          tfci = length tfci.now;
          length = length tfci.now + length cells.now;
        })
            (map letter_of tfci.now ++ map cell_letter cells.now) }
    {
        let Some(length) = tfci.len().checked_add(cells.len()) else {
            self.lost = true;
            return;
        };
        if !self.has_place(length) {
            self.lost = true;
            return;
        }
        self.lost |= put_bits(&mut self.letters, tfci);
        self.lost |= put_cells(&mut self.letters, cells);
        self.push(Told {
            kind: 14,
            direction: number_of(dir),
            number: 0,
            more: 0,
            tfci: tfci.len(),
            length,
        });
    }

    fn has_place(&self, octets: usize) -> bool
        ensures yes { result ≡ true → (0 < self.now.heads_left) × (octets ≤ self.now.room_left) }
        ensures no { result ≡ false → (payload : List ℕ) → length payload ≡ octets → has_place self.now payload ≡
            false }
    {
        self.told.len() < self.most && octets <= self.room - self.letters.len()
    }

    fn push(&mut self, told: Told)
        requires { 0 < self.old.heads_left }
        ensures { self.new ≡ record self.old {
          told = self.old.told ++ told ∷ [];
          heads_left = self.old.heads_left - 1;
        } }
    {
        self.lost |= self.told.push(told).is_err();
    }
}

/// Adds the letters of bits, for which there is room, and tells whether memory was lacking.
fn put_bits(letters: &mut Vec<u8>, bits: &[Bit]) -> bool
    requires room { length letters.old.items + length bits.now ≤ vec_capacity letters.old }
    requires few { length letters.old.items + length bits.now < 2 ^ 64 }
    ensures value { result ≡ false }
    ensures items { letters.new.items ≡ letters.old.items ++ map letter_of bits.now }
    ensures capacity { vec_capacity letters.old ≤ vec_capacity letters.new }
{
    let from = letters.len();
    if letters.resize(from + bits.len(), b'0').is_err() {
        return true;
    }
    bits_text(bits, letters.slice_mut(from..));
    false
}

/// Adds the letters of cells, for which there is room, and tells whether memory was lacking.
fn put_cells(letters: &mut Vec<u8>, cells: &[Trit]) -> bool
    requires room { length letters.old.items + length cells.now ≤ vec_capacity letters.old }
    requires few { length letters.old.items + length cells.now < 2 ^ 64 }
    ensures value { result ≡ false }
    ensures items { letters.new.items ≡ letters.old.items ++ map cell_letter cells.now }
    ensures capacity { vec_capacity letters.old ≤ vec_capacity letters.new }
{
    let from = letters.len();
    if letters.resize(from + cells.len(), b'0').is_err() {
        return true;
    }
    trits_text(cells, letters.slice_mut(from..));
    false
}

impl Indications for Queue {
    ghost use Rattle.dch_handle.specs.Telling.{Enters};

    ghost shows = { Enters };

    fn indicate(&mut self, it: Indication<'_>) {
        match it {
            Indication::Took { dir, bearer } => self.short(0, dir, bearer, 0),
            Indication::Full { dir, bearer } => self.short(1, dir, bearer, 0),
            Indication::Wrong { dir, bearer } => self.short(2, dir, bearer, 0),
            Indication::Bad {
                dir,
                channel,
                block,
            } => self.short(3, dir, channel, block),
            Indication::Reserved { dir, channel } => self.short(4, dir, channel, 0),
            Indication::NoBearer { dir, channel, ct } => self.short(5, dir, channel, ct),
            Indication::Nobody { dir, channel } => self.short(6, dir, channel, 0),
            Indication::PduBad {
                dir,
                bearer,
                number,
            } => self.short(7, dir, bearer, number),
            Indication::Outside { dir, bearer } => self.short(8, dir, bearer, 0),
            Indication::Overlong { dir, bearer } => self.short(9, dir, bearer, 0),
            Indication::Got {
                dir,
                bearer,
                octets,
            } => self.add(10, dir, bearer, 0, octets),
            Indication::GotBits { dir, bearer, bits } => self.add_bits(dir, bearer, bits),
            Indication::Iub { dir, set, frame } => self.add(12, dir, set, 0, frame),
            Indication::IubBad { dir, set, number } => self.short(13, dir, set, number),
            Indication::Phy { dir, tfci, cells } => self.add_frame(dir, tfci, cells),
            Indication::PhyNone => self.short(15, Dir::Down, 0, 0),
            Indication::BadTti {
                dir,
                channel,
                frame,
            } => self.short(16, dir, channel, frame),
            Indication::Differs { dir, channel } => self.short(17, dir, channel, 0),
        }
    }
}

/// The number of a direction.
fn number_of(dir: Dir) -> u8
    ensures { result ≡ number_of dir }
{
    match dir {
        Dir::Up => 0,
        Dir::Down => 1,
    }
}
