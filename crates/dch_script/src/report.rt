ghost use Rattle.std.specs.Prelude.{◌≡◌, ◌+◌, ◌*◌, ◌≤◌, ◌<◌, ◌++◌, [], ◌∷◌, length, map, codes, decimal, IfOk};
ghost use Rattle.dch_bits.specs.Text.{letter_of, cell_letter};
ghost use Rattle.hex.specs.Hex.{encode_lower};
ghost use Rattle.dch_script.specs.Putting.{Puts};
ghost use Rattle.dch_script.specs.Report.{bits_shown, cells_shown, dir_word, iub_text, line_text, octets_shown, pair_text, phy_text, place_text, unit_text, words_text};

use dch_bits::{Bit, NoMemory, Trit, bits_text, trits_text};
use dch_types::Dir;
use hex::encode_to_slice;
use itoa::Buffer;
use std::alloc::Global;
use std::marker::Model;

/// A line of a report. A direction is that in which the data travels.
#[derive(Clone, Copy)]
pub enum Line<'a> {
    /// `open`: the configuration is accepted, and all memory is taken.
    Open,
    /// `took DIR BEARER`: a unit was accepted.
    Took {
        dir: Dir,
        bearer: u8,
    },
    /// `full DIR BEARER`: a unit was not accepted, since the buffer has no room for it.
    Full {
        dir: Dir,
        bearer: u8,
    },
    /// `wrong DIR BEARER`: a unit was not accepted, since it has a wrong size.
    Wrong {
        dir: Dir,
        bearer: u8,
    },
    /// `iubdown SET HEX` or `iubup SET HEX`: an Iub frame is sent.
    Iub {
        dir: Dir,
        set: u8,
        frame: &'a [u8],
    },
    /// `phydown TFCI CELLS` or `phyup TFCI CELLS`: a radio frame is sent.
    Phy {
        dir: Dir,
        tfci: &'a [Bit],
        cells: &'a [Trit],
    },
    /// `phydown none`: no radio frame is sent.
    PhyNone,
    /// `badtti DIR CHANNEL N`: a TTI can't be read, since its radio frame N is bad.
    BadTti {
        dir: Dir,
        channel: u8,
        frame: u8,
    },
    /// `bad DIR CHANNEL N`: block N of a TTI isn't taken.
    Bad {
        dir: Dir,
        channel: u8,
        block: u8,
    },
    /// `iubbad DIR SET N`: an Iub frame is refused by the cause with this number.
    IubBad {
        dir: Dir,
        set: u8,
        number: u8,
    },
    /// `reserved DIR CHANNEL`: the C/T field of a block is the reserved one.
    Reserved {
        dir: Dir,
        channel: u8,
    },
    /// `nobearer DIR CHANNEL CT`: no bearer of the channel has this logical channel.
    NoBearer {
        dir: Dir,
        channel: u8,
        ct: u8,
    },
    /// `nobody DIR CHANNEL`: the channel has no bearer.
    Nobody {
        dir: Dir,
        channel: u8,
    },
    /// `pdubad DIR BEARER N`: a PDU is refused by the cause with this number.
    PduBad {
        dir: Dir,
        bearer: u8,
        number: u8,
    },
    /// `outside DIR BEARER`: a PDU or a status is outside the window.
    Outside {
        dir: Dir,
        bearer: u8,
    },
    /// `overlong DIR BEARER`: a unit of more than 1,500 octets ended.
    Overlong {
        dir: Dir,
        bearer: u8,
    },
    /// `got DIR BEARER BITS`: a unit of a transparent bearer is handed up.
    GotBits {
        dir: Dir,
        bearer: u8,
        bits: &'a [Bit],
    },
    /// `got DIR BEARER HEX`: a unit is handed up.
    GotOctets {
        dir: Dir,
        bearer: u8,
        octets: &'a [u8],
    },
    /// `false DIR CHANNEL`: blocks are taken as good that were not given so.
    Differs {
        dir: Dir,
        channel: u8,
    },
    /// `coded BITS`: the coded bits of a transport block.
    Coded {
        bits: &'a [Bit],
    },
    /// `end frames=N`: the end of a script of so many radio frames.
    EndFrames(u64),
    /// `end lines=N`: the end of `encode`, after so many lines that aren't empty.
    EndLines(u64),
    /// `accepted count=N`: the end of `check`.
    Accepted(u128),
}

/// A text of lines in memory that is taken once.
#[derive(Drop)]
pub struct Report {
    room: Vec<u8>,
    used: usize,
}

impl Model for Report {
    ghost use Rattle.std.specs.Prelude.{◌≤◌, length, take};
    ghost use Rattle.dch_script.specs.Held.{Held};

    ghost Value = { Held };

    ghost view = { λ r. record { text = take r.used r.room.items; most = length r.room.items } };

    ghost invariant = { λ r. r.used ≤ length r.room.items };
}

#[tactic(auto, using(crate::proofs::Putting::puts_next))]
impl Report {
    /// An empty report with room for `most` bytes.
    pub fn open(alloc: Global, most: usize) -> Result<Report, NoMemory>
        ensures { IfOk result (λ report. report ≡ record { text = []; most = most }) }
    {
        match vec![in alloc; 0; most] {
            Ok(room) => Ok(Report { room, used: 0 }),
            Err(_) => Err(NoMemory),
        }
    }

    /// The bytes held.
    pub fn bytes(&self) -> &[u8]
        ensures { result.now ≡ self.now.text }
    {
        &self.room[..self.used]
    }

    /// Drops the bytes held.
    pub fn clear(&mut self)
        ensures { self.new ≡ record self.old { text = [] } }
    {
        self.used = 0;
    }

    /// How many bytes there is still room for.
    pub fn spare(&self) -> usize
        ensures { result + length self.now.text ≡ self.now.most }
    {
        self.room.len() - self.used
    }

    /// Appends a line, with its line feed.
    #[tactic(auto, using(crate::proofs::Putting::put_all))]
    pub fn put(&mut self, line: &Line<'_>)
        requires { length self.old.text + length (line_text line.now) ≤ self.old.most }
        ensures text { self.new ≡ record self.old { text = self.old.text ++ line_text line.now } }
        ensures len { length self.new.text ≡ length self.old.text + length (line_text line.now) }
    {
        self.add_line(line);
    }

    /// Appends text as it stands.
    pub fn put_text(&mut self, text: &[u8])
        requires { length self.old.text + length text.now ≤ self.old.most }
        ensures text { self.new ≡ record self.old { text = self.old.text ++ text.now } }
        ensures len { length self.new.text ≡ length self.old.text + length text.now }
    {
        let end = self.used + text.len();
        self.room[self.used..end].copy_from_slice(text);
        self.used = end;
    }

    /// Appends a number in decimal.
    pub fn put_number(&mut self, number: u64)
        requires { length self.old.text + length (decimal number) ≤ self.old.most }
        ensures text { self.new ≡ record self.old { text = self.old.text ++ decimal number } }
        ensures len { length self.new.text ≡ length self.old.text + length (decimal number) }
    {
        self.put_text(Buffer::new().format(number).as_bytes());
    }

    /// Appends bits as letters, `.` for none.
    #[tactic(auto, using(crate::proofs::Putting::put_all))]
    pub fn put_bits(&mut self, bits: &[Bit])
        requires { length self.old.text + length (bits_shown bits.now) ≤ self.old.most }
        ensures text { self.new ≡ record self.old { text = self.old.text ++ bits_shown bits.now } }
        ensures len { length self.new.text ≡ length self.old.text + length (bits_shown bits.now) }
    {
        self.add_bits(bits);
    }

    /// Appends cells as letters, `.` for none.
    #[tactic(auto, using(crate::proofs::Putting::put_all))]
    pub fn put_cells(&mut self, cells: &[Trit])
        requires { length self.old.text + length (cells_shown cells.now) ≤ self.old.most }
        ensures text { self.new ≡ record self.old { text = self.old.text ++ cells_shown cells.now } }
        ensures len { length self.new.text ≡ length self.old.text + length (cells_shown cells.now) }
    {
        self.add_cells(cells);
    }

    /// Appends octets in lower-case hexadecimal, `.` for none.
    #[tactic(auto, using(crate::proofs::Putting::put_all))]
    pub fn put_octets(&mut self, octets: &[u8])
        requires { length self.old.text + length (octets_shown octets.now) ≤ self.old.most }
        ensures text { self.new ≡ record self.old { text = self.old.text ++ octets_shown octets.now } }
        ensures len { length self.new.text ≡ length self.old.text + length (octets_shown octets.now) }
    {
        self.add_octets(octets);
    }

    /// Appends a line, with its line feed, as far as there is room.
    pub(crate) fn add_line(&mut self, line: &Line<'_>)
        ensures { Puts self.old (line_text line.now) self.new }
    {
        self.add_words(line);
        self.add(b"\n");
    }

    /// Appends as much of a text as there is room for.
    #[tactic(auto, using(crate::proofs::Putting::puts_front))]
    fn add(&mut self, text: &[u8])
        ensures { Puts self.old text.now self.new }
    {
        let count = self.fitting(text.len());
        self.put_text(&text[..count]);
    }

    /// How many of so many letters there is room for.
    fn fitting(&self, count: usize) -> usize
        ensures few { result ≤ count }
        ensures room { length self.now.text + result ≤ self.now.most }
        ensures full { result < count → length self.now.text + result ≡ self.now.most }
    {
        count.min(self.spare())
    }

    /// Appends a line without its line feed.
    fn add_words(&mut self, line: &Line<'_>)
        ensures { Puts self.old (words_text line.now) self.new }
    {
        match *line {
            Line::Open => self.add(b"open"),
            Line::Took { dir, bearer } => self.add_place(b"took ", dir, bearer),
            Line::Full { dir, bearer } => self.add_place(b"full ", dir, bearer),
            Line::Wrong { dir, bearer } => self.add_place(b"wrong ", dir, bearer),
            Line::Iub { dir, set, frame } => self.add_iub(dir, set, frame),
            Line::Phy { dir, tfci, cells } => self.add_phy(dir, tfci, cells),
            Line::PhyNone => self.add(b"phydown none"),
            Line::BadTti {
                dir,
                channel,
                frame,
            } => self.add_pair(b"badtti ", dir, channel, frame),
            Line::Bad {
                dir,
                channel,
                block,
            } => self.add_pair(b"bad ", dir, channel, block),
            Line::IubBad { dir, set, number } => self.add_pair(b"iubbad ", dir, set, number),
            Line::Reserved { dir, channel } => self.add_place(b"reserved ", dir, channel),
            Line::NoBearer { dir, channel, ct } => self.add_pair(b"nobearer ", dir, channel, ct),
            Line::Nobody { dir, channel } => self.add_place(b"nobody ", dir, channel),
            Line::PduBad {
                dir,
                bearer,
                number,
            } => self.add_pair(b"pdubad ", dir, bearer, number),
            Line::Outside { dir, bearer } => self.add_place(b"outside ", dir, bearer),
            Line::Overlong { dir, bearer } => self.add_place(b"overlong ", dir, bearer),
            Line::GotBits { dir, bearer, bits } => self.add_unit_bits(dir, bearer, bits),
            Line::GotOctets {
                dir,
                bearer,
                octets,
            } => self.add_unit_octets(dir, bearer, octets),
            Line::Differs { dir, channel } => self.add_place(b"false ", dir, channel),
            Line::Coded { bits } => self.add_coded(bits),
            Line::EndFrames(count) => self.add_count(b"end frames=", u128::from(count)),
            Line::EndLines(count) => self.add_count(b"end lines=", u128::from(count)),
            Line::Accepted(count) => self.add_count(b"accepted count=", count),
        }
    }

    fn add_count(&mut self, word: &[u8], count: u128)
        ensures { Puts self.old (word.now ++ decimal count) self.new }
    {
        self.add(word);
        self.add(Buffer::new().format(count).as_bytes());
    }

    /// A word, a direction and a number.
    #[tactic(auto, unfolding(crate::specs::Report::place_text))]
    fn add_place(&mut self, word: &[u8], dir: Dir, number: u8)
        ensures { Puts self.old (place_text word.now dir number) self.new }
    {
        self.add(word);
        self.add_dir(dir);
        self.add(b" ");
        self.add_number(number);
    }

    /// The same, with one more number.
    #[tactic(auto, unfolding(crate::specs::Report::pair_text))]
    fn add_pair(&mut self, word: &[u8], dir: Dir, number: u8, more: u8)
        ensures { Puts self.old (pair_text word.now dir number more) self.new }
    {
        self.add_place(word, dir, number);
        self.add(b" ");
        self.add_number(more);
    }

    fn add_number(&mut self, number: u8)
        ensures { Puts self.old (decimal number) self.new }
    {
        self.add(Buffer::new().format(number).as_bytes());
    }

    fn add_dir(&mut self, dir: Dir)
        ensures { Puts self.old (dir_word dir) self.new }
    {
        self.add(dir_word(dir).as_bytes());
    }

    #[tactic(auto, unfolding(crate::specs::Report::iub_text))]
    fn add_iub(&mut self, dir: Dir, set: u8, frame: &[u8])
        ensures { Puts self.old (iub_text dir set frame.now) self.new }
    {
        self.add(b"iub");
        self.add_dir(dir);
        self.add(b" ");
        self.add_number(set);
        self.add(b" ");
        self.add_octets(frame);
    }

    #[tactic(auto, unfolding(crate::specs::Report::phy_text))]
    fn add_phy(&mut self, dir: Dir, tfci: &[Bit], cells: &[Trit])
        ensures { Puts self.old (phy_text dir tfci.now cells.now) self.new }
    {
        self.add(b"phy");
        self.add_dir(dir);
        self.add(b" ");
        self.add_bits(tfci);
        self.add(b" ");
        self.add_cells(cells);
    }

    #[tactic(auto, unfolding(crate::specs::Report::unit_text))]
    fn add_unit_bits(&mut self, dir: Dir, bearer: u8, bits: &[Bit])
        ensures { Puts self.old (unit_text dir bearer (bits_shown bits.now)) self.new }
    {
        self.add_place(b"got ", dir, bearer);
        self.add(b" ");
        self.add_bits(bits);
    }

    #[tactic(auto, unfolding(crate::specs::Report::unit_text))]
    fn add_unit_octets(&mut self, dir: Dir, bearer: u8, octets: &[u8])
        ensures { Puts self.old (unit_text dir bearer (octets_shown octets.now)) self.new }
    {
        self.add_place(b"got ", dir, bearer);
        self.add(b" ");
        self.add_octets(octets);
    }

    fn add_coded(&mut self, bits: &[Bit])
        ensures { Puts self.old (codes "coded " ++ bits_shown bits.now) self.new }
    {
        self.add(b"coded ");
        self.add_bits(bits);
    }

    fn add_bits(&mut self, bits: &[Bit])
        ensures { Puts self.old (bits_shown bits.now) self.new }
    {
        match bits {
            [] => self.add(b"."),
            [_, ..] => self.add_letters(bits),
        }
    }

    fn add_letters(&mut self, bits: &[Bit])
        ensures { Puts self.old (map letter_of bits.now) self.new }
    {
        let count = self.fitting(bits.len());
        self.put_letters(&bits[..count]);
    }

    fn put_letters(&mut self, bits: &[Bit])
        requires { length self.old.text + length bits.now ≤ self.old.most }
        ensures { self.new ≡ record self.old { text = self.old.text ++ map letter_of bits.now } }
    {
        let end = self.used + bits.len();
        bits_text(bits, &mut self.room[self.used..end]);
        self.used = end;
    }

    fn add_cells(&mut self, cells: &[Trit])
        ensures { Puts self.old (cells_shown cells.now) self.new }
    {
        match cells {
            [] => self.add(b"."),
            [_, ..] => self.add_cell_letters(cells),
        }
    }

    fn add_cell_letters(&mut self, cells: &[Trit])
        ensures { Puts self.old (map cell_letter cells.now) self.new }
    {
        let count = self.fitting(cells.len());
        self.put_cell_letters(&cells[..count]);
    }

    fn put_cell_letters(&mut self, cells: &[Trit])
        requires { length self.old.text + length cells.now ≤ self.old.most }
        ensures { self.new ≡ record self.old { text = self.old.text ++ map cell_letter cells.now } }
    {
        let end = self.used + cells.len();
        trits_text(cells, &mut self.room[self.used..end]);
        self.used = end;
    }

    fn add_octets(&mut self, octets: &[u8])
        ensures { Puts self.old (octets_shown octets.now) self.new }
    {
        match octets {
            [] => self.add(b"."),
            [_, ..] => self.add_hex(octets),
        }
    }

    /// The last octet that there is no room for can leave one digit.
    fn add_hex(&mut self, octets: &[u8])
        ensures { Puts self.old (encode_lower octets.now) self.new }
    {
        let count = octets.len().min(self.spare() / 2);
        self.put_hex(&octets[..count]);
        if count < octets.len() {
            self.add_digits(octets[count]);
        }
    }

    #[tactic(auto, using(crate::proofs::Shown::encode_lower_len))]
    fn put_hex(&mut self, octets: &[u8])
        requires { length self.old.text + 2 * length octets.now ≤ self.old.most }
        ensures { self.new ≡ record self.old { text = self.old.text ++ encode_lower octets.now } }
    {
        let end = self.used + 2 * octets.len();
        hex_text(octets, &mut self.room[self.used..end]);
        self.used = end;
    }

    /// The digits of one octet.
    fn add_digits(&mut self, octet: u8)
        ensures { Puts self.old (encode_lower (octet ∷ [])) self.new }
    {
        let mut digits = [0; 2];
        hex_text(&[octet], &mut digits);
        self.add(&digits);
    }
}

/// Writes octets in lower-case hexadecimal.
fn hex_text(octets: &[u8], out: &mut [u8])
    requires { length out.old ≡ 2 * length octets.now }
    ensures { out.new ≡ encode_lower octets.now }
{
    match encode_to_slice(octets, out) {
        Ok(()) => {}
        Err(_) => unreachable!(),
    }
}

/// The word of a direction.
pub fn dir_word(dir: Dir) -> &'static str
    ensures { result.now ≡ dir_word dir }
{
    match dir {
        Dir::Up => "up",
        Dir::Down => "down",
    }
}
