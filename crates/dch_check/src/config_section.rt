ghost use Rattle.std.specs.Prelude.{◌≡◌, ◌<◌, ◌≤◌, ◌++◌, length, false, IfOk, OnOk};
ghost use Rattle.dch_check.specs.ConfigSection.{Gathered, behind, gathered, is_separator, nothing, settled, with_line};

use bytes::BytesMut;
use dch_bits::NoMemory;
use memchr::memchr;
use std::alloc::Global;
use std::marker::Model;

/// The configuration at the front of an input, gathered from pieces: all bytes before the first line `---`.
#[derive(Drop)]
pub struct ConfigSection {
    bytes: BytesMut,
    begun: usize,
    complete: bool,
}

impl Model for ConfigSection {
    ghost use Rattle.std.specs.Prelude.{◌≤◌, length, take, drop};
    ghost use Rattle.dch_check.specs.ConfigSection.{Gathered};

    ghost Value = { Gathered };

    ghost view = { λ f. record {
      text = take f.begun f.bytes.items;
      line = drop f.begun f.bytes.items;
      complete = f.complete;
    } };

    ghost invariant = { λ f. f.begun ≤ length f.bytes.items };
}

impl ConfigSection {
    /// The section of an input of which nothing has come.
    pub fn new(alloc: Global) -> Self
        ensures { result ≡ nothing }
    {
        ConfigSection {
            bytes: BytesMut::new(alloc),
            begun: 0,
            complete: false,
        }
    }

    /// Whether the line `---` has come.
    pub fn is_complete(&self) -> bool
        ensures { result ≡ self.now.complete }
    {
        self.complete
    }

    /// The text of the configuration, once the line `---` has come or where the input ends here.
    pub fn text(&self) -> &[u8]
        ensures { result.now ≡ settled self.now }
    {
        if is_separator(&self.bytes[self.begun..]) {
            &self.bytes[..self.begun]
        } else {
            &self.bytes
        }
    }

    /// Goes on by the next piece of the input. Answers what follows the line `---` in it: nothing where that line
    /// hasn't come.
    pub fn take_section<'a>(&mut self, piece: &'a [u8]) -> Result<&'a [u8], NoMemory>
        ensures section { OnOk result (self.new ≡ gathered self.old piece.entry.now) }
        ensures left { IfOk result (λ left. left.now ≡ behind self.old piece.entry.now) }
    {
        let mut left = piece;
        'lines: while !left.is_empty() && !self.complete {
            left = self.take_line(left)?;
        }
        Ok(left)
    }

    /// Goes on to the end of the line, or of the bytes where it doesn't end in them. Answers the bytes that are left.
    fn take_line<'a>(&mut self, bytes: &'a [u8]) -> Result<&'a [u8], NoMemory>
        requires going { self.old.complete ≡ false }
        requires some { 0 < length bytes.now }
        ensures shorter { IfOk result (λ left. length left.now < length bytes.entry.now) }
        ensures goes_on { IfOk result (λ left. gathered self.new left.now ≡ gathered self.old bytes.entry.now) }
        ensures leaves { IfOk result (λ left. behind self.new left.now ≡ behind self.old bytes.entry.now) }
    {
        match memchr(b'\n', bytes) {
            Some(at) => {
                let (part, left) = bytes.split_at(at + 1);
                self.hold(part)?;
                self.end_line();
                Ok(left)
            }
            None => {
                self.hold(bytes)?;
                Ok(&[])
            }
        }
    }

    /// Adds bytes to the line that has begun.
    fn hold(&mut self, part: &[u8]) -> Result<(), NoMemory>
        ensures { OnOk result (self.new ≡ record self.old { line = self.old.line ++ part.now }) }
    {
        self.bytes.extend_from_slice(part)?;
        Ok(())
    }

    /// Ends the line that has begun: it is the line `---`, or it belongs to the text.
    fn end_line(&mut self)
        requires { self.old.complete ≡ false }
        ensures { self.new ≡ with_line self.old }
    {
        if is_separator(&self.bytes[self.begun..]) {
            self.bytes.truncate(self.begun);
            self.complete = true;
        } else {
            self.begun = self.bytes.len();
        }
    }
}

fn is_separator(line: &[u8]) -> bool
    ensures { result ≡ is_separator line.now }
{
    line == b"---\n".as_slice() || line == b"---".as_slice()
}
