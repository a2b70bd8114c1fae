ghost use Rattle.std.specs.Prelude.{◌≡◌, ◌≤◌, true, length, map, OnOk, IfErr};
ghost use Rattle.dch_bits.specs.Text.{bit_of_letter};
ghost use Rattle.dch_script.specs.Code.{meaning, is_bits};
ghost use Rattle.dch_lines.specs.Semantics.{Adds};
ghost use Rattle.dch_top.specs.Overlong.{encoding_refuses_long};
ghost use Rattle.dch_top.specs.EncodeText.{Answers, block_of, encoding};

use dch_bits::{Bit, NoMemory};
use dch_coding::BlockCoder;
use dch_lines::{LineFault, LineHandler, Page, put_line};
use dch_script::{Command, Event, Line, LineError, parse};
use dch_types::MAX_BLOCK_BITS;
use std::alloc::Global;
use std::marker::Model;

/// The handler of `encode`: codes the transport block of each line, in room that is taken once.
#[derive(Drop)]
pub struct EncodeHandler {
    block: Vec<Bit>,
    handler: BlockCoder,
}

impl Model for EncodeHandler {
    ghost use Rattle.std.specs.Prelude.{◌≡◌, length};

    ghost Value = { Unit {0} };

    ghost view = { λ _. tt };

    ghost invariant = { λ c. length c.block.items ≡ 5000 };
}

impl EncodeHandler {
    /// A handler with its room.
    pub fn open(alloc: Global) -> Result<EncodeHandler, NoMemory> {
        let Ok(block) = vec![in alloc; Bit::Zero; MAX_BLOCK_BITS] else {
            return Err(NoMemory);
        };
        let Ok(handler) = BlockCoder::open(alloc) else {
            return Err(NoMemory);
        };
        Ok(EncodeHandler { block, handler })
    }
}

impl LineHandler for EncodeHandler {
    ghost State = { Unit {0} };

    ghost semantics = { encoding };

    ghost represents = { λ _ _. Unit {0} };

    ghost stands = { λ _. Unit {0} };

    ghost handled = { λ _. 0 };

    fn handle_line<P: Page>(&mut self, line: &[u8], page: &mut P) -> Result<(), LineFault> {
        match code_line(line, &mut self.block, &mut self.handler, page) {
            Ok(()) => Ok(()),
            Err(why) => Err(LineFault::Malformed(why)),
        }
    }

    #[tactic(auto, unfolding(crate::specs::EncodeText::closing))]
    fn close<P: Page>(&self, nonempty_lines: u64, page: &mut P) {
        put_line(page, &Line::EndLines(nonempty_lines));
    }

    ghost overlong = { encoding_refuses_long };

    ghost stood = { λ _ _. (tt, tt) };
}

/// Writes the coded bits of a line's transport block.
fn code_line<P: Page>(
    line: &[u8],
    block: &mut [Bit],
    handler: &mut BlockCoder,
    page: &mut P,
) -> Result<(), LineError>
    requires block { length block.old ≡ 5000 }
    ensures ok { OnOk result (Adds P.writes (Answers (meaning line.now)) page.old page.new) }
    ensures err { IfErr result (λ why. (meaning line.now ≡ Err why) × (page.new ≡ page.old)) }
{
    match parse(Command::Encode, line) {
        Ok(Event::Code { coding, crc, bits }) => {
            let block = read_block(bits, block);
            let bits = handler.code(coding, crc, block);
            put_line(page, &Line::Coded { bits });
            Ok(())
        }
        Ok(_) => unreachable!(),
        Err(why) => Err(why),
    }
}

/// The bits of a text, where a dot stands for none, at the front of `block`.
fn read_block<'a>(text: &[u8], block: &'a mut [Bit]) -> &'a [Bit]
    requires room { length block.old ≡ 5000 }
    requires bits { is_bits 5000 text.now ≡ true }
    ensures bits { result.now ≡ block_of text.now }
    ensures short { length result.now ≤ 5000 }
{
    match text {
        b"." => &block[..0],
        _ => read_letters(text, &mut block[..text.len()]),
    }
}

/// The bits of letters, each of which is `0` or `1`.
fn read_letters<'a>(letters: &[u8], bits: &'a mut [Bit]) -> &'a [Bit]
    requires { length bits.old ≡ length letters.now }
    ensures { result.now ≡ map bit_of_letter letters.now }
{
    for i in 0..letters.len() {
        bits[i] = if letters[i] == b'1' {
            Bit::One
        } else {
            Bit::Zero
        };
    }
    bits
}
