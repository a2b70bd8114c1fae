ghost use Rattle.std.specs.Prelude.{refl};
ghost use Rattle.dch_tests.specs.Echo.{echoing};

use dch_bits::NoMemory;
use dch_io::{InputOffset, MemorySink, MemorySource, Pending, new_piece};
use dch_lines::*;
use dch_script::LineError;
use std::alloc::{AllocError, Global};

/// A handler that answers a line three times, finds no memory for one, and refuses lines of more than five bytes. It
/// answers once where no more can be written.
#[derive(Drop)]
struct Echo;

impl LineHandler for Echo {
    ghost State = { Unit {0} };

    ghost semantics = { echoing };

    ghost represents = { λ _ _. Unit {0} };

    ghost stands = { λ _. Unit {0} };

    ghost handled = { λ _. 0 };

    fn handle_line<P: Page>(&mut self, line: &[u8], page: &mut P) -> Result<(), LineFault> {
        if line == b"much\n".as_slice() {
            return Err(LineFault::NoMemory);
        }
        if line.len() > 5 {
            return Err(LineFault::Malformed(LineError::Long));
        }
        page.put_text(b"once\n");
        if page.is_open() {
            page.put_text(b"again\nagain\n");
        }
        Ok(())
    }

    fn close<P: Page>(&self, _nonempty_lines: u64, page: &mut P) {
        page.put_text(b"end\n");
    }

    ghost overlong = { λ _ _ _. refl };

    ghost stood = { λ _ _. (tt, tt) };
}

fn source_of(alloc: Global, input: &[u8]) -> Result<MemorySource, AllocError> {
    Ok(MemorySource::new(input.to_vec(alloc)?, 3, Vec::new(alloc)))
}

fn sink_of(alloc: Global, failing: &[u64]) -> Result<MemorySink, AllocError> {
    let room = vec![in alloc; 0; 200]?;
    Ok(MemorySink::new(room, 4, failing.to_vec(alloc)?))
}

/// What comes of an input, and what is written, where these writes fail.
fn followed(
    alloc: Global,
    input: &[u8],
    failing: &[u64],
) -> Result<(Outcome, MemorySink), NoMemory> {
    let before = InputOffset {
        bytes: 100,
        lines: 7,
    };
    let mut source = source_of(alloc, input)?;
    let mut sink = sink_of(alloc, failing)?;
    let mut processor = LineProcessor::open(alloc, Echo, b"open\n", before, 64)?;
    let mut piece = new_piece(alloc)?;
    let pending = Pending {
        from: 0,
        to: 0,
        at_end: false,
    };
    let outcome = follow_input(&mut source, &mut sink, &mut piece, pending, &mut processor);
    Ok((outcome, sink))
}

/// Whether an input is followed to this end, and this is written.
fn follows(alloc: Global, input: &[u8], failing: &[u64], outcome: Outcome, text: &[u8]) -> bool {
    match followed(alloc, input, failing) {
        Ok((ended, sink)) => ended == outcome && sink.bytes() == text,
        Err(NoMemory) => false,
    }
}

#[test]
fn lines_of_three_answers(rt: HostRuntime) {
    let steps = b"open\nonce\nagain\nagain\n";
    assert!(rt;
        follows(
            rt.alloc(),
            b"one\nmuch\ntwo\n",
            &[],
            Outcome::NoMemory,
            steps
        )
    );
    assert!(rt; follows(rt.alloc(), b"one\n", &[3], Outcome::WriteFault, &steps[..9]));
    assert!(rt;
        follows(
            rt.alloc(),
            b"a\na\na\na\na\na\n",
            &[1],
            Outcome::WriteFault,
            &steps[..4]
        )
    );
}
