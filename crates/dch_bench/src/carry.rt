ghost use Rattle.std.specs.Prelude.{◌≡◌, ◌≤◌, length};

use dch_accept::PhyFrame;
use dch_bits::Trit;

/// Copies a frame, in which one cell in so many is inverted, from the first on; none for 0. A cell that is Off stays
/// Off.
pub fn carry(sent: &PhyFrame, every: usize, received: &mut PhyFrame)
    requires room { sent.now.room ≡ received.old.room }
    requires fits { length sent.now.cells ≤ sent.now.room }
    requires tfci { length sent.now.tfci ≡ length received.old.tfci }
    ensures room { received.new.room ≡ received.old.room }
    ensures tfci { length received.new.tfci ≡ length received.old.tfci }
{
    let frame = sent.view();
    received.shape(frame.cells.len());
    received.tfci_mut().copy_from_slice(frame.tfci);
    received.cells_mut().copy_from_slice(frame.cells);
    if every > 0 {
        flip(received.cells_mut(), every);
    }
}

/// Inverts one cell in so many, from the first on. A cell that is Off stays Off.
fn flip(cells: &mut [Trit], every: usize)
    requires { 1 ≤ every }
    ensures { length cells.new ≡ length cells.old }
{
    for k in 0..cells.len() {
        if k % every == 0 {
            cells[k] = flipped(cells[k]);
        }
    }
}

fn flipped(cell: Trit) -> Trit {
    match cell {
        Trit::Zero => Trit::One,
        Trit::One => Trit::Zero,
        Trit::Off => Trit::Off,
    }
}
