use dch_bits::NoMemory;
use dch_indication::{Indication, Indications};
use dch_script::Report;
use dch_types::Dir;
use std::alloc::Global;

/// Whether a report with room for so many bytes holds this text once it is told of an Iub frame.
fn holds(alloc: Global, most: usize, text: &[u8]) -> bool {
    match Report::open(alloc, most) {
        Ok(mut report) => {
            report.indicate(Indication::Iub {
                dir: Dir::Up,
                set: 3,
                frame: &[0x4a, 0xbc],
            });
            report.bytes() == text
        }
        Err(NoMemory) => false,
    }
}

#[test]
fn line_cut_where_the_room_ends(rt: HostRuntime) {
    assert!(rt; holds(rt.alloc(), 0, b""));
    assert!(rt; holds(rt.alloc(), 5, b"iubup"));
    assert!(rt; holds(rt.alloc(), 11, b"iubup 3 4ab"));
    assert!(rt; holds(rt.alloc(), 12, b"iubup 3 4abc"));
    assert!(rt; holds(rt.alloc(), 20, b"iubup 3 4abc\n"));
}
