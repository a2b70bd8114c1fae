use dch_rlcpdu::{StatusView, Sufi};

// What field `i` of a status says, with its first pair or bit.
fn said(octets: &[u8], i: usize) -> Option<(Sufi, (u16, u8), bool)> {
    let view = StatusView::read(octets)?;
    if i >= view.fields() {
        return None;
    }
    Some(match view.field(i) {
        Sufi::List { pairs } if pairs > 0 => (Sufi::List { pairs }, view.pair(i, 0), false),
        Sufi::Bitmap { first, bits } if bits > 0 => (
            Sufi::Bitmap { first, bits },
            (0, 0),
            view.bit(i, 0),
        ),
        other => (other, (0, 0), false),
    })
}

// Statuses, and what their fields say.
fn readings() -> [([u8; 6], [Option<(Sufi, (u16, u8), bool)>; 3]); 4] {
    let list = Sufi::List { pairs: 1 };
    let bitmap = Sufi::Bitmap { first: 10, bits: 8 };
    let numbers = Sufi::Mrw { last: 5, n: 3 };
    let heard = Sufi::MrwAck { n: 2, sn: 9 };
    let plain = |sufi: Sufi| Some((sufi, (0, 0), false));
    [
        (
            [0x03, 0x10, 0x01, 0x12, 0x00, 0x40],
            [Some((list, (1, 1), false)), plain(Sufi::Ack(4)), None],
        ),
        (
            [0x04, 0x00, 0x0a, 0xf0, 0x20, 0x0c],
            [Some((bitmap, (0, 0), true)), plain(Sufi::Ack(12)), None],
        ),
        (
            [0x06, 0x20, 0x01, 0x00, 0x53, 0x00],
            [plain(numbers), plain(Sufi::NoMore), None],
        ),
        (
            [0x01, 0x01, 0x07, 0x20, 0x09, 0x00],
            [plain(Sufi::Window(16)), plain(heard), plain(Sufi::NoMore)],
        ),
    ]
}

fn is_read(reading: ([u8; 6], [Option<(Sufi, (u16, u8), bool)>; 3])) -> bool {
    let (octets, [first, second, third]) = reading;
    said(&octets, 0) == first && said(&octets, 1) == second && said(&octets, 2) == third
}

#[test]
fn fields_that_are_read(rt: HostRuntime) {
    for reading in readings() {
        assert!(rt; is_read(reading));
    }
}
