use dch_rlcpdu::{PduError, read_am, read_um};

// One unit of ten octets without acknowledgement, its start and its end marked, and padding.
fn marked() -> [u8; 18] {
    [
        0x01, 0xf9, 0x15, 0xfe, 0, 1, 2, 3, 4, 5, 6, 7, 8, 9, 0, 0, 0, 0,
    ]
}

// The same unit in the acknowledged mode, in a PDU that polls.
fn polling() -> [u8; 18] {
    [
        0x80, 0x05, 0x15, 0xfe, 0, 1, 2, 3, 4, 5, 6, 7, 8, 9, 0, 0, 0, 0,
    ]
}

fn refusal(p: &[u8]) -> Option<PduError> {
    read_um(p).err()
}

fn refusal_am(p: &[u8]) -> Option<PduError> {
    read_am(p).err()
}

#[test]
fn fronts_of_a_pdu(rt: HostRuntime) {
    let (um, am) = (marked(), polling());
    for n in 0..19usize {
        let expected = match n {
            0..=3 => Some(PduError::Short),
            4..=13 => Some(PduError::Indicator),
            _ => None,
        };
        assert!(rt; refusal(&um[..n]) == expected);
        assert!(rt; refusal_am(&am[..n]) == expected);
    }
}

// The indicators of PDUs of eight octets behind them, and whether they are good.
fn indicators() -> [([u8; 3], bool); 12] {
    [
        ([5, 7, 127], true),
        ([0, 5, 7], true),
        ([124, 8, 127], true),
        ([5, 0, 127], false),
        ([5, 124, 127], false),
        ([0, 124, 127], false),
        ([5, 127, 8], false),
        ([5, 5, 127], false),
        ([7, 5, 127], false),
        ([5, 9, 127], false),
        ([5, 7, 125], false),
        ([5, 7, 126], false),
    ]
}

fn with_indicators(indicators: [u8; 3]) -> [u8; 12] {
    let [first, second, third] = indicators.map(|indicator| indicator << 1);
    [0x01, first | 1, second | 1, third, 9, 9, 9, 9, 9, 9, 9, 9]
}

#[test]
fn indicators_in_wrong_places(rt: HostRuntime) {
    for (indicators, good) in indicators() {
        let expected = if good {
            None
        } else {
            Some(PduError::Indicator)
        };
        assert!(rt; refusal(&with_indicators(indicators)) == expected);
    }
}

// Octets in front, and zeros up to a PDU of 18 octets.
fn pdu_of(front: [u8; 6]) -> [u8; 18] {
    let mut p = [0; 18];
    p[..6].copy_from_slice(&front);
    p
}

// The first octets of acknowledged PDUs, and what is wrong with them.
fn fronts() -> [([u8; 6], Option<PduError>); 14] {
    [
        ([0x03, 0x10, 0x01, 0x12, 0x00, 0x40], None),
        ([0x03, 0, 0, 0, 0, 0], Some(PduError::Sufi)),
        ([0x05, 0, 0, 0, 0, 0], Some(PduError::Sufi)),
        ([0x08, 0, 0, 0, 0, 0], Some(PduError::Sufi)),
        ([0x30, 0, 0, 0, 0, 0], Some(PduError::Reserved)),
        ([0x80, 0x02, 0, 0, 0, 0], Some(PduError::Reserved)),
        (
            [0x80, 0x03, 0xff, 0xff, 0xff, 0xff],
            Some(PduError::Reserved),
        ),
        ([0x80, 0x01, 0xf8, 0, 0, 0], Some(PduError::Indicator)),
        ([0x80, 0x01, 0xfa, 0, 0, 0], Some(PduError::Indicator)),
        ([0x80, 0x01, 0xfc, 0x82, 0x00, 0x70], None),
        ([0x80, 0x01, 0xfc, 0x92, 0x00, 0x70], Some(PduError::Sufi)),
        ([0x80, 0x01, 0xfc, 0x05, 0, 0], Some(PduError::Sufi)),
        ([0x80, 0x01, 0xfe, 0x55, 0x55, 0x55], None),
        ([0x10, 0, 0, 0, 0, 0], None),
    ]
}

#[test]
fn acknowledged_pdus_read_and_refused(rt: HostRuntime) {
    for (front, expected) in fronts() {
        assert!(rt; refusal_am(&pdu_of(front)) == expected);
    }
    assert!(rt; refusal_am(&[0x10, 0, 0]) == Some(PduError::Sufi));
}
