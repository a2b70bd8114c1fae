ghost use Rattle.std.specs.Prelude.{◌≡◌};
ghost use Rattle.dch_retx.specs.Flights.{continues_in, ends_in, sent_once};

/// Where the octets of a PDU stand among the SDUs.
#[derive(Clone, Copy)]
pub struct Extent {
    /// The SDU where they begin, counted since opening, up to 65,536.
    pub sdu: u16,
    /// How many octets of that SDU stand in PDUs before.
    pub used: u16,
    /// How many SDUs end with octets of the PDU and have their length indicators in it.
    pub pieces: u8,
    /// How many octets of the next SDU stand behind them.
    pub rest: u8,
}

/// A PDU in flight.
#[derive(Clone, Copy)]
pub struct SentPdu {
    pub extent: Extent,
    /// The indicator 0 stands first.
    pub full: bool,
    /// A length indicator of padding stands last.
    pub padded: bool,
    /// How often it was built, at most 255.
    pub builds: u8,
    /// It is acknowledged, though a PDU before it isn't.
    pub acked: bool,
    /// It was requested and not built since.
    pub requested: bool,
    /// The status that is being heard names it missing, so that it isn't acknowledged.
    pub named: bool,
}

impl SentPdu {
    /// A PDU that was just built.
    pub fn new(extent: Extent, full: bool, padded: bool) -> SentPdu
        ensures { result ≡ sent_once extent full padded }
    {
        SentPdu {
            extent,
            full,
            padded,
            builds: 1,
            acked: false,
            requested: false,
            named: false,
        }
    }

    /// How many SDUs have their length indicators in it, up to 256.
    pub fn ends(&self) -> u16
        ensures { result ≡ ends_in self.now }
    {
        self.extent.pieces as u16 + if self.full { 1 } else { 0 }
    }

    /// An SDU goes on behind its last octet.
    pub fn continues(&self) -> bool
        ensures { result ≡ continues_in self.now }
    {
        self.extent.rest > 0
    }
}
