//! The texts stand behind functions without clauses, so that none of them gets into a fact of a caller.

/// One channel without parity or code, whose frames all have the length of its block.
pub fn tiny_side() -> &'static str {
    "combinations = [[0],[1]]
channel = [{ tti = 10, code = \"none\", crc = 0, rm = 256, set = 0, formats = [[0,0],[1,150]] }]
"
}

/// The same, with a block of 100 bits.
pub fn hundred_side() -> &'static str {
    "combinations = [[0],[1]]
channel = [{ tti = 10, code = \"none\", crc = 0, rm = 256, set = 0, formats = [[0,0],[1,100]] }]
"
}

/// Speech in three classes, and signalling on a channel of its own.
pub fn speech_side() -> &'static str {
    "combinations = [[0,0,0,0],[1,0,0,0],[2,1,1,0],[0,0,0,1],[1,0,0,1],[2,1,1,1]]
channel = [
  { tti = 20, code = \"third\", crc = 12, rm = 200, set = 0, formats = [[0,0],[1,39],[1,81]] },
  { tti = 20, code = \"third\", crc = 0, rm = 190, set = 0, formats = [[0,0],[1,103]] },
  { tti = 20, code = \"half\", crc = 0, rm = 235, set = 0, formats = [[0,0],[1,60]] },
  { tti = 40, code = \"third\", crc = 16, rm = 180, set = 1, formats = [[0,0],[1,148]] }
]
"
}

/// Speech, signalling, and packets of up to twelve blocks a frame, in either direction.
pub fn packets_side() -> &'static str {
    "combinations = [
  [0,0,0,0,0],[1,0,0,0,0],[2,1,1,0,0],[0,0,0,1,0],[1,0,0,1,0],[2,1,1,1,0],
  [0,0,0,0,1],[1,0,0,0,1],[2,1,1,0,1],[0,0,0,1,1],[1,0,0,1,1],[2,1,1,1,1],
  [0,0,0,0,2],[1,0,0,0,2],[2,1,1,0,2],[0,0,0,1,2],[1,0,0,1,2],[2,1,1,1,2],
  [0,0,0,0,3],[1,0,0,0,3],[2,1,1,0,3],[0,0,0,1,3],[1,0,0,1,3],[2,1,1,1,3],
  [0,0,0,0,4],[1,0,0,0,4],[2,1,1,0,4],[0,0,0,1,4],[1,0,0,1,4],[2,1,1,1,4],
  [0,0,0,0,5],[1,0,0,0,5],[2,1,1,0,5],[0,0,0,1,5],[1,0,0,1,5],[2,1,1,1,5]
]
channel = [
  { tti = 20, code = \"third\", crc = 12, rm = 200, set = 0, formats = [[0,0],[1,39],[1,81]] },
  { tti = 20, code = \"third\", crc = 0, rm = 190, set = 0, formats = [[0,0],[1,103]] },
  { tti = 20, code = \"half\", crc = 0, rm = 235, set = 0, formats = [[0,0],[1,60]] },
  { tti = 40, code = \"third\", crc = 16, rm = 190, set = 1, formats = [[0,0],[1,148]] },
  { tti = 10, code = \"half\", crc = 16, rm = 130, set = 2, formats = [[0,0],[1,336],[2,336],[4,336],[8,336],[12,336]] }
]"
}

/// The reference channel of 12.2 kbit/s, and its signalling.
pub fn reference_side() -> &'static str {
    "combinations = [[0,0],[0,1],[1,1],[1,0]]
channel = [
  { tti = 20, code = \"third\", crc = 16, rm = 256, set = 0, formats = [[0,0],[1,244]] },
  { tti = 40, code = \"third\", crc = 12, rm = 256, set = 1, formats = [[0,0],[1,100]] }
]"
}
