// The product's sizes, for the code; specs/Limits.antt has the same numbers for the definitions.

// The units of a list, placeholder included.
pub const UNITS: usize = 65536;

// The rows of room that count: a longer room counts as that long.
pub const ROWS: usize = 65536;

// The peers that have edits in a history.
pub const PEERS: usize = 16;

// The edits of a history.
pub const EDITS: usize = 2000;
