//! LUKS1 headers for tests.

/// The numbers of a usual header by their offsets: 4000 stripes from sector 8 on for slot 0, the
/// payload from sector 4096 on, a key of 64 bytes, and 1000 iterations each for slot 0 and for the
/// digest. All other slots are disabled; the state of slot 0 is not among the numbers.
pub const USUAL_NUMBERS: [(usize, u32); 13] = [
    (104, 4096),
    (108, 64),
    (164, 1000),
    (212, 1000),
    (248, 8),
    (252, 4000),
    (256, 0xdead),
    (304, 0xdead),
    (352, 0xdead),
    (400, 0xdead),
    (448, 0xdead),
    (496, 0xdead),
    (544, 0xdead),
];
