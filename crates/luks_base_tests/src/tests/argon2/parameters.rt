use luks_argon2::{ParameterFault, Parameters};
use std::process::Abort;

/// These passes, KiB and lanes.
pub(super) fn parameters(rt: &impl Abort, [passes, memory_kib, lanes]: [u32; 3]) -> Parameters {
    Parameters::new(passes, memory_kib, lanes).expect(rt, "parameters")
}

// Passes, KiB and lanes, and the fault.
static RANGES: [([u32; 3], Option<ParameterFault>); 12] = [
    ([1, 8, 1], None),
    ([0xFFFF_FFFF, 0xFFFF_FFFF, 1], None),
    ([1, 134_217_720, 16_777_215], None),
    ([1, 31, 3], None),
    ([0, 8, 1], Some(ParameterFault::Passes)),
    ([0, 0, 0], Some(ParameterFault::Passes)),
    ([1, 8, 0], Some(ParameterFault::Lanes)),
    ([1, 0xFFFF_FFFF, 16_777_216], Some(ParameterFault::Lanes)),
    ([1, 0, 0xFFFF_FFFF], Some(ParameterFault::Lanes)),
    ([1, 7, 1], Some(ParameterFault::Memory)),
    ([1, 31, 4], Some(ParameterFault::Memory)),
    ([1, 134_217_719, 16_777_215], Some(ParameterFault::Memory)),
];

#[test]
fn ranges(rt: HostRuntime) {
    for ([passes, memory_kib, lanes], fault) in &RANGES {
        let result = Parameters::new(*passes, *memory_kib, *lanes);
        assert!(rt; result.err() == *fault, "{passes} {memory_kib} {lanes}");
    }
}

// Passes, KiB and lanes; the blocks of the memory, and those that all passes fill.
static BLOCKS: [([u32; 3], usize, u64); 5] = [
    ([1, 8, 1], 8, 8),
    ([3, 11, 1], 8, 24),
    ([4, 39, 4], 32, 128),
    ([2, 256, 3], 252, 504),
    (
        [0xFFFF_FFFF, 0xFFFF_FFFF, 1],
        0xFFFF_FFFC,
        0xFFFF_FFFB_0000_0004,
    ),
];

#[test]
fn blocks(rt: HostRuntime) {
    for (numbers, memory, filled) in &BLOCKS {
        let parameters = parameters(&rt, *numbers);
        assert!(rt; parameters.memory_blocks() == *memory, "{memory}");
        assert!(rt; parameters.filled_blocks() == *filled, "{filled}");
    }
}
