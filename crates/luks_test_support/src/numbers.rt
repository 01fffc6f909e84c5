//! Pseudorandom numbers.

/// The next number: the upper half of the state of a 64-bit linear congruential generator.
pub fn next(state: &mut u64) -> u32 {
    *state = state
        .wrapping_mul(6_364_136_223_846_793_005)
        .wrapping_add(1_442_695_040_888_963_407);
    (*state >> 32) as u32
}
