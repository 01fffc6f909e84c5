//! Sealing with more and more memory, until a call does not run out of it. Each call that does
//! reports that, and never anything else.

use crate::tests::shared::counted;
use luks_test_support::parameters::{parameters1, parameters2, slot1, slot2};
use luks_test_support::scarce::Scarcity;
use luks_volume::luks1::seal1;
use luks_volume::luks2::seal2;
use luks_volume::parameters::{Seal1, Seal2, SealFault};
use std::alloc::Global;
use std::process::Abort;

/// How many pieces of memory are freed, and how many bytes each has.
const PIECES: usize = 400;

const PIECE: usize = 1100;

/// A volume to be sealed.
#[derive(Clone, Copy)]
enum Volume<'a> {
    First(&'a Seal1<'a>),
    Second(&'a Seal2<'a>),
}

// Why a volume is not sealed, if it is not.
fn fault_of(alloc: Global, volume: Volume<'_>) -> Option<SealFault> {
    match volume {
        Volume::First(volume) => seal1(alloc, volume).err(),
        Volume::Second(volume) => seal2(alloc, volume).err(),
    }
}

// Calls until one does not run out of memory: whether that one succeeds, and another one after it
// too, and how many were before them.
fn first_answer(alloc: Global, volume: Volume<'_>, scarcity: &mut Scarcity) -> (bool, usize) {
    for refused in 0..PIECES {
        let fault = fault_of(alloc, volume);
        if fault != Some(SealFault::Memory) {
            let succeeds = fault.is_none() && fault_of(alloc, volume).is_none();
            return (succeeds, refused);
        }
        scarcity.relent();
    }
    (false, PIECES)
}

fn check(rt: &(impl Abort + AllocGlobal), volume: Volume<'_>) {
    // The stack grows in a first call, since it cannot once all memory is used.
    assert!(rt; fault_of(rt.alloc(), volume).is_none());
    let (succeeds, refused) = {
        let mut scarcity = Scarcity::new(rt.alloc(), PIECES, PIECE).expect(rt, "memory");
        first_answer(rt.alloc(), volume, &mut scarcity)
    };
    assert!(rt; succeeds && 10 < refused, "{refused}");
}

#[test]
fn out_of_memory_is_reported_by_seal1(rt: HostRuntime) {
    let plain = counted(&rt, 1024);
    let slots = [slot1(0, [1; 32], b"one"), slot1(7, [2; 32], b"two")];
    check(&rt, Volume::First(&parameters1(&slots, plain)));
}

#[test]
fn out_of_memory_is_reported_by_seal2(rt: HostRuntime) {
    let plain = counted(&rt, 1024);
    let slots = [slot2(0, [1; 32], b"one"), slot2(31, [2; 32], b"two")];
    check(&rt, Volume::Second(&parameters2(&slots, plain)));
}
