//! What the types of the parameters of LUKS1 guarantee for their values. The functions do nothing;
//! their clauses are for proofs.

ghost use Rattle.luks_volume.specs.Ranges1.{AreTyped1, IsTypedSlot1};
ghost use Rattle.std.specs.Prelude.{All};

use crate::parameters::{Seal1, Slot1};
use crate::typed::bytes;

/// What the types guarantee for a key slot of LUKS1.
fn slot1(slot: &Slot1<'_>)
    ensures { IsTypedSlot1 slot.now }
{
    // Reading it makes its range known.
    let _iterations = slot.iterations;
    bytes(slot.random);
}

/// What the types guarantee for each of these key slots.
fn slots1(slots: &[Slot1<'_>])
    ensures { All IsTypedSlot1 slots.now }
{
    'slots: for slot in slots {
        slot1(slot);
    }
}

/// What the types guarantee for the parameters of a volume of LUKS1.
pub(crate) fn typed1(seal: &Seal1<'_>)
    ensures { AreTyped1 seal.now }
{
    // Reading it makes its range known.
    let _iterations = seal.digest_iterations;
    bytes(seal.key);
    bytes(seal.plain);
    slots1(seal.slots);
}
