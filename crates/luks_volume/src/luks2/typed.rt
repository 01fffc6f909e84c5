//! What the types of the parameters of LUKS2 guarantee for their values. The functions do nothing;
//! their clauses are for proofs.

ghost use Rattle.luks_volume.specs.Ranges2.{AreTyped2, IsTypedSlot2};
ghost use Rattle.std.specs.Prelude.{All};

use crate::parameters::{Seal2, Slot2};
use crate::typed::bytes;

/// What the types guarantee for a key slot.
fn slot2(slot: &Slot2<'_>)
    ensures { IsTypedSlot2 slot.now }
{
    // Reading it makes its range known.
    let _iterations = slot.iterations;
    bytes(&slot.salt);
    bytes(slot.random);
}

/// What the types guarantee for each of these key slots.
fn slots2(slots: &[Slot2<'_>])
    ensures { All IsTypedSlot2 slots.now }
{
    'slots: for slot in slots {
        slot2(slot);
    }
}

/// What the types guarantee for the parameters of a volume.
pub(crate) fn typed2(seal: &Seal2<'_>)
    ensures { AreTyped2 seal.now }
{
    // Reading them makes their ranges known.
    let _iv_tweak = seal.iv_tweak;
    let _iterations = seal.digest_iterations;
    bytes(seal.key);
    bytes(seal.plain);
    bytes(&seal.digest_salt);
    slots2(seal.slots);
}
