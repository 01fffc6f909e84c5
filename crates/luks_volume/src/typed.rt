//! What the types of parameters guarantee for their values. The functions do nothing; their clauses
//! are for proofs.

ghost use Rattle.luks_aes.specs.Bytes.{IsBytes};

/// Each element of a slice of bytes is below 256.
pub fn bytes(bytes: &[u8])
    ensures { IsBytes bytes.now }
{}
