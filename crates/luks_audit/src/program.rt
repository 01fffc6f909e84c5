//! Which program printed a line, and by which rules.

/// The version of luksrd-audit.
pub const VERSION: &str = "1.3.0";

/// The number of the policy: what is weak, and how severe. It increases with each change of that.
pub const POLICY: u64 = 1;
