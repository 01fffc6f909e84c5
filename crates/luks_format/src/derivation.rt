//! How the key of a slot's key material is derived from a passphrase, and what that may cost.

ghost use Rattle.std.specs.Prelude.{◌≡◌, ◌^◌, ◌<◌, option_map};
ghost use Rattle.luks_format.specs.Derivation.{argon2_refusal, derivation_refusal, fill_limit};
ghost use Rattle.luks_format.specs.Derivation.{fill_of};
ghost use Rattle.luks_format.specs.Derivation.{has_known_hash, is_derivable};
ghost use Rattle.luks_format.specs.Derivation.{lanes_out_of_range, memory_limit};
ghost use Rattle.luks_format.specs.Derivation.{memory_out_of_range, passes_out_of_range};
ghost use Rattle.luks_format.specs.Rule.{exceeds};

use crate::refusal::SkipReason;
use crate::rule::iterations_out_of_range;
use luks_argon2::Variant;
use luks_kdf::Hash;

/// How a key is derived from a passphrase, before the numbers are checked.
#[derive(Clone, Copy, PartialEq, Eq, Debug)]
pub enum Derivation {
    /// By PBKDF2 (RFC 8018, section 5.2) with this hash function and number of iterations. `None`
    /// only for LUKS1, if the name of the hash function is not known.
    Pbkdf2(Option<Hash>, u64),
    /// By Argon2.
    Argon2(Argon2Parameters),
}

/// The parameters of Argon2 (RFC 9106, section 3.1), before they are checked.
#[derive(Clone, Copy, PartialEq, Eq, Debug)]
pub struct Argon2Parameters {
    /// The variant.
    pub variant: Variant,
    /// The number of passes over the memory, which LUKS2 calls time.
    pub passes: u64,
    /// The memory size in KiB.
    pub memory_kib: u64,
    /// The number of lanes, which LUKS2 calls CPUs.
    pub lanes: u64,
}

/// What deriving the key of a slot may cost. Slots that cost more are skipped.
#[derive(Clone, Copy, PartialEq, Eq, Debug)]
pub struct Limits {
    /// The largest number of iterations of PBKDF2 in a slot or its digest, if there is a limit.
    pub max_iterations: Option<u32>,
    /// What Argon2 may cost, or `None` if slots that need it are skipped.
    pub argon2: Option<Argon2Limits>,
}

/// What deriving the key of one slot by Argon2 may cost.
#[derive(Clone, Copy, PartialEq, Eq, Debug)]
pub struct Argon2Limits {
    /// The largest memory size in KiB.
    pub memory_kib: u32,
    /// The most memory that all passes fill, in KiB: the number of passes times the memory size.
    pub fill_kib: u64,
}

impl Limits {
    ghost use Rattle.std.specs.Prelude.{◌≡◌};
    ghost use Rattle.luks_format.specs.Derivation.{without_argon2};

    /// This limit on iterations, and no Argon2.
    pub fn without_argon2(max_iterations: Option<u32>) -> Limits
        ensures { result ≡ without_argon2 max_iterations }
    {
        Limits {
            max_iterations,
            argon2: None,
        }
    }
}

// Whether the number of passes is not 1 to 2^32 - 1.
#[tactic(auto, unfolding(crate::specs::Derivation::passes_out_of_range))]
fn passes_out_of_range(passes: u64) -> bool
    ensures { result ≡ passes_out_of_range passes }
{
    passes == 0 || 1 << 32 <= passes
}

// Whether the number of lanes is not 1 to 2^24 - 1.
#[tactic(auto, unfolding(crate::specs::Derivation::lanes_out_of_range))]
fn lanes_out_of_range(lanes: u64) -> bool
    ensures { result ≡ lanes_out_of_range lanes }
{
    lanes == 0 || 1 << 24 <= lanes
}

// Whether the memory is less than 8 KiB for each lane, or 2^32 KiB or more.
#[tactic(auto, unfolding(crate::specs::Derivation::memory_out_of_range))]
fn memory_out_of_range(memory_kib: u64, lanes: u64) -> bool
    ensures { result ≡ memory_out_of_range memory_kib lanes }
{
    memory_kib / 8 < lanes || 1 << 32 <= memory_kib
}

// Whether the memory is above the limit, if there is one.
fn exceeds_memory(limits: Option<Argon2Limits>, memory_kib: u64) -> bool
    ensures { result ≡ exceeds (memory_limit limits) memory_kib }
{
    match limits {
        Some(limits) => u64::from(limits.memory_kib) < memory_kib,
        None => false,
    }
}

// The memory that all passes fill, in KiB.
fn fill_kib(parameters: Argon2Parameters) -> u64
    requires passes { parameters.passes < 2 ^ 32 }
    requires memory { parameters.memory_kib < 2 ^ 32 }
    ensures { result ≡ fill_of parameters }
{
    parameters.passes * parameters.memory_kib
}

// Whether all passes together fill more memory than the limit, if there is one.
fn exceeds_fill(limits: Option<Argon2Limits>, fill_kib: u64) -> bool
    ensures { result ≡ exceeds (fill_limit limits) fill_kib }
{
    match limits {
        Some(limits) => limits.fill_kib < fill_kib,
        None => false,
    }
}

// The first reason not to derive a key by Argon2 with these parameters.
#[tactic(auto, unfolding(crate::specs::Derivation::argon2_refusal))]
fn argon2_refusal(limits: Option<Argon2Limits>, parameters: Argon2Parameters) -> Option<SkipReason>
    ensures { result ≡ argon2_refusal limits parameters }
{
    let memory_kib = parameters.memory_kib;
    if passes_out_of_range(parameters.passes) {
        return Some(SkipReason::Argon2Time);
    }
    if lanes_out_of_range(parameters.lanes) {
        return Some(SkipReason::Argon2Cpus);
    }
    if memory_out_of_range(memory_kib, parameters.lanes) {
        return Some(SkipReason::Argon2Memory);
    }
    if exceeds_memory(limits, memory_kib) {
        return Some(SkipReason::Argon2MemoryLimit(memory_kib));
    }
    let fill_kib = fill_kib(parameters);
    if exceeds_fill(limits, fill_kib) {
        return Some(SkipReason::Argon2FillLimit(fill_kib));
    }
    None
}

impl Derivation {
    ghost use Rattle.std.specs.Prelude.{◌≡◌};
    ghost use Rattle.luks_format.specs.Derivation.{derivation_refusal, has_known_hash};
    ghost use Rattle.luks_format.specs.Derivation.{is_derivable};

    /// Whether the hash function is known, or none is needed.
    pub fn has_known_hash(self) -> bool
        ensures { result ≡ has_known_hash self }
    {
        match self {
            Derivation::Pbkdf2(hash, _) => hash.is_some(),
            Derivation::Argon2(_) => true,
        }
    }

    /// Whether the numbers are in range: iterations that fit into four bytes, or parameters that
    /// Argon2 allows.
    #[tactic(auto, unfolding(crate::specs::Derivation::is_derivable))]
    pub fn in_range(self) -> bool
        ensures { result ≡ is_derivable self }
    {
        match self {
            Derivation::Pbkdf2(_, iterations) => !iterations_out_of_range(None, iterations),
            Derivation::Argon2(parameters) => {
                !passes_out_of_range(parameters.passes)
                    && !lanes_out_of_range(parameters.lanes)
                    && !memory_out_of_range(parameters.memory_kib, parameters.lanes)
            }
        }
    }

    /// The first reason not to derive a key in this way: a number that is out of range, or a cost
    /// above its limit. Whether Argon2 is used at all is not asked here.
    #[tactic(auto, unfolding(crate::specs::Derivation::derivation_refusal))]
    pub fn refusal(self, limits: Limits) -> Option<SkipReason>
        ensures { result ≡ derivation_refusal limits self }
    {
        match self {
            Derivation::Pbkdf2(_, iterations) => {
                if iterations_out_of_range(limits.max_iterations, iterations) {
                    Some(SkipReason::Iterations)
                } else {
                    None
                }
            }
            Derivation::Argon2(parameters) => argon2_refusal(limits.argon2, parameters),
        }
    }
}
