//! The parameters of Argon2, each with its range (RFC 9106, section 3.1).

ghost use Rattle.std.specs.Prelude.{◌≤◌, ◌<◌, ◌*◌, ◌^◌};

/// How much memory Argon2 fills, and how often.
#[derive(Clone, Copy, PartialEq, Eq, Debug, Drop)]
pub struct Parameters {
    /// t, the number of passes over the memory: 1 at least.
    pub passes: u32,
    /// m, the memory size in KiB: eight for each lane at least.
    pub memory_kib: u32,
    /// p, the degree of parallelism: 1 to 2^24 - 1. The tag depends on it; the lanes are filled one
    /// after the other.
    pub lanes: u32,
    ghost some_passes: { 1 ≤ passes },
    ghost some_lanes: { 1 ≤ lanes },
    ghost few_lanes: { lanes < 2 ^ 24 },
    ghost some_memory: { 8 * lanes ≤ memory_kib },
}

/// Which parameter is out of range. If several are, it is the first of these.
#[derive(Clone, Copy, PartialEq, Eq, Debug, Drop)]
pub enum ParameterFault {
    /// There is no pass.
    Passes,
    /// There is no lane, or there are 2^24 lanes or more.
    Lanes,
    /// A lane has less than 8 KiB.
    Memory,
}

impl Parameters {
    ghost use Rattle.std.specs.Prelude.{◌≡◌, IfOk};
    ghost use Rattle.std.specs.Result.{result_err};
    ghost use Rattle.luks_argon2.specs.Parameters.{filled_blocks, memory_blocks, parameter_fault};

    /// These parameters, or which of them is out of range.
    pub fn new(passes: u32, memory_kib: u32, lanes: u32) -> Result<Parameters, ParameterFault>
        ensures fault { result_err result ≡ parameter_fault passes memory_kib lanes }
        ensures fields { IfOk result (λ parameters. (parameters.passes ≡ passes)
            × (parameters.memory_kib ≡ memory_kib) × (parameters.lanes ≡ lanes)) }
    {
        if passes == 0 {
            return Err(ParameterFault::Passes);
        }
        if lanes == 0 || 1 << 24 <= lanes {
            return Err(ParameterFault::Lanes);
        }
        if memory_kib / 8 < lanes {
            return Err(ParameterFault::Memory);
        }
        Ok(Parameters {
            passes,
            memory_kib,
            lanes,
        })
    }

    /// m', the number of blocks of 1 KiB in the memory: the memory size, rounded down to a multiple
    /// of four blocks a lane (section 3.2, step 2).
    pub fn memory_blocks(self) -> usize
        ensures value { result ≡ memory_blocks self.memory_kib self.lanes }
        ensures some { 1 ≤ result }
    {
        let lanes = self.lanes as usize;
        lanes * (4 * (self.memory_kib as usize / (4 * lanes)))
    }

    /// How many blocks all passes fill, those included that steps 3 and 4 write. Blocks of
    /// addresses come on top, up to two for each block of a short segment.
    pub fn filled_blocks(self) -> u64
        ensures { result ≡ filled_blocks self.passes self.memory_kib self.lanes }
    {
        self.passes as u64 * self.memory_blocks() as u64
    }
}
