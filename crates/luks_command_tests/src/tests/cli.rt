//! Whole runs of commands: over memory, over devices that move a few bytes a call or fail, and with
//! failing allocations. Each test is a table of rows; what the tables share is in `same`, `runs`,
//! `rows`, `devices`, `scarce` and `volume`.

mod bounds;
mod calls;
mod detached;
mod devices;
mod headers;
mod headers2;
mod honest;
mod modes;
mod passphrases;
mod read_ahead;
mod runs;
mod same;
mod scarce;
mod stripes;
mod tables;
mod truncated;
mod volume;
mod volumes2;
