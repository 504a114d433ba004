//! The limits of a scenario. Those of one line are in `auc_reading`.

/// How many vectors the lines of a scenario may ask for together.
pub const MAX_VECTORS: u32 = 1000000;
/// How many rounds a scenario may have.
pub const MAX_ROUNDS: usize = 1000;
/// How many jobs a scenario may have.
pub const MAX_JOBS: usize = 200000;
/// How many sessions a scenario may have.
pub const MAX_SESSIONS: usize = 100000;
/// How many packets a `plain` line counts for.
pub const PACKETS_OF_PLAIN: u32 = 40;
/// How many packets the lines of a job may count for together.
pub const MAX_PACKETS: u32 = 1000000;
/// How many threads may serve a round.
pub const MAX_WORKERS: u64 = 64;
/// How many bytes a realm may have.
pub const MAX_REALM: usize = 255;
