//! How deep calls may go and how many steps a run may take: where nothing is asked for, and at most.

pub const DEFAULT_DEPTH: u64 = 1_000;

pub const MOST_DEPTH: u64 = 100_000;

pub const DEFAULT_STEPS: u64 = 1_000_000_000;

pub const MOST_STEPS: u64 = 4_611_686_018_427_387_904;
