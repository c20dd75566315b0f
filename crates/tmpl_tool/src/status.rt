//! The exit status.

/// The exit status of the command.
#[derive(Clone, Copy, Debug, PartialEq, Eq)]
pub struct Status {
    /// 0: done, or help asked for. 1: the run failed. 2: words refused. 3: a file missing or not read.
    /// 4: a template file refused, or no template of the name. 5: data refused. 6: a write failed.
    /// 7: out of memory.
    pub code: u8,
}
