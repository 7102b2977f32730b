/// The result of a step of the router.
#[derive(Clone, Copy, Debug, PartialEq, Eq)]
pub enum Progress {
    /// There was nothing to put.
    Idle,
    /// One put has succeeded.
    Moved,
    /// This lane is full, and nothing has changed.
    Blocked(u32),
}

/// A lane is full.
#[derive(Clone, Copy, Debug, PartialEq, Eq)]
pub struct Full;
