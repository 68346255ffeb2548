//! Times in texts.

/// The first and the last second since 1970 that a time may mean: the same one if it names its
/// zone.
#[repr(C)]
#[derive(Clone, Copy, Debug)]
pub struct TimeSpan {
    /// The first second; at least 1.
    pub first: u64,
    /// The last second.
    pub last: u64,
}
