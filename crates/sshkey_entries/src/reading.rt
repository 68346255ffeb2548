//! What a value is read as.

/// What OpenSSH does with a value, as far as it can be told here.
#[derive(Drop)]
pub enum Reading<T: Drop> {
    /// It reads this.
    Is(T),
    /// It rejects it.
    Rejected,
    /// It may read it, and as what depends on its version or on its machine.
    Unclear,
}
