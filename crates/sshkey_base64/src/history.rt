//! What was written, as proofs see it.

ghost use Rattle.std.specs.Prelude.{◌≡◌, ◌++◌, [], List, ℕ};
ghost use Rattle.std.specs.Borrow.{ftrue};

use std::marker::Model;

/// All the bytes that were written to a writer that keeps only some of them.
///
/// It does not allocate and its methods do nothing when they run: only proofs read it.
#[derive(Drop)]
pub(crate) struct History {
    ghost bytes: { List ℕ },
}

impl Model for History {
    ghost also_owns = { λ _. ftrue };
}

/// Bytes that are written.
#[derive(Clone, Copy, Drop)]
pub(crate) struct Piece<'a> {
    pub bytes: &'a [u8],
}

impl History {
    /// Nothing was written.
    pub(crate) fn new() -> History
        ensures { result.bytes ≡ [] }
    {
        History {}
    }

    /// The same, and then these bytes.
    pub(crate) fn and(&self, _piece: &Piece<'_>) -> History
        ensures { result.bytes ≡ self.now.bytes ++ _piece.now.bytes.now }
    {
        History {}
    }
}
