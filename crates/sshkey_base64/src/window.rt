//! A part of what is written.

ghost use Rattle.std.specs.Prelude.{◌≡◌, ◌-◌, ◌≤◌, ◌∷◌, [], None, length, take, drop};

use crate::history::{History, Piece};
use sshkey_base::Writer;
use sshkey_base::encoding::Result;

/// How many bytes a window has room for, in whole groups of three.
pub(crate) const ROOM: usize = 3072;

/// The bytes from one place on, as many as there is room for, of all that is written.
///
/// It passes over the others at once, and rejects nothing.
#[derive(Drop)]
pub(crate) struct Window {
    start: usize,
    before: usize,
    kept: [u8; ROOM],
    len: usize,
    history: History,
    ghost size: { length kept ≡ 3072 },
    ghost room: { len ≤ length kept },
    ghost place: { before ≡ start - length history.bytes },
    ghost part: { take len kept ≡ take (length kept) (drop start history.bytes) },
}

impl Window {
    /// A window that begins after `start` bytes. Nothing is written yet.
    pub(crate) fn new(start: usize) -> Window
        ensures start { result.start ≡ start }
        ensures empty { result.history.bytes ≡ [] }
    {
        Window {
            start,
            before: start,
            kept: [0; ROOM],
            len: 0,
            history: History::new(),
        }
    }

    /// The bytes that are kept.
    pub(crate) fn bytes(&self) -> &[u8]
        ensures { result.now ≡ take 3072 (drop self.now.start self.now.history.bytes) }
    {
        &self.kept[..self.len]
    }
}

/// What was written, after the number of the place where the window begins: so whoever lends the
/// window knows afterwards that it still begins there.
impl Writer for Window {
    ghost sink = { λ w. record { written = w.start ∷ w.history.bytes; limit = None } };

    ghost fault = { λ _. ⊥ };

    fn write(&mut self, bytes: &[u8]) -> Result<()> {
        let passed = self.before.min(bytes.len());
        let count = (bytes.len() - passed).min(ROOM - self.len);
        let end = self.len + count;
        let history = self.history.and(&Piece { bytes });
        self.kept[self.len..end].copy_from_slice(&bytes[passed..passed + count]);
        self.len = end;
        self.before -= passed;
        self.history = history;
        Ok(())
    }
}
