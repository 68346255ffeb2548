//! What options add to what is said.

ghost use Rattle.std.specs.Prelude.{ℕ, IfOk, List, Option, option_map, string_bytes};
ghost use Rattle.sshkey_entries.specs.Answers.{Tells};

use crate::reading::Reading;
use std::alloc::{AllocError, Global};

/// What options say that are read one after the other.
pub trait AddOptions: Drop + Sized {
    /// What is said.
    ghost Meaning: { Type 0 };

    /// What a value says.
    ghost means: { Self → Meaning };

    /// What an option of that name, with that value or none, adds to what is said.
    ghost Adds: { List ℕ → Option (List ℕ) → Meaning → Meaning → Type 0 };

    /// OpenSSH may read such an option, as what cannot be told.
    ghost MayBe: { List ℕ → Option (List ℕ) → Type 0 };

    /// What is said with one more option, of that name, and with that value or none.
    fn with(
        self,
        alloc: Global,
        name: &str,
        value: Option<String>,
    ) -> Result<Reading<Self>, AllocError>
        ensures { IfOk result (Tells means
            (Adds name.now (option_map string_bytes value) (means self))
            (MayBe name.now (option_map string_bytes value))) };
}
