//! What holds of all that an authority gives.

ghost use Rattle.std.specs.Prelude.{ℕ, List, ◌++◌, ◌<◌, length, slice_index};
ghost use Rattle.authority.specs.Issuance.{IsHistory};

/// The histories of calls that follow one another are one history, and in a history each serial
/// number is above those before it: no two certificates have one. None of them is 0 if the first is
/// not.
pub fn serials()
    ensures joined { (from between to : ℕ) (first then : List ℕ) → IsHistory from first between →
        IsHistory between then to → IsHistory from (first ++ then) to }
    ensures rising { (from to : ℕ) (given : List ℕ) → IsHistory from given to → (i j : ℕ) → i < j →
        j < length given → slice_index given i < slice_index given j }
    ensures positive { (from to : ℕ) (given : List ℕ) → 0 < from → IsHistory from given to → (i : ℕ)
        → i < length given → 0 < slice_index given i }
{}
