//! What the tests share.

use ssh_key::Result;
use std::alloc::Global;
use std::fmt::{Debug, Display};
use std::hash::{DefaultHasher, Hash, Hasher};

/// The value is the one that is wanted. Both are let go of here, as values of a type parameter, and
/// not in the test.
pub(crate) fn is_wanted<T: PartialEq + Drop>(value: T, wanted: T) -> bool {
    value == wanted
}

/// The answer is this text.
pub(crate) fn is_text(answer: Result<String>, wanted: &str) -> bool {
    match answer {
        Ok(text) => text.as_str() == wanted,
        Err(_) => false,
    }
}

/// Whether the value that was answered equals the other, where one was.
pub(crate) fn is_equal<T: Eq + Drop>(answer: Result<T>, other: &T) -> Option<bool> {
    match answer {
        Ok(value) => Some(value == *other),
        Err(_) => None,
    }
}

/// The value is printed as this text.
pub(crate) fn shows<T: Display>(alloc: Global, value: &T, text: &str) -> bool {
    match value.to_string(alloc) {
        Ok(shown) => shown.as_str() == text,
        Err(_) => false,
    }
}

/// This text is what `{:?}` prints of the value.
pub(crate) fn is_debugged<T: Debug>(alloc: Global, value: &T, text: &str) -> bool {
    match format!(in alloc; "{value:?}") {
        Ok(shown) => shown.as_str() == text,
        Err(_) => false,
    }
}

/// The two are equal, and hashed alike.
pub(crate) fn are_alike<T: Eq + Hash>(one: &T, other: &T) -> bool {
    one == other && hash_of(one) == hash_of(other)
}

fn hash_of<T: Hash>(value: &T) -> u64 {
    let mut state = DefaultHasher::new();
    value.hash(&mut state);
    state.finish()
}
