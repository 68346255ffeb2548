//! Texts, one after the other.

ghost use Rattle.std.specs.Prelude.{◌≡◌, ℕ, List, true};
ghost use Rattle.std.specs.Iterator.{YieldsFirstRef, item_count};
ghost use Rattle.sshkey_model.specs.Texts.{text_list_at};
ghost use Rattle.sshkey_terms.specs.Slices.{is_taken};
ghost use Rattle.sshkey_cert_ref.specs.Lists.{texts_in};

use super::{PrincipalsRef, first_text};
use std::marker::Model;
use std::str;

/// The texts of a `PrincipalsRef`, each as a part of its bytes. Each call asks anew whether the
/// bytes of one text are UTF-8.
///
/// Contracts see the list of those that are left.
#[derive(Debug, Clone, Drop)]
pub struct Principals<'a> {
    rest: &'a [u8],
}

impl<'a> Model for Principals<'a> {
    ghost Value = { List (List ℕ) };

    ghost view = { λ s. texts_in s.rest.now };

    ghost invariant = { λ s. is_taken (text_list_at s.rest.now) ≡ true };
}

impl<'a> Principals<'a> {
    /// The texts in the bytes.
    pub(super) fn new(rest: &'a [u8]) -> Principals<'a>
        requires { is_taken (text_list_at rest.now) ≡ true }
        ensures { result ≡ texts_in rest.now }
    {
        Principals { rest }
    }
}

impl<'a> Iterator for Principals<'a> {
    type Item = &'a str;

    ghost next_gives = { YieldsFirstRef (λ left. left) };

    ghost remaining = { item_count (λ left. left) };

    fn next(&mut self) -> Option<&'a str> {
        if self.rest.is_empty() {
            return None;
        }
        let (text, rest) = first_text(self.rest);
        self.rest = rest;
        match str::from_utf8(text) {
            Ok(text) => Some(text),
            Err(_) => unreachable!(),
        }
    }
}

/// The texts, in their order, so that a `for` takes the list as it is.
impl<'a> IntoIterator for PrincipalsRef<'a> {
    ghost use Rattle.sshkey_cert_ref.specs.Views.{texts_of};

    type Item = &'a str;

    type IntoIter = Principals<'a>;

    ghost into_iter_gives = { λ texts left. left ≡ texts_of texts };

    fn into_iter(self) -> Principals<'a> {
        self.iter()
    }
}

/// The same texts of a list after a reference.
impl<'a> IntoIterator for &PrincipalsRef<'a> {
    ghost use Rattle.sshkey_cert_ref.specs.Views.{texts_of};

    type Item = &'a str;

    type IntoIter = Principals<'a>;

    ghost into_iter_gives = { λ texts left. left ≡ texts_of texts.now };

    fn into_iter(self) -> Principals<'a> {
        (*self).into_iter()
    }
}
