//! Options, one after the other.

ghost use Rattle.std.specs.Prelude.{◌≡◌, List, true};
ghost use Rattle.std.specs.Iterator.{YieldsFirstBy, item_count};
ghost use Rattle.sshkey_model.specs.Options.{CertificateOption, option_at};
ghost use Rattle.sshkey_model.specs.Reading.{list_whole};
ghost use Rattle.sshkey_cert_ref.specs.Lists.{option_of, options_in};
ghost use Rattle.sshkey_terms.specs.Slices.{is_taken};

use super::{CertificateOptionsRef, first_option};
use std::marker::Model;

/// The options of a `CertificateOptionsRef`, each a name and a value, as parts of its bytes. An
/// empty value is the empty text, in whichever way it stands there. Each call asks anew whether the
/// bytes of one name and one value are UTF-8.
///
/// Contracts see the list of those that are left.
#[derive(Debug, Clone, Drop)]
pub struct CertificateOptions<'a> {
    rest: &'a [u8],
}

impl<'a> Model for CertificateOptions<'a> {
    ghost Value = { List CertificateOption };

    ghost view = { λ s. options_in s.rest.now };

    ghost invariant = { λ s. is_taken (list_whole option_at s.rest.now) ≡ true };
}

impl<'a> CertificateOptions<'a> {
    /// The options in the bytes.
    pub(super) fn new(rest: &'a [u8]) -> CertificateOptions<'a>
        requires { is_taken (list_whole option_at rest.now) ≡ true }
        ensures { result ≡ options_in rest.now }
    {
        CertificateOptions { rest }
    }
}

impl<'a> Iterator for CertificateOptions<'a> {
    type Item = (&'a str, &'a str);

    ghost next_gives = { YieldsFirstBy option_of (λ left. left) };

    ghost remaining = { item_count (λ left. left) };

    fn next(&mut self) -> Option<(&'a str, &'a str)> {
        if self.rest.is_empty() {
            return None;
        }
        let (option, rest) = first_option(self.rest);
        self.rest = rest;
        Some((option.name, option.value))
    }
}

/// The names and values of the options, in the order of the names, so that a `for` takes the list
/// as it is.
impl<'a> IntoIterator for CertificateOptionsRef<'a> {
    ghost use Rattle.sshkey_model.specs.Options.{AreOptions};
    ghost use Rattle.sshkey_cert_ref.specs.Views.{options_of};

    type Item = (&'a str, &'a str);

    type IntoIter = CertificateOptions<'a>;

    ghost into_iter_gives = { λ options left. (left ≡ options_of options) × AreOptions left };

    fn into_iter(self) -> CertificateOptions<'a> {
        self.iter()
    }
}

/// The same options of a list after a reference.
impl<'a> IntoIterator for &CertificateOptionsRef<'a> {
    ghost use Rattle.sshkey_model.specs.Options.{AreOptions};
    ghost use Rattle.sshkey_cert_ref.specs.Views.{options_of};

    type Item = (&'a str, &'a str);

    type IntoIter = CertificateOptions<'a>;

    ghost into_iter_gives = { λ options left. (left ≡ options_of options.now) × AreOptions left };

    fn into_iter(self) -> CertificateOptions<'a> {
        (*self).into_iter()
    }
}
