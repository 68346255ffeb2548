//! A line of authorized_keys.

ghost use Rattle.std.specs.Prelude.{◌≡◌, ◌↔◌, ◌≤◌, IfErr, IfOk, IsSome, IsTrue, length, slice_index};
ghost use Rattle.sshkey_authorized_keys.specs.OpenSshEntries.{openssh_entry_of};
ghost use Rattle.sshkey_entries.specs.Entries.{hash_sign};
ghost use Rattle.sshkey_entries.specs.Fields.{without_blanks};
ghost use Rattle.sshkey_keys.specs.Keys.{key_of};
ghost use Rattle.sshkey_model.specs.Keys.{IsKey};
ghost use Rattle.sshkey_model.specs.Names.{algorithm_name, algorithms, named};
ghost use Rattle.sshkey_entries.specs.Answers.{Tells};
ghost use Rattle.login_terms.specs.Options.{terms_of};
ghost use Rattle.user_keys.specs.Judgements.{Judges, NamesInVain, joined};
ghost use Rattle.user_keys.specs.Lines.{BeginsWithName, HasName, IsEntryFor, IsFor, IsLaterName, IsNameFor, MayBeEntryFor, MayBeFor};
ghost use Rattle.user_keys.specs.Spellings.{AreMarks, HasMark, MaySpell, own_part};

use crate::answer::{Answer, Judgement};
use crate::login::UserLogin;
use crate::marks::{Marks, own_part};
use crate::options::read_terms;
use crate::place::lets_from;
use crate::refusal::Reason;
use crate::text::{before_first, skip_blanks};
use crate::time::counts_at;
use login_terms::{Reading, Terms};
use sshkey_authorized_keys::{Entry, OpenSshEntry, split_options};
use sshkey_base::Algorithm;
use sshkey_entries::laws::one_authorized_line;
use sshkey_entries::{is_short_name, split_blank};
use sshkey_keys::KeyData;
use std::alloc::{AllocError, Global};
use std::str;

/// What a line says that is for the key: as that of an authority, or of none. `Rejected` where it
/// is for others or for nobody, and `Unclear` where sshd(8) may take it for one of the key. The
/// marks are those of the key. Asks for no memory where none of them stands in the line.
pub(crate) fn terms_for(
    alloc: Global,
    line: &[u8],
    key: &KeyData,
    marks: &Marks,
    is_authority: bool,
) -> Result<Reading<Terms>, AllocError>
    requires part { 17 ≤ length (own_part (key_of key.now)) }
    requires marks { AreMarks (own_part (key_of key.now)) marks.now }
    ensures answer { IfOk result (Tells terms_of (IsFor is_authority (key_of key.now) line.now)
        (MayBeFor (key_of key.now) line.now)) }
    ensures asks { IfErr result (λ _. MaySpell (own_part (key_of key.now)) line.now) }
{
    if !marks.stand_in(line) {
        return Ok(Reading::Rejected);
    }
    // sshd(8) takes a line to end at a byte 0
    let line = before_first(line, 0);
    if is_comment(line) {
        return Ok(Reading::Rejected);
    }
    let Ok(text) = str::from_utf8(line) else {
        return Ok(unread(line, marks));
    };
    one_authorized_line();
    match Entry::from_line_openssh(alloc, text) {
        Ok(entry) => terms_of_entry(alloc, &entry, key, is_authority),
        Err(error) => {
            if error.is_memory() {
                return Err(AllocError);
            }
            Ok(unread_text(text, key, marks))
        }
    }
}

/// What a line of UTF-8 says that is no entry, nor a comment: sshd(8) may take it for one of the key
/// where a mark stands in it, and a name where sshd looks for a key.
fn unread_text(line: &str, key: &KeyData, marks: &Marks) -> Reading<Terms>
    ensures { Tells terms_of (λ _. ⊥) (HasMark marks.now line.now
        × HasName (key_of key.now) (without_blanks line.now)) result }
{
    if has_name(sshkey_entries::skip_blanks(line), key) {
        return unread(line.as_bytes(), marks);
    }
    Reading::Rejected
}

/// Whether a name stands where sshd(8) looks for a key: at the front of the text, or behind its
/// options.
fn has_name(text: &str, key: &KeyData) -> bool
    ensures { IsTrue result ↔ HasName (key_of key.now) text.now }
{
    if begins_with_name(text, key) {
        return true;
    }
    match split_options(text) {
        Some((_, rest)) => begins_with_name(sshkey_entries::skip_blanks(rest), key),
        None => false,
    }
}

fn begins_with_name(text: &str, key: &KeyData) -> bool
    ensures { IsTrue result ↔ BeginsWithName (key_of key.now) text.now }
{
    let (word, _) = split_blank(text);
    is_name_for(key, word)
}

/// Whether some version of OpenSSH takes the key, or one of another kind, to begin with the word.
fn is_name_for(key: &KeyData, word: &str) -> bool
    ensures { IsTrue result ↔ IsNameFor (key_of key.now) word.now }
{
    word == key.algorithm_name()
        || is_fixed_name(word)
        || is_later_name(word)
        || is_short_name(word)
}

fn is_fixed_name(word: &str) -> bool
    ensures { IsTrue result ↔ IsSome (named algorithm_name algorithms word.now) }
{
    Algorithm::from_fixed_name(word).is_some()
}

fn is_later_name(word: &str) -> bool
    ensures { IsTrue result ↔ IsLaterName word.now }
{
    word == "webauthn-sk-ecdsa-sha2-nistp256@openssh.com" || word == "ssh-mldsa44-ed25519"
}

/// What a line says that is no entry, nor a comment: sshd(8) may take it for one of the key where a
/// mark stands in it.
fn unread(line: &[u8], marks: &Marks) -> Reading<Terms>
    ensures { Tells terms_of (λ _. ⊥) (HasMark marks.now line.now) result }
{
    if marks.stand_in(line) {
        return Reading::Unclear;
    }
    Reading::Rejected
}

fn is_comment(line: &[u8]) -> bool
    ensures { IsTrue result ↔ (slice_index (without_blanks line.now) 0 ≡ hash_sign) }
{
    let filled = skip_blanks(line);
    !filled.is_empty() && filled[0] == b'#'
}

/// What an entry says that is for the key.
fn terms_of_entry(
    alloc: Global,
    entry: &OpenSshEntry,
    key: &KeyData,
    is_authority: bool,
) -> Result<Reading<Terms>, AllocError>
    requires { IsKey (openssh_entry_of entry.now).key }
    ensures { IfOk result (Tells terms_of
        (IsEntryFor is_authority (key_of key.now) (openssh_entry_of entry.now))
        (MayBeEntryFor (key_of key.now) (openssh_entry_of entry.now))) }
{
    let listed = entry.public_key().key_data();
    if !listed.is(key) {
        return Ok(other_terms(listed, key));
    }
    match read_terms(alloc, entry.options().as_str())? {
        Reading::Is(terms) => {
            if terms.is_authority != is_authority {
                return Ok(Reading::Rejected);
            }
            Ok(Reading::Is(terms))
        }
        Reading::Rejected => Ok(Reading::Rejected),
        Reading::Unclear => Ok(Reading::Unclear),
    }
}

/// What an entry of another key says: sshd(8) may take it for one of the key where both have the
/// same part.
fn other_terms(listed: &KeyData, key: &KeyData) -> Reading<Terms>
    ensures { Tells terms_of (λ _. ⊥)
        (own_part (key_of listed.now) ≡ own_part (key_of key.now)) result }
{
    if own_part(listed) == own_part(key) {
        return Reading::Unclear;
    }
    Reading::Rejected
}

/// What a line that says this says of the login.
pub(crate) fn judge(
    alloc: Global,
    terms: &Terms,
    login: &UserLogin,
) -> Result<Judgement, AllocError>
    ensures { IfOk result (Judges (terms_of terms.now) login.now.unix_timestamp login.now.client
        login.now.host) }
{
    let in_time = counts_at(terms.expires, login.unix_timestamp);
    let in_place = lets_from(alloc, &terms.from, login.client, login.host)?;
    Ok(joined(in_time, names_in_vain(terms), in_place))
}

/// Whether principals are named for a key that is no authority's.
fn names_in_vain(terms: &Terms) -> bool
    ensures { IsTrue result ↔ NamesInVain (terms_of terms.now) }
{
    !terms.is_authority && terms.principals.is_some()
}

/// What follows from whether the line counts at the time, whether it names principals in vain, and
/// whether it is for the place.
fn joined(in_time: Answer, in_vain: bool, in_place: Answer) -> Judgement
    ensures { result ≡ joined in_time in_vain in_place }
{
    match (in_time, in_vain, in_place) {
        (Answer::No, _, _) => Judgement::Refuses(Reason::Expired),
        (_, true, _) => Judgement::Refuses(Reason::MisplacedOption),
        (_, false, Answer::No) => Judgement::Refuses(Reason::Elsewhere),
        (Answer::Yes, false, Answer::Yes) => Judgement::Allows,
        (Answer::Unclear, false, _) | (_, false, Answer::Unclear) => Judgement::Unclear,
    }
}
