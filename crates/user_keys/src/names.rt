//! The names that a certificate lists.

ghost use Rattle.std.specs.List.{list_any};
ghost use Rattle.std.specs.Prelude.{◌≡◌, IfSome, None, bytes_eq, false, map, option_map, position, string_bytes};
ghost use Rattle.sshkey_matching.specs.SourceAddresses.{SplitsPiece, pieces};
ghost use Rattle.user_keys.specs.Certificates.{first_listed, name_listed};

/// Whom a certificate with these names lets in as the user: the user, if it lists that name; or,
/// where the line has `principals`, the first of these that it lists. Does not allocate.
pub fn name_listed<'a>(
    listed: &[String],
    user: &'a str,
    principals: &'a Option<String>,
) -> Option<&'a str>
    ensures { option_map (λ n. n.now) result ≡ name_listed (map string_bytes listed.now) user.now
        (option_map string_bytes principals.now) }
{
    match principals {
        Some(list) => first_listed(listed, list.as_str()),
        None => if is_listed(listed, user.as_bytes()) {
            Some(user)
        } else {
            None
        },
    }
}

/// The first name of a list that is listed, up to an empty one, where sshd(8) ends the list.
fn first_listed<'a>(listed: &[String], list: &'a str) -> Option<&'a str>
    ensures { option_map (λ n. n.now) result
        ≡ first_listed (map string_bytes listed.now) (pieces list.now) }
{
    let mut rest = list;
    'names: loop {
        let (name, more) = split_name(rest);
        if name.is_empty() {
            return None;
        }
        if is_listed(listed, name.as_bytes()) {
            return Some(name);
        }
        let Some(next) = more else {
            return None;
        };
        rest = next;
    }
}

/// A list up to its first comma, or all of it, and what follows that comma.
fn split_name(list: &str) -> (&str, Option<&str>)
    ensures { SplitsPiece list.now result.0.now result.1 }
{
    match list.split_once(',') {
        Some((name, rest)) => (name, Some(rest)),
        None => (list, None),
    }
}

/// Whether the name is among those that are listed.
pub(crate) fn is_listed(listed: &[String], name: &[u8]) -> bool
    ensures { result ≡ list_any (λ other. bytes_eq name.now (string_bytes other)) listed.now }
{
    listed.iter().any(|other| name == other.as_bytes())
}

/// The name as text, if it is among those that are listed.
pub(crate) fn listed_as<'a>(listed: &'a [String], name: &[u8]) -> Option<&'a str>
    ensures found { IfSome result (λ n. n.now ≡ name.now) }
    ensures none { result ≡ None
        → list_any (λ other. bytes_eq name.now (string_bytes other)) listed.now ≡ false }
{
    match place_in(listed, name) {
        Some(place) => Some(listed[place].as_str()),
        None => None,
    }
}

fn place_in(listed: &[String], name: &[u8]) -> Option<usize>
    ensures { result
        ≡ position (λ other. bytes_eq name.now (string_bytes other)) listed.now }
{
    listed.iter().position(|other| name == other.as_bytes())
}
