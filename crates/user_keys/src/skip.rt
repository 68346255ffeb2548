//! The lines at the front of a text in which a key is not spelled.

ghost use Rattle.std.specs.List.{count_by};
ghost use Rattle.std.specs.Prelude.{◌≡◌, ◌<◌, ◌≤◌, IfSome, length};
ghost use Rattle.user_keys.specs.Principals.{is_feed};
ghost use Rattle.user_keys.specs.Spellings.{SkipsLines};

use crate::marks::Marks;
use memchr::memrchr;

/// How many bytes are searched at once.
const BLOCK: usize = 1 << 16;

/// In how many bytes line feeds are counted at once.
const CHUNK: usize = 128;

/// How many lines at the front of the text have none of the marks, as far as that is found without a
/// look at each line, and what follows them.
pub(crate) fn skip_lines<'a>(text: &'a [u8], marks: &Marks) -> (usize, &'a [u8])
    ensures { SkipsLines marks.now text.now result.0 result.1.now }
{
    let mut count = 0;
    let mut rest = text;
    while let Some((lines, after)) = skip_block(rest, marks) {
        count += lines;
        rest = after;
    }
    (count, rest)
}

/// The same of the first bytes alone; nothing where none of these lines ends there.
fn skip_block<'a>(text: &'a [u8], marks: &Marks) -> Option<(usize, &'a [u8])>
    ensures skips { IfSome result (λ x. SkipsLines marks.now text.now x.0 x.1.now) }
    ensures shorter { IfSome result (λ x. length x.1.now < length text.now) }
{
    let block = &text[..text.len().min(BLOCK)];
    let front = &block[..marks.unmarked_front(block)];
    match memrchr(b'\n', front) {
        Some(end) => {
            let count = count_feeds(&front[..end]);
            Some((count + 1, &text[end + 1..]))
        }
        None => None,
    }
}

/// How many line feeds a text has, of which short parts are counted by many bytes at once.
fn count_feeds(text: &[u8]) -> usize
    ensures { result ≡ count_by is_feed text.now }
{
    let mut count = 0;
    let mut rest = text;
    while CHUNK < rest.len() {
        count += count_few(&rest[..CHUNK]) as usize;
        rest = &rest[CHUNK..];
    }
    count + count_few(rest) as usize
}

fn count_few(text: &[u8]) -> u8
    requires { length text.now ≤ 128 }
    ensures { result ≡ count_by is_feed text.now }
{
    let mut count = 0;
    for byte in text {
        if *byte == b'\n' {
            count += 1;
        }
    }
    count
}
