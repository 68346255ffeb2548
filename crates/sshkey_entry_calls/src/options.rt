//! The options of an entry of authorized_keys, one after the other.

ghost use Rattle.std.specs.Prelude.{◌≡◌, ◌<◌, IfOk, length, not, position};
ghost use Rattle.sshkey_authorized_keys.specs.Options.{key_option_of};
ghost use Rattle.sshkey_entries.specs.Items.{is_comma};
ghost use Rattle.sshkey_entries.specs.Fields.{is_plain_quote};
ghost use Rattle.sshkey_entries.specs.OptionItems.{without_commas};
ghost use Rattle.sshkey_calls.specs.Rooms.{IsLaidOut};
ghost use Rattle.sshkey_entry_calls.specs.Options.{ArePlaced, EndsAt, FindsFirst, TellsOption, option_bytes};

use sshkey_authorized_keys::{OpenSshOption, OpenSshOptionsIter};
use sshkey_base::Result;
use sshkey_calls::number::FORMAT;
use sshkey_calls::part::{self, Part, add};
use std::alloc::Global;

/// Where the name and the value of an option are in the room that was given.
#[repr(C)]
#[derive(Clone, Copy, Debug)]
pub struct OptionParts {
    /// The name as it is in the line; whether letters are small says nothing.
    pub name: Part,
    /// The value, without its quotes and without each backslash before a quote; empty where there
    /// is none.
    pub value: Part,
    /// How many bytes of the room these take.
    pub length: usize,
    /// The place of the next option, before its comma.
    pub next: usize,
    /// 0 where there is no `=`, and else 1.
    pub has_value: u32,
}

/// Answers with the option that a text begins with, and with that place of the next one.
pub fn tell_option(
    alloc: Global,
    text: &str,
    next: usize,
    room: &mut [u8],
    answer: &mut OptionParts,
) -> u32
    ensures { TellsOption text.now next result answer.old answer.new room.old room.new }
{
    match first_option(text) {
        Some(option) => part::answer_with(lay_out_option(alloc, &option, next), room, answer),
        None => FORMAT,
    }
}

/// The option that a text begins with, after commas.
fn first_option(text: &str) -> Option<OpenSshOption<'_>>
    ensures { FindsFirst text.now result }
{
    OpenSshOptionsIter::new(text).next()?.ok()
}

fn other_place(bytes: &[u8]) -> Option<usize>
    ensures { result ≡ position (λ c. not (is_comma c)) bytes.now }
{
    bytes.iter().position(|byte| *byte != b',')
}

/// The bytes without the commas at their front.
pub fn skip_commas(bytes: &[u8]) -> &[u8]
    ensures { result.now ≡ without_commas bytes.now }
{
    match other_place(bytes) {
        Some(start) => &bytes[start..],
        None => &[],
    }
}

/// Whether a quote stands at the place, with no backslash before it.
fn is_plain_quote(bytes: &[u8], place: usize) -> bool
    requires { place < length bytes.now }
    ensures { result ≡ is_plain_quote bytes.now place }
{
    bytes[place] == b'"' && !(place > 0 && bytes[place - 1] == b'\\')
}

/// Where the option at the front ends: at the first comma outside quotes, or with the bytes.
pub fn option_end(bytes: &[u8]) -> usize
    ensures { EndsAt bytes.now result }
{
    let mut is_inside = false;
    for place in 0..bytes.len() {
        if bytes[place] == b',' && !is_inside {
            return place;
        }
        if is_plain_quote(bytes, place) {
            is_inside = !is_inside;
        }
    }
    bytes.len()
}

/// The bytes of an option's parts, one after the other, and where they are.
fn lay_out_option(
    alloc: Global,
    option: &OpenSshOption<'_>,
    next: usize,
) -> Result<(Vec<u8>, OptionParts)>
    ensures { IfOk result (λ laid. IsLaidOut option_bytes (ArePlaced next)
        (key_option_of option.now) laid.0.items laid.1) }
{
    let mut content = Vec::new(alloc);
    let name = add(option.name().as_bytes(), &mut content)?;
    let (value, has_value) = match option.value(alloc)? {
        Some(text) => (add(text.as_str().as_bytes(), &mut content)?, 1),
        None => (add(&[], &mut content)?, 0),
    };
    let length = content.len();
    Ok((
        content,
        OptionParts {
            name,
            value,
            length,
            next,
            has_value,
        },
    ))
}
