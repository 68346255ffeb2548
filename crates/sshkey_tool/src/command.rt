//! What the program is asked for.

ghost use Rattle.std.specs.Prelude.{◌∷◌, []};

/// A row of the table of words.
#[derive(Clone, Copy, Debug)]
pub(crate) enum Command<'w> {
    /// Something about the key in a line.
    Key(KeyCommand<'w>),
    /// The fields of the certificate in a line, and whether it allows the principal, if one is
    /// wanted.
    Certificate(Option<&'w str>),
    /// Each entry of a file.
    Entries(EntryFile),
}

/// What a file holds entries of.
#[derive(Clone, Copy, Debug)]
pub(crate) enum EntryFile {
    /// Keys that may log in.
    AuthorizedKeys,
    /// Keys of hosts.
    KnownHosts,
}

/// What is shown of a key.
#[derive(Clone, Copy, Debug)]
pub(crate) enum KeyCommand<'w> {
    /// Its fingerprint.
    Fingerprint,
    /// Its fingerprint as a picture under that header.
    Art(&'w str),
    /// The line as it is written of the key and its comment.
    Normal,
}

impl<'w> Command<'w> {
    ghost use Rattle.sshkey_tool.specs.Table.{FindsCommand, texts};

    /// The command that these words are, if they are one.
    pub(crate) fn from_words(words: &[&'w str]) -> Option<Command<'w>>
        ensures { FindsCommand (texts words.now) result }
    {
        match words {
            [word] => Command::from_word(word),
            [word, text] => Command::from_word_and_text(word, text),
            _ => None,
        }
    }

    /// The command of that one word.
    fn from_word(word: &str) -> Option<Command<'w>>
        ensures { FindsCommand (word.now ∷ []) result }
    {
        match word {
            "fingerprint" => Some(Command::Key(KeyCommand::Fingerprint)),
            "normal" => Some(Command::Key(KeyCommand::Normal)),
            "cert" => Some(Command::Certificate(None)),
            "keys" => Some(Command::Entries(EntryFile::AuthorizedKeys)),
            "hosts" => Some(Command::Entries(EntryFile::KnownHosts)),
            _ => None,
        }
    }

    /// The command of that word and a header or a principal.
    fn from_word_and_text(word: &str, text: &'w str) -> Option<Command<'w>>
        ensures { FindsCommand (word.now ∷ text.now ∷ []) result }
    {
        match word {
            "art" => Some(Command::Key(KeyCommand::Art(text))),
            "cert" => Some(Command::Certificate(Some(text))),
            _ => None,
        }
    }
}
