//! How a line spells a whole login.

use crate::verified::Told;
use crate::words::{NO_LINE, bytes, fingerprints, host_name, least_bits, number, text};
use login_policy::Client;
use publickey_login::{Offer, Place, Principals, Signed, Text, Trusted};
use ssh_key::{Fingerprint, Result};
use sshkey_userauth::Requirements;
use std::alloc::Global;
use std::net::IpAddr;

/// The word for what is not there.
const NONE: &str = "-";
/// The word for a text that could not be read.
const UNREADABLE: &str = "!";

/// What a line asks about.
#[derive(Drop)]
pub(crate) struct Request {
    user: String,
    algorithm: Option<Vec<u8>>,
    blob: Vec<u8>,
    seen: Seen,
    /// Whom the server trusts.
    pub server: Server,
    unix_timestamp: u64,
    client: Client,
    host: Option<String>,
    /// The authority's signature that another program has verified.
    pub authority: Told,
    /// The client's.
    pub signature: Told,
}

/// Whom a server trusts.
#[derive(Drop)]
pub(crate) struct Server {
    /// `AuthorizedKeysFile`; a text that could not be read is `None`.
    pub keys: Vec<Option<Vec<u8>>>,
    authorities: Vec<Fingerprint>,
    /// `AuthorizedPrincipalsFile`, where it is configured.
    pub principals: Option<Vec<Option<Vec<u8>>>>,
    /// `AuthorizedKeysCommand`.
    pub command: Vec<Option<Vec<u8>>>,
    /// The bytes of a file of what is revoked.
    pub revoked: Vec<u8>,
    least_rsa_bits: u32,
    requirements: Requirements,
}

/// Who has seen the client's signature.
#[derive(Drop)]
enum Seen {
    Request(Vec<u8>, Option<Vec<u8>>, Vec<u8>),
    ByTransport(Option<u8>),
    BySshd,
}

impl Request {
    /// Reads the words of a line after the first.
    pub(crate) fn read(alloc: Global, words: &[&str]) -> Result<Request> {
        let [
            user,
            algorithm,
            blob,
            seen,
            session_id,
            host_key,
            signature,
            server @ ..,
            second,
            client,
            host,
            authority,
            told,
        ] = words
        else {
            return Err(NO_LINE);
        };
        Ok(Request {
            user: text(alloc, user)?,
            algorithm: optional(alloc, algorithm)?,
            blob: bytes(alloc, blob)?,
            seen: read_seen(alloc, seen, session_id, host_key, signature)?,
            server: Server::read(alloc, server)?,
            unix_timestamp: number(second)?,
            client: read_client(client)?,
            host: host_name(alloc, host)?,
            authority: Told::read(alloc, authority)?,
            signature: Told::read(alloc, told)?,
        })
    }

    /// What is offered.
    pub(crate) fn offer(&self) -> Offer<'_> {
        Offer {
            user: &self.user,
            algorithm: self.algorithm.as_deref(),
            blob: &self.blob,
        }
    }

    /// Who has seen the signature.
    pub(crate) fn signed(&self) -> Signed<'_> {
        match &self.seen {
            Seen::Request(session_id, host_key, signature) => Signed::Request {
                session_id,
                host_key: host_key.as_deref(),
                signature,
            },
            Seen::ByTransport(flags) => Signed::ByTransport { flags: *flags },
            Seen::BySshd => Signed::BySshd,
        }
    }

    /// Where the client is.
    pub(crate) fn place(&self) -> Place<'_> {
        Place {
            client: self.client,
            host: self.host.as_deref(),
            unix_timestamp: self.unix_timestamp,
        }
    }
}

impl Server {
    fn read(alloc: Global, words: &[&str]) -> Result<Server> {
        let [
            keys,
            authorities,
            principals,
            command,
            revoked,
            least_rsa_bits,
            requirements,
        ] = words
        else {
            return Err(NO_LINE);
        };
        Ok(Server {
            keys: texts(alloc, keys)?,
            authorities: fingerprints(alloc, authorities)?,
            principals: principals_of(alloc, principals)?,
            command: texts(alloc, command)?,
            revoked: bytes(alloc, revoked)?,
            least_rsa_bits: least_bits(least_rsa_bits)?,
            requirements: Requirements {
                touch_required: requirements.starts_with('t'),
                verify_required: requirements.ends_with('v'),
            },
        })
    }

    /// What it trusts, with these lists of texts.
    pub(crate) fn trusted<'a>(
        &'a self,
        keys: &'a [Text<'a>],
        principals: Principals<'a>,
        command: &'a [Text<'a>],
    ) -> Trusted<'a> {
        Trusted {
            authorized_keys: keys,
            authorities: &self.authorities,
            principals,
            command_keys: command,
            least_rsa_bits: self.least_rsa_bits,
            requirements: self.requirements,
        }
    }
}

/// The texts as `publickey_login` takes them.
pub(crate) fn lent<'a>(alloc: Global, texts: &'a [Option<Vec<u8>>]) -> Result<Vec<Text<'a>>> {
    let mut found = Vec::new(alloc);
    for text in texts {
        found.push(match text {
            Some(text) => Text::Read(text),
            None => Text::Unreadable,
        })?;
    }
    Ok(found)
}

/// The bytes that the digits spell, if there are any.
fn optional(alloc: Global, word: &str) -> Result<Option<Vec<u8>>> {
    if word == NONE {
        return Ok(None);
    }
    Ok(Some(bytes(alloc, word)?))
}

/// A word for who has seen the signature, and what belongs to it.
fn read_seen(
    alloc: Global,
    seen: &str,
    session_id: &str,
    host_key: &str,
    signature: &str,
) -> Result<Seen> {
    match seen {
        "request" => Ok(Seen::Request(
            bytes(alloc, session_id)?,
            optional(alloc, host_key)?,
            bytes(alloc, signature)?,
        )),
        "transport" => Ok(Seen::ByTransport(None)),
        "sshd" => Ok(Seen::BySshd),
        flags => Ok(Seen::ByTransport(Some(flags.parse::<u8>().map_err(|_| NO_LINE)?))),
    }
}

/// Texts in hexadecimal digits, with commas between.
fn texts(alloc: Global, words: &str) -> Result<Vec<Option<Vec<u8>>>> {
    let mut found = Vec::new(alloc);
    if words == NONE {
        return Ok(found);
    }
    for word in words.split(',') {
        if word == UNREADABLE {
            found.push(None)?;
        } else {
            found.push(Some(bytes(alloc, word)?))?;
        }
    }
    Ok(found)
}

/// The texts of principals, or the word for the names that a certificate lists.
fn principals_of(alloc: Global, words: &str) -> Result<Option<Vec<Option<Vec<u8>>>>> {
    if words == "certificate" {
        return Ok(None);
    }
    Ok(Some(texts(alloc, words)?))
}

/// An address, or a word for one that is not known, or that sshd judges.
fn read_client(word: &str) -> Result<Client> {
    match word {
        NONE => Ok(Client::Unknown),
        "sshd" => Ok(Client::LeftToCaller),
        _ => Ok(Client::At(word.parse::<IpAddr>().map_err(|_| NO_LINE)?)),
    }
}
