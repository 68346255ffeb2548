//! Asks about a whole login.

use crate::requests::{Request, lent};
use publickey_login::{
    Answers, Place, Principals, PublickeyGrant, PublickeyRefusal, Signed, Trusted, client_known,
    pending,
};
use ssh_key::Result;
use ssh_key::revocation::RevokedKeys;
use std::alloc::Global;

/// What is said of a login.
#[derive(Drop)]
pub(crate) struct Verdict {
    /// Whether the query without a signature is answered with yes.
    pub is_offered: bool,
    /// Whether the authority's signature is asked about.
    pub asks_authority: bool,
    /// Whether the client's is.
    pub asks_client: bool,
    /// What is granted.
    pub decision: std::result::Result<PublickeyGrant, PublickeyRefusal>,
}

/// What is said of the login that the words ask about. Fails where they are no question.
pub(crate) fn decide(alloc: Global, words: &[&str]) -> Result<Verdict> {
    let request = Request::read(alloc, words)?;
    let server = &request.server;
    let keys = lent(alloc, &server.keys)?;
    let command = lent(alloc, &server.command)?;
    match &server.principals {
        Some(texts) => {
            let texts = lent(alloc, texts)?;
            let principals = Principals::Files(&texts);
            let trusted = server.trusted(&keys, principals, &command);
            Ok(said(alloc, &request, &trusted))
        }
        None => {
            let trusted = server.trusted(&keys, Principals::InCertificate, &command);
            Ok(said(alloc, &request, &trusted))
        }
    }
}

/// What is said where the server trusts these.
fn said(alloc: Global, request: &Request, trusted: &Trusted) -> Verdict {
    let offer = request.offer();
    let place = request.place();
    let revoked = RevokedKeys::from_bytes(alloc, &request.server.revoked);
    let unsigned = Place {
        client: client_known(place.client),
        ..place
    };
    let is_offered = match pending(alloc, &offer, &Signed::BySshd, trusted, &unsigned, &revoked) {
        Ok(held) => {
            let answers = Answers {
                authority: request.authority.accepts(held.authority_question()),
                client: false,
            };
            held.decide(answers).is_ok()
        }
        Err(_) => false,
    };
    let held = match pending(alloc, &offer, &request.signed(), trusted, &place, &revoked) {
        Ok(held) => held,
        Err(refusal) => {
            return Verdict {
                is_offered,
                asks_authority: false,
                asks_client: false,
                decision: Err(refusal),
            };
        }
    };
    let answers = Answers {
        authority: request.authority.accepts(held.authority_question()),
        client: request.signature.accepts(held.client_question()),
    };
    Verdict {
        is_offered,
        asks_authority: held.authority_question().is_some(),
        asks_client: held.client_question().is_some(),
        decision: held.decide(answers),
    }
}
