//! Worked examples of what clients sign, and both sides of each edge.
#![tactic(auto, unfolding(sshkey_model::specs::Parts::flat))]

ghost use Rattle.sshkey_userauth.specs.Examples.{CurveNames, FlagPlaces, Flags, KeyForms, KeyNames, Methods, OtherNames, RsaNames, SecurityKeyNames, Verdicts};
ghost use Rattle.sshkey_userauth.specs.RequestExamples.{Asked, Credentials, Keyless, NameForms, Order, RequestParts};

/// The bytes of both methods; an empty host key is one.
pub fn methods()
    ensures { Methods }
{}

/// The names of RSA say the hash, and SHA-1 has none.
pub fn rsa_names()
    ensures { RsaNames }
{}

/// The names of other algorithms.
pub fn other_names()
    ensures { OtherNames }
{}

/// The names of ECDSA say the curve.
pub fn curve_names()
    ensures { CurveNames }
{}

/// The names of security keys, for keys and for certificates.
pub fn security_key_names()
    ensures { SecurityKeyNames }
{}

/// The names under which a key signs.
pub fn key_names()
    ensures { KeyNames }
{}

/// What the flags of a security key lack.
pub fn flags()
    ensures { Flags }
{}

/// Where the flags stand in a signature.
pub fn flag_places()
    ensures { FlagPlaces }
{}

/// The service, the name and the flags, in this order.
pub fn verdicts()
    ensures { Verdicts }
{}

/// The key in a request.
pub fn key_forms()
    ensures { KeyForms }
{}

/// The parts of requests.
pub fn request_parts()
    ensures { RequestParts }
{}

/// What follows the method's name.
pub fn credentials()
    ensures { Credentials }
{}

/// The two names of an algorithm.
pub fn name_forms()
    ensures { NameForms }
{}

/// What is told first.
pub fn order()
    ensures { Order }
{}

/// What a verifier is asked.
pub fn asked()
    ensures { Asked }
{}

/// Requests without a key.
pub fn keyless()
    ensures { Keyless }
{}
