//! A login by public key that is asked for.

ghost use Rattle.std.specs.Prelude.{◌≡◌, option_map};
ghost use Rattle.publickey_login.specs.Values.{signed_of};
ghost use Rattle.sshkey_userauth.specs.Values.{lent};
ghost use Rattle.sshkey_c.specs.Logins.{IsClientOf, bound_key, named_algorithm, requirements_in, signed_in};

use login_policy::Client;
use publickey_login::Signed;
use sshkey_calls::Sha256Digest;
use sshkey_entry_calls::address_of;
use sshkey_userauth::Requirements;

/// What a client offers (`publickey_login::Offer`).
#[repr(C)]
#[derive(Clone, Copy, Debug)]
pub struct OfferParts<'a> {
    /// The name of the user to log in as, a text.
    pub user: &'a [u8],
    /// The name of the algorithm, as the request has it. Of no bytes where it is not told.
    pub algorithm: &'a [u8],
    /// The blob of a key or of a certificate, as it was sent.
    pub blob: &'a [u8],
}

/// The client's signature is asked about here.
const BY_REQUEST: u32 = 1;
/// The caller's library for SSH has verified it, and tells no flags.
const BY_TRANSPORT: u32 = 2;
/// It has, and tells them.
const WITH_FLAGS: u32 = 3;
/// sshd(8) verifies it, and looks at its flags.
const BY_SSHD: u32 = 4;

/// Who has seen the client's signature (`publickey_login::Signed`).
#[repr(C)]
#[derive(Clone, Copy, Debug)]
pub struct SignedParts<'a> {
    /// The identifier of the session: the server's own, and nothing that the client sent.
    pub session_id: &'a [u8],
    /// The blob of the server's own host key, where `has_host_key` is not 0.
    pub host_key: &'a [u8],
    /// The blob of the client's signature (RFC 4253, section 6.6).
    pub signature: &'a [u8],
    /// 1 where it is asked about here, 2 where the caller's library for SSH has verified it, 3
    /// where that tells its flags, 4 where sshd(8) verifies it. With any other number nobody has,
    /// and nobody is let in.
    pub how: u32,
    /// 0 where the method is `publickey`; else it is `publickey-hostbound-v00@openssh.com`.
    pub has_host_key: u32,
    /// The flags in the signature of a security key, where `how` is 3.
    pub flags: u8,
}

/// The text of a file (`publickey_login::Text`).
#[repr(C)]
#[derive(Clone, Copy, Debug)]
pub struct TextParts<'a> {
    /// What stands in it.
    pub text: &'a [u8],
    /// 1 where it was read, or is not there. With any other number it could not be read.
    pub is_read: u32,
}

/// Whom a server trusts, in the order in which sshd(8) asks (`publickey_login::Trusted`).
#[repr(C)]
#[derive(Clone, Copy, Debug)]
pub struct TrustedParts<'a> {
    /// `AuthorizedKeysFile`.
    pub authorized_keys: &'a [TextParts<'a>],
    /// `TrustedUserCAKeys`: the SHA-256 fingerprints of the keys.
    pub authorities: &'a [Sha256Digest],
    /// `AuthorizedPrincipalsFile`, where `principals_from` is 2.
    pub principals: &'a [TextParts<'a>],
    /// `AuthorizedKeysCommand`: what it wrote, if it ended with 0.
    pub command_keys: &'a [TextParts<'a>],
    /// Revocation files (`sshkey_entry_calls::RevocationFiles`): any of them revokes, and without
    /// one everything is revoked.
    pub revoked: &'a [&'a [u8]],
    /// 1 where an authority lets in the users that the certificate lists, 2 where it lets in those
    /// for whom `principals` have one of its names. With any other number nobody is let in.
    pub principals_from: u32,
    /// How many bits an RSA key has at least (`publickey_login::Trusted::least_rsa_bits`).
    pub least_rsa_bits: u32,
    /// Not 0 where each security key has to be touched.
    pub requires_touch: u32,
    /// Not 0 where each security key has to verify its user.
    pub requires_verification: u32,
}

/// Where a client is, and when it asks (`publickey_login::Place`).
#[repr(C)]
#[derive(Clone, Copy, Debug)]
pub struct PlaceParts<'a> {
    /// The address of the client's socket, 4 or 16 bytes. With any other number of bytes it is not
    /// known.
    pub client: &'a [u8],
    /// The name that was found for the client's address, a text; of no bytes, if none was.
    pub host: &'a [u8],
    /// The time, in seconds since 1970.
    pub unix_timestamp: u64,
    /// 1 where the caller judges `source-address` itself (`login_policy::Client::LeftToCaller`).
    pub caller_checks_address: u32,
}

/// A login by public key, and whom the server trusts.
#[repr(C)]
#[derive(Clone, Copy, Debug)]
pub struct LoginParts<'a> {
    /// What the client offers.
    pub offer: OfferParts<'a>,
    /// Who has seen its signature.
    pub signed_by: SignedParts<'a>,
    /// Whom the server trusts.
    pub trusted: TrustedParts<'a>,
    /// Where the client is, and when.
    pub place: PlaceParts<'a>,
}

/// The name of the algorithm, if it is told.
pub(crate) fn named_algorithm<'a>(offer: &OfferParts<'a>) -> Option<&'a [u8]>
    ensures { option_map lent result ≡ named_algorithm offer.now.algorithm.now }
{
    if offer.algorithm.is_empty() {
        return None;
    }
    Some(offer.algorithm)
}

/// Who has seen the signature, if somebody has.
pub(crate) fn signed_in<'a>(signed: &SignedParts<'a>) -> Option<Signed<'a>>
    ensures { option_map signed_of result ≡ signed_in signed.now }
{
    match signed.how {
        BY_REQUEST => Some(Signed::Request {
            session_id: signed.session_id,
            host_key: bound_key(signed),
            signature: signed.signature,
        }),
        BY_TRANSPORT => Some(Signed::ByTransport { flags: None }),
        WITH_FLAGS => Some(Signed::ByTransport {
            flags: Some(signed.flags),
        }),
        BY_SSHD => Some(Signed::BySshd),
        _ => None,
    }
}

/// The server's host key, where the method has one.
fn bound_key<'a>(signed: &SignedParts<'a>) -> Option<&'a [u8]>
    ensures { option_map lent result ≡ bound_key signed.now.has_host_key signed.now.host_key.now }
{
    if signed.has_host_key == 0 {
        return None;
    }
    Some(signed.host_key)
}

/// What the server requires of the flags of each security key.
pub(crate) fn requirements_in(trusted: &TrustedParts<'_>) -> Requirements
    ensures { result ≡ requirements_in trusted.now }
{
    Requirements {
        touch_required: trusted.requires_touch != 0,
        verify_required: trusted.requires_verification != 0,
    }
}

/// Where the client is.
pub(crate) fn client_of(place: &PlaceParts<'_>) -> Client
    ensures { IsClientOf place.now result }
{
    if place.caller_checks_address == 1 {
        return Client::LeftToCaller;
    }
    match address_of(place.client) {
        Some(address) => Client::At(address),
        None => Client::Unknown,
    }
}
