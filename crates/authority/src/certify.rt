//! How a request is certified.

ghost use Rattle.std.specs.Prelude.{◌≡◌, ◌≢◌, ◌∷◌, None, [], map, string_bytes};
ghost use Rattle.ssh_key.specs.cert.Signing.{PermitsToSign};
ghost use Rattle.ssh_key.specs.keys.Keys.{key_of};
ghost use Rattle.ssh_key.specs.model.Drafts.{bad_window};
ghost use Rattle.authority.specs.Issuance.{AddsEach, CertifiesExactly, NamesEach, fields_for, names_of};

use crate::request::Request;
use ssh_key::certificate::Builder;
use ssh_key::{Certificate, Error, Result, SigningKey};
use std::alloc::Global;

/// The certificate of the request under that serial number.
pub(crate) fn certify<S: SigningKey>(
    alloc: Global,
    request: Request,
    serial: u64,
    nonce: Vec<u8>,
    signer: &S,
) -> Result<Certificate>
    requires { bad_window request.valid_after request.valid_before ≡ None → names_of request ≢ []
        → PermitsToSign (S.permits signer.now)
        (fields_for request serial nonce.items (key_of (S.public_of signer.now))) }
    ensures { CertifiesExactly (S.Raw.accepts (S.raw_of signer.now))
        (key_of (S.public_of signer.now)) (S.refuses signer.now) request serial nonce.items result }
{
    let Request {
        key,
        key_id,
        principals,
        extensions,
        valid_after,
        valid_before,
    } = request;
    let mut builder = Builder::new(alloc, nonce, key, valid_after, valid_before)?;
    builder.set_serial(serial)?;
    builder.set_key_id(key_id)?;
    add_principals(&mut builder, principals)?;
    add_extensions(alloc, &mut builder, extensions)?;
    builder.sign(alloc, signer)
}

/// Names each of the principals. Refused only when out of memory.
fn add_principals(builder: &mut Builder, principals: Vec<String>) -> Result<()>
    ensures { NamesEach (map string_bytes principals.items) builder.old result builder.new }
{
    for principal in principals {
        builder.add_valid_principal(principal)?;
    }
    Ok(())
}

/// Adds the extension of each name, without data, if it is not there yet. Refused only when out of
/// memory.
fn add_extensions(alloc: Global, builder: &mut Builder, names: Vec<String>) -> Result<()>
    ensures { AddsEach (map string_bytes names.items) builder.old result builder.new }
{
    for name in names {
        add_extension(alloc, builder, name)?;
    }
    Ok(())
}

/// Adds the extension of that name, without data, if it is not there yet. Refused only when out of
/// memory.
fn add_extension(alloc: Global, builder: &mut Builder, name: String) -> Result<()>
    ensures { AddsEach (string_bytes name ∷ []) builder.old result builder.new }
{
    match builder.add_extension(name, String::new(alloc)) {
        Ok(()) => Ok(()),
        Err(Error::Memory) => Err(Error::Memory),
        Err(_) => Ok(()),
    }
}
