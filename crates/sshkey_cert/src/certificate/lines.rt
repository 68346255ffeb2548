//! Certificates in lines.

ghost use Rattle.std.specs.Prelude.{◌≡◌, ◌↔◌, IfErr, IfOk, IsTrue, string_bytes};
ghost use Rattle.std.specs.Str.{IsUtf8};
ghost use Rattle.sshkey_base.specs.declared.error.Error.TheVariants as wide;
ghost use Rattle.sshkey_model.specs.CertificateNames.{certificate_name};
ghost use Rattle.sshkey_model.specs.Certificates.{Certificate as TheCertificate, normal_certificate, certificate_format, SpellsCertificate};
ghost use Rattle.sshkey_model.specs.Keys.{key_algorithm};
ghost use Rattle.sshkey_model.specs.Lines.{certificate_line, name_of_certificate};
ghost use Rattle.sshkey_keys.specs.Keys.{key_of};
ghost use Rattle.sshkey_public.specs.Lines.{RefusesLine, AsksLine};
ghost use Rattle.sshkey_public.specs.WrittenLines.{IsOneLine};
ghost use Rattle.sshkey_public.specs.PublicKeys.{MakesLine};
ghost use Rattle.sshkey_cert.specs.Certificates.{certificate_of, comment_of, ReadsCertificate};

use super::Certificate;
use sshkey_base::{Result, Text, Writer, encode_vec, encoding};
use sshkey_keys::KeyData;
use sshkey_public::{Blob, make_line, makes_one_line, read_line};
use std::alloc::Global;

/// The name of the certified key's algorithm in certificates.
#[tactic(auto, using(crate::proofs::Certificates::certificates_stand))]
impl Blob for Certificate {
    ghost Value = { TheCertificate };

    ghost value = { certificate_of };

    ghost name = { name_of_certificate };

    ghost Spelling = { SpellsCertificate };

    fn lawful_blob() {}

    fn write_name<W: Writer>(&self, writer: &mut W) -> encoding::Result<()> {
        self.fields.public_key.write_certificate_name(writer)
    }
}

impl Certificate {
    /// Reads a line: the name of the key's algorithm in certificates, the certificate in padded
    /// Base64, and the comment.
    ///
    /// White space at the end is cut off. Unless memory runs out, it fails exactly if the text is
    /// not the line of a certificate: with `Length` if a word is missing or empty, with
    /// `CharacterEncoding` for a character in the first word that no name has, with the errors of
    /// `from_bytes`, also `Length` for a certificate that is signed by RSA with SHA-1, and with
    /// `AlgorithmUnknown` if the first word is not the certificate's name. A second word that is
    /// not canonical Base64 fails with `Base64`, or with a fault of the bytes before its first
    /// wrong character.
    ///
    /// `Memory` means that an allocation failed, for the certificate in the second word or for the
    /// comment of a line that is a certificate's; no fault that stands later in the line takes its
    /// place. A stated length that exceeds the bytes allocates nothing.
    ///
    /// The comment is all that follows the second word and a space, line ends too: if `is_one_line`
    /// returns false, further lines are part of it, and were not read as certificates.
    ///
    /// ```rust
    /// // as in crates/sshkey_cases/src/certificates.rt
    /// let certificate = Certificate::from_openssh(alloc, line)?;
    /// ```
    pub fn from_openssh(alloc: Global, text: &str) -> Result<Certificate>
        ensures reads { ReadsCertificate text.now result }
        ensures asks { AsksLine certificate_format name_of_certificate SpellsCertificate
            text.now result }
        ensures fault { RefusesLine certificate_format name_of_certificate SpellsCertificate
            text.now result }
    {
        let (certificate, comment) = read_line::<Certificate>(alloc, text)?;
        Ok(certificate.with_comment(comment))
    }

    /// The line of the certificate's normal form, newly allocated. Its comment may hold line ends:
    /// if `is_one_line` returns false, it is more than one line of a file.
    ///
    /// Fails with `Length` exactly if a string in it would exceed 2^32 - 1 bytes, and otherwise
    /// only when out of memory.
    pub fn to_openssh(&self, alloc: Global) -> Result<String>
        ensures { MakesLine (name_of_certificate (certificate_of self.now))
            (normal_certificate (certificate_of self.now)) (comment_of self.now) result }
    {
        let blob = encode_vec(alloc, self)?;
        let name = self.name(alloc)?;
        make_line(alloc, name.as_str(), &blob, self.comment.as_str())
    }

    /// Whether the line of the certificate's normal form, which `to_openssh` gives, holds no line
    /// feed and no carriage return. Does not allocate.
    ///
    /// A comment can hold them, and so can a private-use name (RFC 4251, section 6, forbids it
    /// there; a certificate that a line gave has none in its name). Check it before you append the
    /// line to a file of lines: what follows a line end is a line of its own there.
    pub fn is_one_line(&self) -> bool
        ensures { IsTrue result
            ↔ IsOneLine (certificate_line (certificate_of self.now) (comment_of self.now)) }
    {
        makes_one_line(
            self.fields.public_key.algorithm_name(),
            self.comment.as_str(),
        )
    }

    /// The name of the key's algorithm in certificates. Fails only when out of memory.
    fn name(&self, alloc: Global) -> Result<String>
        ensures name { IfOk result
            (λ name. string_bytes name ≡ name_of_certificate (certificate_of self.now)) }
        ensures memory { IfErr result (λ e. e ≡ wide.Memory) }
    {
        let mut name = Vec::new(alloc);
        self.write_name(&mut name)?;
        is_text_in_certificates(&self.fields.public_key);
        let Ok(name) = String::from_utf8(name) else {
            unreachable!();
        };
        Ok(name)
    }

    /// The same certificate with that comment.
    fn with_comment(self, comment: String) -> Certificate
        ensures value { certificate_of result ≡ certificate_of self }
        ensures comment { comment_of result ≡ string_bytes comment }
    {
        let Certificate {
            fields,
            signature,
            comment: _,
        } = self;
        Certificate {
            fields,
            signature,
            comment: Text::new(comment),
        }
    }
}

/// The name of a key's algorithm in certificates is a text. The call is made only for what its
/// contract and its type say: the key's own name is a text, and this name is made of it.
fn is_text_in_certificates(key: &KeyData)
    ensures { IsUtf8 (certificate_name (key_algorithm (key_of key.now))) }
{
    let _ = key.algorithm_name();
}
