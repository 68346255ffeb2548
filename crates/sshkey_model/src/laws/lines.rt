//! Laws of lines of a text: each stands for all texts, and makes no call.

ghost use Rattle.sshkey_model.specs.Keys.{SpellsKey, normal_key};
ghost use Rattle.sshkey_model.specs.Certificates.{SpellsCertificate, normal_certificate};
ghost use Rattle.sshkey_model.specs.Lines.{key_name, name_of_certificate, LinesDetermineValues, LinesReadBack, LinesAreApart};

/// A text is a line of one key at most, and with one comment.
pub fn one_key_line()
    ensures { LinesDetermineValues key_name SpellsKey }
{}

/// A text is a line of one certificate at most, and with one comment.
pub fn one_certificate_line()
    ensures { LinesDetermineValues name_of_certificate SpellsCertificate }
{}

/// What is read of a key's line is written as a line that is read back.
pub fn read_back_key_line()
    ensures { LinesReadBack key_name SpellsKey normal_key }
{}

/// What is read of a certificate's line is written as a line that is read back.
pub fn read_back_certificate_line()
    ensures { LinesReadBack name_of_certificate SpellsCertificate
        normal_certificate }
{}

/// No text is a line of a key and one of a certificate.
pub fn lines_apart()
    ensures { LinesAreApart }
{}
