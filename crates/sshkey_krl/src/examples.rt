//! Worked examples of key revocation lists, on both sides of each edge.

ghost use Rattle.sshkey_krl.specs.KrlExamples.{Authorities, BitmapEdges, BitmapSizes, KeySections, Kinds, NumberEdges, RevokedCertificates, RevokedKeys, SectionAuthorities, SerialEdges, TextEdges, Unread, WholeList};
ghost use Rattle.sshkey_krl.specs.WrittenExamples.{Beginning, BitLengths, CertificateSections, KeysWritten, Zeros};

/// A list.
pub fn whole_list()
    ensures { WholeList }
{}

/// Both ends of ranges and bitmaps.
pub fn serial_edges()
    ensures { SerialEdges }
{}

/// The number 0, and ranges that fall.
pub fn number_edges()
    ensures { NumberEdges }
{}

/// The first and the last bit of a bitmap, and its sign.
pub fn bitmap_edges()
    ensures { BitmapEdges }
{}

/// How long a bitmap may be.
pub fn bitmap_sizes()
    ensures { BitmapSizes }
{}

/// Zero bytes in texts.
pub fn text_edges()
    ensures { TextEdges }
{}

/// Numbers of versions, sections and parts.
pub fn kinds()
    ensures { Kinds }
{}

/// Keys of authorities.
pub fn authorities()
    ensures { Authorities }
{}

/// Whose certificates a section is about.
pub fn section_authorities()
    ensures { SectionAuthorities }
{}

/// Keys and their digests.
pub fn key_sections()
    ensures { KeySections }
{}

/// What a list of keys revokes.
pub fn revoked_keys()
    ensures { RevokedKeys }
{}

/// What a section about certificates revokes.
pub fn revoked_certificates()
    ensures { RevokedCertificates }
{}

/// Lists that could not be read.
pub fn unread()
    ensures { Unread }
{}

/// A list without sections.
pub fn beginning()
    ensures { Beginning }
{}

/// Sections about certificates.
pub fn certificate_sections()
    ensures { CertificateSections }
{}

/// Sections of a key and of a digest.
pub fn keys_written()
    ensures { KeysWritten }
{}

/// Zero bytes, and the name of RSA.
pub fn zeros()
    ensures { Zeros }
{}

/// Bits of numbers.
pub fn bit_lengths()
    ensures { BitLengths }
{}
