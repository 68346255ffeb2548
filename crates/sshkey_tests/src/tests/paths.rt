//! Every path under `ssh_key`, once. A path that the crate does not give is not found here, and the
//! tests do not compile.

/// The crate itself.
pub mod root {
    pub use ssh_key::{
        Algorithm, AlgorithmName, AuthorizedKeys, Base64Reader, Blob, Certificate, CertificateRef,
        Cipher, EcdsaCurve, Error, Fingerprint, HashAlg, Kdf, KdfAlg, KnownHosts, Mpint,
        PrivateKey, PublicKey, Question, RawVerifier, Result, Signature, SignatureQuestion,
        SignatureRef, SigningKey, SshSig, read_line, write_line,
    };
}

/// Who may log in.
pub mod authorized_keys {
    pub use ssh_key::authorized_keys::{
        AuthorizedKeys, ConfigOpts, ConfigOptsIter, Entry, NonBlankLines, OpenSshAuthorizedKeys,
        OpenSshEntry, OpenSshOption, OpenSshOptions, OpenSshOptionsIter, split_blank,
    };
}

/// Certificates.
pub mod certificate {
    pub use ssh_key::certificate::{
        Builder, CertType, Certificate, CertificateFields, CertificateOptions,
        CertificateOptionsRef, CertificateRef, CertificateRefusal, EndTime, FOREVER, Field,
        KeyOrCertificate, MAX_SECS, OptionsMap, Principals, PrincipalsRef, TrustedCertificate,
        UnixTime, contains_fingerprint,
    };
}

/// The wire encoding.
pub mod encoding {
    pub use ssh_key::encoding::{
        Bytes, Decode, DecodeError, Encode, Error, Label, LabelError, NestedReader, NormalForm,
        Reader, Result, ShortBytes, SliceWriter, Text, Writer, array_from, both_len, decode_front,
        decode_prefixed, decode_whole, each_len, encode_both, encode_each, encode_list,
        encode_string, encode_vec, erase_slice, length_from, list_len, string_len, u32_of,
    };
}

/// What a format is made of.
pub mod terms {
    pub use ssh_key::terms::{
        Counted, LengthPrefixed, Then, Wide, counted_len, decode_each, encode_counted,
    };
}

/// Which keys hosts have.
pub mod known_hosts {
    pub use ssh_key::known_hosts::{
        Entry, HeldLine, HmacSha1, HostHasher, HostPatterns, KnownHosts, Marker, OpenSshKnownHosts,
        Verdict, authorities, hold_lines, key_verdict, texts_for, unreadable_line,
    };
}

/// Where a client may come from.
pub mod addresses {
    pub use ssh_key::addresses::{
        AskedHost, FromFault, HostFault, Malformed, asked_host, from_allows, from_allows_at,
        is_source_list, may_come_from, source_address_allows,
    };
}

/// Texts against patterns.
pub mod patterns {
    pub use ssh_key::patterns::{LetterCase, matches_pattern, matches_pattern_list};
}

/// Private keys.
pub mod private {
    pub use ssh_key::private::{
        DsaKeypair, DsaPrivateKey, EcdsaKeypair, EcdsaPrivateKey, Ed25519Keypair,
        Ed25519PrivateKey, KeypairData, OpaqueKeypair, OpaqueKeypairBytes, OpaquePrivateKeyBytes,
        PrivateKey, RsaKeypair, RsaPrivateKey, SkEcdsaSha2NistP256, SkEd25519, SshSig,
    };
}

/// Public keys.
pub mod public {
    pub use ssh_key::public::{
        DsaPublicKey, EcPoint, EcdsaNistP256PublicKey, EcdsaNistP384PublicKey,
        EcdsaNistP521PublicKey, EcdsaPublicKey, Ed25519PublicKey, KeyData, KeyDataRef,
        OpaquePublicKey, OpaquePublicKeyBytes, PublicKey, RsaPublicKey, SkEcdsaSha2NistP256,
        SkEd25519, take_body,
    };
}

/// Revocation lists.
pub mod revocation {
    pub use ssh_key::revocation::{Krl, KrlRef, NoRevocations, Revocations, RevokedKeys};
}

/// The laws.
pub mod laws {
    pub use ssh_key::laws::apart;
    pub use ssh_key::laws::blobs_apart;
    pub use ssh_key::laws::certificate_fields;
    pub use ssh_key::laws::certificate_fits;
    pub use ssh_key::laws::certificates;
    pub use ssh_key::laws::compared_algorithm_names;
    pub use ssh_key::laws::compared_algorithms;
    pub use ssh_key::laws::compared_certificates;
    pub use ssh_key::laws::compared_ciphers;
    pub use ssh_key::laws::compared_curves;
    pub use ssh_key::laws::compared_dsa_keys;
    pub use ssh_key::laws::compared_ecdsa_keys;
    pub use ssh_key::laws::compared_ed25519_keys;
    pub use ssh_key::laws::compared_ends;
    pub use ssh_key::laws::compared_fields;
    pub use ssh_key::laws::compared_fingerprints;
    pub use ssh_key::laws::compared_hashes;
    pub use ssh_key::laws::compared_kdf_algorithms;
    pub use ssh_key::laws::compared_keys;
    pub use ssh_key::laws::compared_mpints;
    pub use ssh_key::laws::compared_opaque_bytes;
    pub use ssh_key::laws::compared_opaque_keys;
    pub use ssh_key::laws::compared_options;
    pub use ssh_key::laws::compared_private_keys;
    pub use ssh_key::laws::compared_public_keys;
    pub use ssh_key::laws::compared_rsa_keys;
    pub use ssh_key::laws::compared_signatures;
    pub use ssh_key::laws::compared_signed_fields;
    pub use ssh_key::laws::compared_sk_ecdsa_keys;
    pub use ssh_key::laws::compared_sk_ed25519_keys;
    pub use ssh_key::laws::compared_ssh_signatures;
    pub use ssh_key::laws::compared_times;
    pub use ssh_key::laws::compared_types;
    pub use ssh_key::laws::decode_private_key;
    pub use ssh_key::laws::digest_parts_fit;
    pub use ssh_key::laws::equal_authorized_keys;
    pub use ssh_key::laws::equal_certificate_refusals;
    pub use ssh_key::laws::equal_config_opts;
    pub use ssh_key::laws::equal_dsa_pairs;
    pub use ssh_key::laws::equal_dsa_private_keys;
    pub use ssh_key::laws::equal_ecdsa_pairs;
    pub use ssh_key::laws::equal_ecdsa_private_keys;
    pub use ssh_key::laws::equal_ed25519_pairs;
    pub use ssh_key::laws::equal_ed25519_private_keys;
    pub use ssh_key::laws::equal_encoding_errors;
    pub use ssh_key::laws::equal_errors;
    pub use ssh_key::laws::equal_hosts;
    pub use ssh_key::laws::equal_kdfs;
    pub use ssh_key::laws::equal_known_hosts;
    pub use ssh_key::laws::equal_markers;
    pub use ssh_key::laws::equal_opaque_pair_bytes;
    pub use ssh_key::laws::equal_opaque_pairs;
    pub use ssh_key::laws::equal_opaque_private_keys;
    pub use ssh_key::laws::equal_pairs;
    pub use ssh_key::laws::equal_rsa_pairs;
    pub use ssh_key::laws::equal_rsa_private_keys;
    pub use ssh_key::laws::equal_sk_ecdsa_pairs;
    pub use ssh_key::laws::equal_sk_ed25519_pairs;
    pub use ssh_key::laws::equal_verdicts;
    pub use ssh_key::laws::exact_cipher;
    pub use ssh_key::laws::exact_kdf;
    pub use ssh_key::laws::exact_kdf_name;
    pub use ssh_key::laws::exact_private_key;
    pub use ssh_key::laws::exact_ssh_signature;
    pub use ssh_key::laws::exact_to_be_signed;
    pub use ssh_key::laws::fingerprint_texts;
    pub use ssh_key::laws::grown_krls;
    pub use ssh_key::laws::joined_krls;
    pub use ssh_key::laws::key_fits;
    pub use ssh_key::laws::lines;
    pub use ssh_key::laws::lines_apart;
    pub use ssh_key::laws::lines_revoke;
    pub use ssh_key::laws::normal_bodies;
    pub use ssh_key::laws::normal_certificate_names;
    pub use ssh_key::laws::normal_certificates;
    pub use ssh_key::laws::normal_forms;
    pub use ssh_key::laws::normal_kdfs;
    pub use ssh_key::laws::normal_keypairs;
    pub use ssh_key::laws::normal_keys;
    pub use ssh_key::laws::normal_mpints;
    pub use ssh_key::laws::normal_names;
    pub use ssh_key::laws::normal_options;
    pub use ssh_key::laws::normal_points;
    pub use ssh_key::laws::normal_private_keys;
    pub use ssh_key::laws::normal_signatures;
    pub use ssh_key::laws::normal_ssh_signatures;
    pub use ssh_key::laws::normal_texts;
    pub use ssh_key::laws::one_armour;
    pub use ssh_key::laws::one_authorized_key;
    pub use ssh_key::laws::one_authorized_line;
    pub use ssh_key::laws::one_certificate;
    pub use ssh_key::laws::one_certificate_line;
    pub use ssh_key::laws::one_end;
    pub use ssh_key::laws::one_front;
    pub use ssh_key::laws::one_host_line;
    pub use ssh_key::laws::one_hosts;
    pub use ssh_key::laws::one_key;
    pub use ssh_key::laws::one_key_line;
    pub use ssh_key::laws::one_key_options;
    pub use ssh_key::laws::one_known_host;
    pub use ssh_key::laws::one_krl;
    pub use ssh_key::laws::one_options;
    pub use ssh_key::laws::one_revoked_key;
    pub use ssh_key::laws::one_signature;
    pub use ssh_key::laws::one_ssh_signature;
    pub use ssh_key::laws::one_verdict;
    pub use ssh_key::laws::options_fit;
    pub use ssh_key::laws::ordered_sk_ecdsa_pairs;
    pub use ssh_key::laws::ordered_sk_ed25519_pairs;
    pub use ssh_key::laws::other_keys_apart;
    pub use ssh_key::laws::plain_padded_private_key;
    pub use ssh_key::laws::prefix_body;
    pub use ssh_key::laws::prefix_certificate;
    pub use ssh_key::laws::prefix_certificate_name;
    pub use ssh_key::laws::prefix_cipher;
    pub use ssh_key::laws::prefix_curve;
    pub use ssh_key::laws::prefix_ecdsa_pair;
    pub use ssh_key::laws::prefix_hash;
    pub use ssh_key::laws::prefix_kdf;
    pub use ssh_key::laws::prefix_kdf_name;
    pub use ssh_key::laws::prefix_key;
    pub use ssh_key::laws::prefix_keypair;
    pub use ssh_key::laws::prefix_mpint;
    pub use ssh_key::laws::prefix_name;
    pub use ssh_key::laws::prefix_options;
    pub use ssh_key::laws::prefix_padded_private_key;
    pub use ssh_key::laws::prefix_pair;
    pub use ssh_key::laws::prefix_point;
    pub use ssh_key::laws::prefix_private_key;
    pub use ssh_key::laws::prefix_rsa_private;
    pub use ssh_key::laws::prefix_scalar;
    pub use ssh_key::laws::prefix_signature;
    pub use ssh_key::laws::prefix_ssh_signature;
    pub use ssh_key::laws::prefix_text;
    pub use ssh_key::laws::prefix_texts;
    pub use ssh_key::laws::prefixes;
    pub use ssh_key::laws::read_back;
    pub use ssh_key::laws::read_back_certificate;
    pub use ssh_key::laws::read_back_certificate_line;
    pub use ssh_key::laws::read_back_kdf;
    pub use ssh_key::laws::read_back_key;
    pub use ssh_key::laws::read_back_key_line;
    pub use ssh_key::laws::read_back_keypair;
    pub use ssh_key::laws::read_back_options;
    pub use ssh_key::laws::read_back_private_key;
    pub use ssh_key::laws::read_back_signature;
    pub use ssh_key::laws::read_back_ssh_signature;
    pub use ssh_key::laws::readers;
    pub use ssh_key::laws::readings_apart;
    pub use ssh_key::laws::shortest_certificate;
    pub use ssh_key::laws::signed_fields;
    pub use ssh_key::laws::signed_fields_fit;
    pub use ssh_key::laws::signed_parts_fit;
    pub use ssh_key::laws::spelled_certificate;
    pub use ssh_key::laws::spelled_kdf;
    pub use ssh_key::laws::spelled_padded_private_key;
    pub use ssh_key::laws::spelled_private_key;
    pub use ssh_key::laws::spelled_ssh_signature;
    pub use ssh_key::laws::ssh_signature_fits;
    pub use ssh_key::laws::unreadable_lines;
}
