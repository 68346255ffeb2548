//! Worked examples of the definitions: values from the standards, and both sides of each edge.
#![tactic(auto, unfolding(crate::specs::Computed::is_utf8, crate::specs::Computed::chars, crate::specs::Computed::encode_utf8, crate::specs::Computed::sha256, crate::specs::Computed::digest_bytes, crate::specs::Computed::hash_after, crate::specs::Computed::compress, crate::specs::Computed::rounds, crate::specs::Computed::schedule, crate::specs::Computed::first_words, crate::specs::Computed::sha512, crate::specs::Computed::digest_bytes_512, crate::specs::Computed::hash_after_512, crate::specs::Computed::compress_512, crate::specs::Computed::rounds_512, crate::specs::Computed::schedule_512, crate::specs::Computed::first_words_512, crate::specs::Computed::encode_symbols, crate::specs::Parts::flat, crate::specs::Reading::string_at, crate::specs::Reading::number_at, crate::specs::Reading::bytes_at, crate::specs::Reading::box_at, crate::specs::Reading::after_at, crate::specs::Reading::literal_at, crate::specs::Reading::list_within, crate::specs::Reading::IsChain, crate::specs::Texts::text_at, crate::specs::Texts::texts_at, crate::specs::Names::named, crate::specs::Names::is_own_name, crate::specs::Names::is_other_name, crate::specs::Labels::label_at, crate::specs::CertificateNames::certificate_algorithm_at, crate::specs::Mpints::mpint_at, crate::specs::Keys::key_at, crate::specs::Signatures::ecdsa_blob_from, crate::specs::Signatures::signature_at, crate::specs::Options::HasOptionPlaces, crate::specs::Options::spelled_option_format, crate::specs::Options::options_at, crate::specs::Certificates::signed_fields_at, crate::specs::Certificates::certificate_at))]

pub mod certificates;
pub mod dispatch;
pub mod drafts;
pub mod keys;
pub mod lines;
pub mod names;
pub mod numbers;
pub mod private;
pub mod signatures;
pub mod ssh_signatures;
pub mod strings;
pub mod texts;
