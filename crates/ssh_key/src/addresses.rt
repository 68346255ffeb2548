//! Where a client may come from: `source-address` of certificates, `from` of authorized_keys. And
//! under which name a host is asked about.

pub use sshkey_matching::{
    AskedHost, FromFault, HostFault, Malformed, asked_host, from_allows, from_allows_at,
    is_source_list, may_come_from, source_address_allows,
};
