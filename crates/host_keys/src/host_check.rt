//! What is known of the host that a client connects to.

/// The host that a client connects to, and what is known of it.
#[derive(Debug, Clone, Copy)]
pub struct HostCheck<'a> {
    /// The texts of known_hosts: those of all the files that count, the user's and the machine's.
    /// Their lines are judged as if they stood in one, as by ssh(1). So give all of them at once:
    /// one file alone may list a key that another file revokes, or has changed at that port.
    pub texts: &'a [&'a [u8]],
    /// The name or the address of the host, as the user typed it, without brackets. Of an address its
    /// canonical text is asked (`sshkey_matching::asked_host`). What stands in place of the name, as
    /// ssh's `HostKeyAlias`, is asked alone, at port 22.
    pub host: &'a str,
    /// The port, which is not 0.
    pub port: u16,
    /// The time, in seconds since 1970. Only a certificate is asked about it.
    pub unix_timestamp: u64,
    /// How many bits an RSA key has at least, as `RequiredRSASize` in ssh_config(5). Below 1,024, as
    /// 0, it is 1,024, which is ssh's own.
    pub least_rsa_bits: u32,
}
