//! Which library this is.

ghost use Rattle.std.specs.Prelude.{◌≡◌};

/// Returns the version of the library: 10,000 times its first number, 100 times its second and its
/// third, so 300 for 0.3.0. Does not allocate.
#[unsafe(no_mangle)]
pub extern "C" fn raf_version() -> u32
    ensures { result ≡ 300 }
{
    300
}

/// Returns the number of the library's ABI, with which the name of the shared library ends. It is
/// another one once a call, a struct or an answer of `rafendilo.h` changes. Does not allocate.
#[unsafe(no_mangle)]
pub extern "C" fn raf_abi() -> u32
    ensures { result ≡ 2 }
{
    2
}
