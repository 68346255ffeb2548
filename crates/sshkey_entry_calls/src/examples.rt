//! Worked examples of the definitions, on both sides of each edge.

ghost use Rattle.sshkey_entry_calls.specs.Examples.{Alone, Bracketed, Marks, NoDestinations, Ports, WithPort};

/// The characters as ASCII has them.
pub fn marks()
    ensures { Marks }
{}

/// What digits write a port.
pub fn ports()
    ensures { Ports }
{}

/// A host in brackets, and what follows it.
pub fn bracketed()
    ensures { Bracketed }
{}

/// A host, a colon and a port.
pub fn with_port()
    ensures { WithPort }
{}

/// A host alone.
pub fn alone()
    ensures { Alone }
{}

/// What is no host and port.
pub fn no_destinations()
    ensures { NoDestinations }
{}
