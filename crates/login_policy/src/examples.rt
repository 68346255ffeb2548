//! Worked examples of the definitions, on both sides of each edge.

ghost use Rattle.login_policy.specs.Examples.{Clients, Extensions, Fields, Granted, Options, Trust, Unbound, Users, Authorities, Order, Pendings};

/// Keys that sign for others.
pub fn authorities()
    ensures { Authorities }
{}

/// Of which fields a certificate has to be.
pub fn fields()
    ensures { Fields }
{}

/// Whom it lists.
pub fn users()
    ensures { Users }
{}

/// By whom and when it counts.
pub fn trust()
    ensures { Trust }
{}

/// Where the client is.
pub fn clients()
    ensures { Clients }
{}

/// Critical options.
pub fn options()
    ensures { Options }
{}

/// Extensions.
pub fn extensions()
    ensures { Extensions }
{}

/// What a login is bound to.
pub fn granted()
    ensures { Granted }
{}

/// Which login is bound to nothing.
pub fn unbound()
    ensures { Unbound }
{}

/// What is pending.
pub fn pendings()
    ensures { Pendings }
{}

/// What is refused first.
pub fn order()
    ensures { Order }
{}
