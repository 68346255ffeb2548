//! What holds of every grant that `raf_log_in` writes.

ghost use Rattle.sshkey_c.specs.Laws.{CommandIsThere};

/// The command that it forces is where `raf_runs` reads it.
pub fn command_is_there()
    ensures { CommandIsThere }
{}
