//! What names stand for.

ghost use Rattle.std.specs.Prelude.{◌↔◌, IsTrue, map};
ghost use Rattle.sshkey_entries.specs.OptionItems.{IsSameName, FindsWord, row_of};

fn is_same(name: &str, other: &str) -> bool
    ensures { IsTrue result ↔ IsSameName name.now other.now }
{
    other.eq_ignore_ascii_case(name)
}

/// What the first row of that name stands for, letters of ASCII in either case; or `None` where no
/// row has it. Does not allocate.
pub fn find_word<W: Copy>(table: &[(&str, W)], name: &str) -> Option<W>
    ensures { FindsWord (map row_of table.now) name.now result }
{
    for row in table {
        if is_same(name, row.0) {
            return Some(row.1);
        }
    }
    None
}
