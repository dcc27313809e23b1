ghost use Rattle.std.specs.Prelude.{◌≡◌};
ghost use Rattle.tables.specs.Words.{is_remark};

// Whether the line is empty or begins with `#`: it is then no part of the table.
pub fn is_remark(line: &str) -> bool
    ensures value { result ≡ is_remark line.now }
    ensures same { line.exit.now ≡ line.entry.now }
{
    line.is_empty() || line.starts_with('#')
}
