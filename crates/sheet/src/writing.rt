ghost use Rattle.sheet.specs.Readings.{contents_of};
ghost use Rattle.sheet.specs.Sheets.{FitsSheet, sheet_text};
ghost use Rattle.std.specs.Prelude.{◌≡◌, IfOk};

use crate::line::{Line, append_lines};
use crate::sheet::Sheet;
use nodes::node::Node;
use std::alloc::{AllocError, Global};

// The text of a sheet.
pub fn write(heap: Global, s: &Sheet) -> Result<Vec<u8>, AllocError>
    ensures fits { IfOk result (λ _. FitsSheet (contents_of s.now)) }
    ensures text { IfOk result (λ v. v.items ≡ sheet_text (contents_of s.now)) }
    ensures same { s.exit.now ≡ s.entry.now }
{
    let mut out = Vec::new(heap);
    s.head().append(&mut out)?;
    append_lines::<Node, 4>(&mut out, &s.nodes)?;
    append_lines::<u32, 1>(&mut out, &s.values)?;
    Ok(out)
}
