// The library's answer at the width that a case names.
ghost use Rattle.nodes.specs.Faults.{number, outcome};
ghost use Rattle.tables.specs.Words.{bits};
ghost use Rattle.tree.specs.Verdict.{verdict};
ghost use Rattle.std.specs.Prelude.{◌≡◌, length};

use accept::accept::accept;
use nodes::error::ArchiveError;
use nodes::node::Node;
use tables::width::Width;

// A width picks a type parameter, which takes an arm for each.
pub(crate) fn judge(width: Width, nodes: &[Node], values: &[u8]) -> Result<(), ArchiveError>
    ensures { outcome number result ≡ verdict (bits width) nodes.now (length values.now) }
{
    match width {
        Width::Bits8 => accept::<u8, u8>(nodes, values),
        Width::Bits16 => accept::<u16, u8>(nodes, values),
        Width::Bits32 => accept::<u32, u8>(nodes, values),
        Width::Bits64 => accept::<u64, u8>(nodes, values),
    }
}
