ghost use Rattle.nodes.specs.Faults.{number, outcome};
ghost use Rattle.std.specs.Prelude.{◌≡◌, length, is_ok};
ghost use Rattle.tree.specs.Meaning.{AcceptanceLaws};
ghost use Rattle.tree.specs.Verdict.{verdict};

use crate::verify::verify;
use keys::Key;
use nodes::error::ArchiveError;
use nodes::node::Node;

// Whether the two lists are an image under keys of this kind.
pub fn accept<K: Key, T>(nodes: &[Node], values: &[T]) -> Result<(), ArchiveError>
    ensures verdict { outcome number result ≡ verdict K.Key.width nodes.now (length values.now) }
    ensures meaning { AcceptanceLaws K.Key.width nodes.now (length values.now) (is_ok result) }
    ensures same_nodes { nodes.exit.now ≡ nodes.entry.now }
    ensures same_values { values.exit.now ≡ values.entry.now }
{
    verify(K::bits(), nodes, values.len())
}
