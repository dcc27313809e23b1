// The bits of a node that a key's own bits name.
ghost use Rattle.std.specs.Prelude.{◌≡◌, ◌+◌, ◌-◌, ◌%◌, ◌^◌};
ghost use Rattle.keys.specs.Blocks.{first_bits};
ghost use Rattle.nodes.specs.Bitmaps.{data_bit};

use keys::wide::Wide;
use nodes::node::Node;

// The data bit of the block of the key's first len bits, in the node that has blocks of this length.
pub fn data_bit(key: Wide, len: u32) -> u32
    ensures { result ≡ data_bit (len % 5) (first_bits key.width len key.bits % 2 ^ (len % 5)) }
{
    let blocks = 1u64 << (len % Node::STRIDE);
    (blocks - 1 + key.first_bits(len) % blocks) as u32
}

// The child bit on the key's path out of a node at this depth.
pub fn child_bit(key: Wide, depth: u32) -> u32
    ensures { result ≡ first_bits key.width (depth + 5) key.bits % 32 }
{
    (key.first_bits(depth.saturating_add(Node::STRIDE)) % 32) as u32
}
