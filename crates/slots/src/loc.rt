// Where the values and the children of a node stand.
ghost use Rattle.nodes.specs.Bitmaps.{bit as is_set, ones_below};
ghost use Rattle.slots.specs.Places.{loc_of};
ghost use Rattle.std.specs.Prelude.{◌≡◌, ◌/◌, ◌%◌, ◌^◌, ◌==◌, count_ones};

use nodes::node::Node;

// The place of a value or a node in its list, and the bit that it has in its bitmap.
#[derive(Clone, Copy, PartialEq, Eq, Debug)]
pub struct Loc {
    pub idx: u32,
    pub bit: u32,
}

// How many ones stand below the bit.
#[tactic(auto, using(crate::proofs::Bits::ones_mod))]
pub fn compute_slot(bitmap: u32, bit: u32) -> u32
    ensures { result ≡ ones_below bit bitmap }
{
    bits_below(bitmap, bit).count_ones()
}

#[tactic(auto, using(crate::proofs::Bits::below_all, crate::proofs::Bits::masked_below))]
fn bits_below(bitmap: u32, bit: u32) -> u32
    ensures { result ≡ bitmap % 2 ^ bit }
{
    if bit < 32 {
        bitmap & ((1 << bit) - 1)
    } else {
        bitmap
    }
}

// Whether the bit is set.
#[tactic(auto, using(crate::proofs::Bits::bit_end_32))]
pub fn has_bit(bitmap: u32, bit: u32) -> bool
    ensures { result ≡ is_set bitmap bit }
{
    bit < 32 && (bitmap >> bit) % 2 == 1
}

// The location of a set bit, from where the bitmap's places begin. There is none where the place
// is past 32 bits.
fn locate(bitmap: u32, first: u32, bit: u32) -> Option<Loc>
    ensures { result ≡ loc_of bitmap first bit }
{
    if !has_bit(bitmap, bit) {
        return None;
    }
    let idx = first.checked_add(compute_slot(bitmap, bit))?;
    Some(Loc { idx, bit })
}

// The location of a data bit's value.
pub fn data_loc(node: &Node, bit: u32) -> Option<Loc>
    ensures loc { result ≡ loc_of node.now.data_bitmap node.now.data_idx bit }
    ensures same { node.exit.now ≡ node.entry.now }
{
    locate(node.data_bitmap, node.data_idx, bit)
}

// The location of a child bit's node.
pub fn child_loc(node: &Node, bit: u32) -> Option<Loc>
    ensures loc { result ≡ loc_of node.now.child_bitmap node.now.children_idx bit }
    ensures same { node.exit.now ≡ node.entry.now }
{
    locate(node.child_bitmap, node.children_idx, bit)
}
