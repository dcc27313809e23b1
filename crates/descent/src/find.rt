// The search along the bits of a key.
ghost use Rattle.std.specs.Prelude.{◌≡◌, ℕ, suc, ◌+◌, ◌%◌, ◌<◌, ◌≤◌, length, is_some, IfSome, Some, Option};
ghost use Rattle.keys.specs.Blocks.{first_bits};
ghost use Rattle.std.specs.Option.{option_map};
ghost use Rattle.descent.specs.Searches.{child_data, cursor_data};
ghost use Rattle.descent.specs.Way.{HitOn, first_bit, first_hit, found_of, last_bit, last_hit, longest_on, path_mask, place_on, shortest_on};
ghost use Rattle.tree.specs.Levels.{node_at};
ghost use Rattle.register.specs.Ways.{slot_of};
ghost use Rattle.register.specs.Register.{value_place};
ghost use Rattle.slots.specs.Masks.{path_bit};
ghost use Rattle.slots.specs.Picks.{highest, lowest};

use crate::cursor::Cursor;
use crate::found::{Found, Hit};
use crate::sought::Search;
use nodes::node::Node;
use slots::common::{highest_common, lowest_common};
use slots::key::data_bit;
use slots::loc::{child_loc, compute_slot, data_loc};
use slots::mask::Rule;

impl<'a> Search<'a> {
    // The root.
    pub fn start(&self) -> Cursor<'a>
        ensures query { result.query ≡ self.now }
        ensures at { result.at ≡ 0 }
        ensures depth { result.depth ≡ 0 }
        ensures same { self.exit.now ≡ self.entry.now }
    {
        Cursor {
            query: *self,
            at: 0,
            depth: 0,
        }
    }

    // The place of the block of the key's first len bits, in the node that has blocks of this length.
    #[tactic(auto, using(crate::proofs::Nodes::slot_index))]
    fn place_in(&self, node: u32, len: u32) -> Option<u32>
        requires { node < length self.now.nodes.now }
        ensures { result ≡ value_place self.now.nodes.now (slot_of self.now.key.width self.now.key.bits len node (len % 5)) }
    {
        let loc = data_loc(&self.nodes[node as usize], data_bit(self.key, len))?;
        Some(loc.idx)
    }

    // What is found at a hit. Its bit is set, so its value has a place.
    #[tactic(auto, using(crate::proofs::Nodes::hit_below, crate::proofs::Nodes::hit_fits, crate::proofs::Nodes::hit_found))]
    fn found(&self, hit: Hit) -> Found
        requires { HitOn self.now.key.width self.now.nodes.now self.now.key.bits hit }
        ensures { Some result ≡ found_of self.now.key.width self.now.nodes.now self.now.key.bits hit.len }
    {
        let node = &self.nodes[hit.node as usize];
        let slot = compute_slot(node.data_bitmap, data_bit(self.key, hit.len));
        Found {
            place: node.data_idx + slot,
            len: hit.len,
        }
    }

    // The place of the value of the block of the whole length.
    #[tactic(auto, using(crate::proofs::Ways::way_on, crate::proofs::Ways::at_in, crate::proofs::Ways::exact_none, crate::proofs::Ways::exact_some))]
    pub fn exact(&self) -> Option<u32>
        ensures same { self.exit.now ≡ self.entry.now }
        ensures place { result ≡ place_on self.now.key.width self.now.nodes.now self.now.key.bits self.now.len }
    {
        let mut cursor = self.start();
        while cursor.depth + Node::STRIDE <= self.len {
            cursor = cursor.child()?;
        }
        self.place_in(cursor.at, self.len)
    }

    // The longest block on the key's path that has a value, within the length.
    #[inline(always)]
    #[tactic(auto, using(crate::proofs::Ways::way_on, crate::proofs::Ways::longest_next, crate::proofs::Ways::longest_whole, crate::proofs::Ways::longest_nothing, crate::proofs::Ways::longest_hit_on))]
    pub fn longest(&self) -> Option<Found>
        ensures same { self.exit.now ≡ self.entry.now }
        ensures found { result ≡ longest_on self.now.key.width self.now.nodes.now self.now.key.bits self.now.len }
    {
        let mut cursor = self.start();
        let mut best = None;
        loop {
            best = cursor.longest().or(best);
            match cursor.child() {
                Some(next) => cursor = next,
                None => return Some(self.found(best?)),
            }
        }
    }

    // The shortest such block.
    #[inline(always)]
    #[tactic(auto, using(crate::proofs::Ways::way_on, crate::proofs::Ways::way_ends, crate::proofs::Ways::shortest_next, crate::proofs::Ways::shortest_hit_on, crate::proofs::Ways::shortest_last))]
    pub fn shortest(&self) -> Option<Found>
        ensures same { self.exit.now ≡ self.entry.now }
        ensures found { result ≡ shortest_on self.now.key.width self.now.nodes.now self.now.key.bits self.now.len }
    {
        let mut cursor = self.start();
        loop {
            if let Some(hit) = cursor.shortest() {
                return Some(self.found(hit));
            }
            cursor = cursor.child()?;
        }
    }
}

impl<'a> Cursor<'a> {
    #[tactic(auto, using(crate::proofs::Nodes::in_list))]
    fn node(&self) -> &'a Node
        ensures { result.now ≡ node_at self.now.query.nodes.now self.now.at }
    {
        &self.query.nodes[self.at as usize]
    }

    // The key's five bits after the depth, which are its child bit.
    fn next_five(&self) -> u32
        requires { self.now.depth + 5 ≤ self.now.query.len }
        ensures { result ≡ first_bits self.now.query.key.width (self.now.depth + 5) self.now.query.key.bits % 32 }
    {
        let rest = self.query.key.width - (self.depth + Node::STRIDE);
        ((self.query.key.bits >> rest) % 32) as u32
    }

    // The node that the key's next five bits lead to, where the length goes so far and the child is there.
    #[inline(always)]
    #[tactic(auto, using(crate::proofs::Nodes::child_here, crate::proofs::Nodes::child_past))]
    pub fn child(&self) -> Option<Cursor<'a>>
        ensures same { self.exit.now ≡ self.entry.now }
        ensures child { option_map cursor_data result ≡ child_data self.now }
    {
        let depth = self.depth + Node::STRIDE;
        if self.query.len < depth {
            return None;
        }
        let loc = child_loc(self.node(), self.next_five())?;
        Some(Cursor {
            query: self.query,
            at: loc.idx,
            depth,
        })
    }

    // The data bits of the blocks on the key's path that are within the length.
    #[tactic(auto, using(crate::proofs::Nodes::whole_path))]
    fn path(&self) -> u32
        ensures { result ≡ path_mask self.now.query.key.width self.now.query.key.bits self.now.query.len self.now.depth }
    {
        if self.depth + Node::STRIDE <= self.query.len {
            // the first four of the five bits that the child takes
            Rule::OnPath.at(Node::STRIDE - 1, self.next_five() / 2)
        } else {
            Rule::OnPath.mask(self.query.key, self.depth, self.query.len)
        }
    }

    // The hit of a data bit.
    #[tactic(auto, using(crate::proofs::Steps::hit_tier))]
    fn hit(&self, bit: Option<u32>) -> Option<Hit>
        requires { IfSome bit (λ b. b < 32) }
        ensures { (v : ℕ) (o : Option ℕ) → v < 16 → IfSome o (λ l. l ≤ 4) → bit ≡ option_map (path_bit v) o → result ≡ option_map (λ l. record { node = self.now.at; len = self.now.depth + l }) o }
    {
        let bit = bit?;
        Some(Hit {
            node: self.at,
            len: self.depth + (bit + 1).ilog2(),
        })
    }

    // The longest block on the key's path in this node that has a value, within the length.
    fn longest(&self) -> Option<Hit>
        ensures { result ≡ last_hit self.now.query.key.width self.now.query.nodes.now self.now.query.key.bits self.now.query.len self.now.depth }
    {
        self.hit(self.longest_bit())
    }

    // The shortest such block.
    fn shortest(&self) -> Option<Hit>
        ensures { result ≡ first_hit self.now.query.key.width self.now.query.nodes.now self.now.query.key.bits self.now.query.len self.now.depth }
    {
        self.hit(self.shortest_bit())
    }

    // Whether a block on the key's path in this node has a value, within the length.
    pub fn has_hit(&self) -> bool
        ensures same { self.exit.now ≡ self.entry.now }
        ensures hit { result ≡ is_some (first_hit self.now.query.key.width self.now.query.nodes.now self.now.query.key.bits self.now.query.len self.now.depth) }
    {
        self.shortest().is_some()
    }

    // The highest data bit of these blocks.
    fn longest_bit(&self) -> Option<u32>
        ensures bit { result ≡ last_bit (node_at self.now.query.nodes.now self.now.at).data_bitmap self.now.query.key.width self.now.depth self.now.query.key.bits self.now.query.len }
        ensures below { IfSome result (λ b. b < 32) }
    {
        highest_common(self.node().data_bitmap, self.path())
    }

    // The lowest such bit.
    fn shortest_bit(&self) -> Option<u32>
        ensures bit { result ≡ first_bit (node_at self.now.query.nodes.now self.now.at).data_bitmap self.now.query.key.width self.now.depth self.now.query.key.bits self.now.query.len }
        ensures below { IfSome result (λ b. b < 32) }
    {
        lowest_common(self.node().data_bitmap, self.path())
    }
}
