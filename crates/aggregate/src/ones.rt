// The set bits of a bitmap, one after another from the lowest.
ghost use Rattle.nodes.specs.Bitmaps.{bit};
ghost use Rattle.slots.specs.Picks.{lowest};
ghost use Rattle.std.specs.Option.{option_map};
ghost use Rattle.std.specs.Prelude.{◌≡◌, ◌-◌, ◌^◌};

// The number of the lowest set bit, and the bitmap without it.
#[tactic(auto, using(crate::proofs::Lowest::some_split))]
pub fn split_lowest(bits: u32) -> Option<(u32, u32)>
    ensures { result ≡ option_map (λ b. (b, bits - 2 ^ b)) (lowest 32 (bit bits)) }
{
    if bits == 0 {
        None
    } else {
        Some((bits.trailing_zeros(), bits & (bits - 1)))
    }
}
