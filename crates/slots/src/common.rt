// The highest and the lowest bit that a bitmap and a mask both have.
ghost use Rattle.nodes.specs.Bitmaps.{bit};
ghost use Rattle.slots.specs.Picks.{IsHighest, IsLowest, highest, lowest};
ghost use Rattle.std.specs.Prelude.{◌≡◌, ◌<◌, ◌&&◌, bit_and, IfSome};

// The highest one.
#[tactic(auto, using(crate::proofs::Picks::highest_is))]
pub fn highest_common(bitmap: u32, mask: u32) -> Option<u32>
    ensures below { IfSome result (λ b. b < 32) }
    ensures bit { result ≡ highest 32 (λ b. bit bitmap b && bit mask b) }
    ensures meaning { IsHighest 32 (λ b. bit bitmap b && bit mask b) result }
{
    highest_bit(common(bitmap, mask))
}

// The lowest one.
#[tactic(auto, using(crate::proofs::Picks::lowest_is))]
pub fn lowest_common(bitmap: u32, mask: u32) -> Option<u32>
    ensures below { IfSome result (λ b. b < 32) }
    ensures bit { result ≡ lowest 32 (λ b. bit bitmap b && bit mask b) }
    ensures meaning { IsLowest 32 (λ b. bit bitmap b && bit mask b) result }
{
    lowest_bit(common(bitmap, mask))
}

#[tactic(auto, using(crate::proofs::Both::highest_and, crate::proofs::Both::lowest_and))]
fn common(bitmap: u32, mask: u32) -> u32
    ensures value { result ≡ bit_and bitmap mask }
    ensures high { highest 32 (bit result) ≡ highest 32 (λ b. bit bitmap b && bit mask b) }
    ensures low { lowest 32 (bit result) ≡ lowest 32 (λ b. bit bitmap b && bit mask b) }
{
    bitmap & mask
}

#[tactic(auto, using(crate::proofs::Both::log2_highest))]
fn highest_bit(bits: u32) -> Option<u32>
    ensures below { IfSome result (λ b. b < 32) }
    ensures bit { result ≡ highest 32 (bit bits) }
{
    bits.checked_ilog2()
}

#[tactic(auto, using(crate::proofs::Both::zero_lowest, crate::proofs::Both::trailing_lowest))]
fn lowest_bit(bits: u32) -> Option<u32>
    ensures below { IfSome result (λ b. b < 32) }
    ensures bit { result ≡ lowest 32 (bit bits) }
{
    (bits != 0).then_some(bits.trailing_zeros())
}
