// The slots of a tier both of whose halves are set, from the bits one tier down.
ghost use Rattle.aggregate.specs.Steps.{folded, folded_in};
ghost use Rattle.slots.specs.Masks.{mask};
ghost use Rattle.std.specs.Prelude.{◌≡◌};

// The child slots to bits 15..30.
#[tactic(auto, using(crate::proofs::Terms::fold_in_is))]
pub(crate) fn fold_children(m: u32) -> u32
    ensures { result ≡ mask (folded_in m) }
{
    let p = m & (m >> 1) & 0x5555_5555;
    let p = (p | (p >> 1)) & 0x3333_3333;
    let p = (p | (p >> 2)) & 0x0f0f_0f0f;
    let p = (p | (p >> 4)) & 0x00ff_00ff;
    ((p | (p >> 8)) & 0x0000_ffff) << 15
}

// Bits 15..30 to bits 7..14.
#[tactic(auto, using(crate::proofs::Terms::fold_is))]
pub(crate) fn fold_l4(m: u32) -> u32
    ensures { result ≡ mask (folded 3 m) }
{
    let s = m >> 8;
    let p = s & (s >> 1) & (0x5555 << 7);
    let p = (p | (p >> 1)) & (0x3333 << 7);
    let p = (p | (p >> 2)) & (0x0f0f << 7);
    (p | (p >> 4)) & (0x00ff << 7)
}

// Bits 7..14 to bits 3..6.
#[tactic(auto, using(crate::proofs::Terms::fold_is))]
pub(crate) fn fold_l3(m: u32) -> u32
    ensures { result ≡ mask (folded 2 m) }
{
    let s = m >> 4;
    let p = s & (s >> 1) & (0x55 << 3);
    let p = (p | (p >> 1)) & (0x33 << 3);
    (p | (p >> 2)) & (0x0f << 3)
}

// Bits 3..6 to bits 1..2.
#[tactic(auto, using(crate::proofs::Terms::fold_is))]
pub(crate) fn fold_l2(m: u32) -> u32
    ensures { result ≡ mask (folded 1 m) }
{
    let s = m >> 2;
    let p = s & (s >> 1) & (0x5 << 1);
    (p | (p >> 1)) & (0x3 << 1)
}

// Bits 1..2 to bit 0.
#[tactic(auto, using(crate::proofs::Terms::fold_top_is))]
pub(crate) fn fold_l1(m: u32) -> u32
    ensures { result ≡ mask (folded 0 m) }
{
    (m >> 1) & (m >> 2) & 1
}
