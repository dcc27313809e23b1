// A tier's bits copied into both halves of each slot, one tier down.
ghost use Rattle.aggregate.specs.Steps.{pushed, pushed_out};
ghost use Rattle.slots.specs.Masks.{mask};
ghost use Rattle.std.specs.Prelude.{◌≡◌};

// Bit 0 to bits 1..2.
#[tactic(auto, using(crate::proofs::Terms::push_is))]
pub(crate) fn push_l0(m: u32) -> u32
    ensures { result ≡ mask (pushed 1 m) }
{
    let s = (m & 0b1) << 1;
    s | (s << 1)
}

// Bits 1..2 to bits 3..6.
#[tactic(auto, using(crate::proofs::Terms::push_is))]
pub(crate) fn push_l1(m: u32) -> u32
    ensures { result ≡ mask (pushed 2 m) }
{
    let s = (m & 0b110) << 2;
    let e = (s | (s << 1)) & (0x5 << 3);
    e | (e << 1)
}

// Bits 3..6 to bits 7..14.
#[tactic(auto, using(crate::proofs::Terms::push_is))]
pub(crate) fn push_l2(m: u32) -> u32
    ensures { result ≡ mask (pushed 3 m) }
{
    let s = (m & (0xf << 3)) << 4;
    let e = (s | (s << 2)) & (0x33 << 7);
    let e = (e | (e << 1)) & (0x55 << 7);
    e | (e << 1)
}

// Bits 7..14 to bits 15..30.
#[tactic(auto, using(crate::proofs::Terms::push_is))]
pub(crate) fn push_l3(m: u32) -> u32
    ensures { result ≡ mask (pushed 4 m) }
{
    let s = (m & (0xff << 7)) << 8;
    let e = (s | (s << 4)) & (0x0f0f << 15);
    let e = (e | (e << 2)) & (0x3333 << 15);
    let e = (e | (e << 1)) & (0x5555 << 15);
    e | (e << 1)
}

// Bits 15..30 to the child slots. Bit 31 is no slot, and marks none.
#[tactic(auto, using(crate::proofs::Terms::push_out_is))]
pub(crate) fn push_l4(m: u32) -> u32
    ensures { result ≡ mask (pushed_out m) }
{
    let p = (m >> 15) & 0xffff;
    let e = (p | (p << 8)) & 0x00ff_00ff;
    let e = (e | (e << 4)) & 0x0f0f_0f0f;
    let e = (e | (e << 2)) & 0x3333_3333;
    let e = (e | (e << 1)) & 0x5555_5555;
    e | (e << 1)
}
