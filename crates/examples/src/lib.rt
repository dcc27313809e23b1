// The worked examples of the documentation, as theorems about the definitions.
#![tactic(auto)]

ghost use Rattle.examples.specs.Acceptance.{AcceptedLists, RefusedLists};
ghost use Rattle.examples.specs.Addresses.{Addresses};
ghost use Rattle.examples.specs.Matches.{Matches, Registers};
ghost use Rattle.std.specs.Prelude.{◌≡◌};

// How many examples are stated here, all of which hold.
#[tactic(auto, unfolding(nodes::specs::Bitmaps::ones32))]
pub fn examples_stand() -> u32
    ensures accepted { AcceptedLists }
    ensures refusals { RefusedLists }
    ensures registers { Registers }
    ensures matches { Matches }
    ensures addresses { Addresses }
    ensures count { result ≡ 23 }
{
    23
}
