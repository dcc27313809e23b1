// Whether every address of a block is matched, and how many addresses are: each answers what the
// image's register says, at every width without losing a bit.
#![tactic(auto)]

ghost use Rattle.std.specs.Prelude.{◌≡◌, ◌^◌, ◌≤◌};
ghost use Rattle.accept.specs.Images.{width_of};
ghost use Rattle.addresses.specs.Addresses.{covered, matched_addresses};
ghost use Rattle.addresses.specs.Laws.{AddressLaws};
ghost use Rattle.coverage.specs.Counts.{address_count as matched_count, count_of};
ghost use Rattle.requests.specs.Requests.{refusal, register_of, shown_block, unless_refused};
ghost use Rattle.nodes.specs.Faults.{number, outcome};

use accept::image::Image;
use block::block_covered;
use count::address_count_at;
use descent::sought::Search;
use nodes::error::ArchiveError;
use prefix::Prefix;

mod block;
mod count;
mod masks;

// How many addresses are matched: a number, or all of them, which no number stands for.
#[derive(Clone, Copy, PartialEq, Eq, Debug)]
pub enum AddressCount {
    Number(u64),
    Whole,
}

// Whether each address of the query's block is matched.
#[tactic(auto, using(requests::proofs::Refusals::refused_too))]
#[inline(always)]
pub fn is_covered_in_aggregate<P: Prefix, T>(image: &Image<T>, q: &P) -> Result<bool, ArchiveError>
    ensures block { outcome number result ≡ unless_refused (refusal (width_of image.now) P.R.Key.width (P.Prefix.shown q.now)) (covered (width_of image.now) (shown_block (width_of image.now) P.Prefix.raw P.Prefix.shown q.now) (register_of image.now)) }
    ensures addresses { AddressLaws (width_of image.now) (register_of image.now) }
    ensures same { (image.exit.now ≡ image.entry.now) × (q.exit.now ≡ q.entry.now) }
{
    let query = Search::new(image, q)?;
    Ok(block_covered(&query))
}

// How many addresses of the whole key space are matched.
#[tactic(auto, using(crate::proofs::Images::image_addresses))]
pub fn address_count<T>(image: &Image<T>) -> AddressCount
    ensures count { result ≡ matched_count (width_of image.now) (register_of image.now) }
    ensures addresses { AddressLaws (width_of image.now) (register_of image.now) }
    ensures same { image.exit.now ≡ image.entry.now }
{
    counted(matched_addresses(image), image.width())
}

// As a number of 128 bits, which has room for all of 64.
fn matched_addresses<T>(image: &Image<T>) -> u128
    ensures matched { result ≡ matched_addresses (width_of image.now) (register_of image.now) }
    ensures most { result ≤ 2 ^ (width_of image.now) }
    ensures narrow { (width_of image.now) ≤ 64 }
{
    address_count_at(image.nodes(), 0, image.width())
}

// A number of addresses of so many bits as an answer.
#[tactic(auto, using(crate::proofs::Totals::whole_is, crate::proofs::Totals::number_is, crate::proofs::Totals::number_fits))]
fn counted(matched: u128, width: u32) -> AddressCount
    requires most { matched ≤ 2 ^ width }
    requires narrow { width ≤ 64 }
    ensures { result ≡ count_of matched (2 ^ width) }
{
    if matched == 1 << width {
        AddressCount::Whole
    } else {
        AddressCount::Number(matched as u64)
    }
}
