// Matches on an accepted image, and the value at a place: each answers what the image's register says.
#![tactic(auto)]

ghost use Rattle.std.specs.Prelude.{◌≡◌, ◌≤◌, IfOk, IfSome, slice_get};
ghost use Rattle.accept.specs.Images.{nodes_of, values_of, width_of};
ghost use Rattle.descent.specs.Way.{entry_of, longest_on, place_on, shortest_on};
ghost use Rattle.keys.specs.Blocks.{block_of};
ghost use Rattle.nodes.specs.Faults.{number, outcome};
ghost use Rattle.register.specs.Entries.{exact, longest, shortest};
ghost use Rattle.register.specs.Laws.{MatchLaws, RegisterLaws};
ghost use Rattle.requests.specs.Requests.{block_and_place, entry_place, outcome_map, refusal, register_of, shown_block, unless_refused, value_answer, value_of};
ghost use Rattle.std.specs.Option.{option_map};

use accept::image::Image;
use descent::found::Found;
use descent::sought::Search;
use keys::Key;
use keys::wide::Wide;
use nodes::error::ArchiveError;
use prefix::Prefix;

// The place of the entry with the query's block.
#[tactic(auto, using(requests::proofs::Refusals::refused_too, crate::proofs::Images::image_matches))]
pub fn get<P: Prefix, T>(image: &Image<T>, q: &P) -> Result<Option<u32>, ArchiveError>
    ensures entry { outcome number result ≡ unless_refused (refusal (width_of image.now) P.R.Key.width (P.Prefix.shown q.now)) (entry_place (exact (shown_block (width_of image.now) P.Prefix.raw P.Prefix.shown q.now) (register_of image.now))) }
    ensures laws { MatchLaws (width_of image.now) (register_of image.now) }
    ensures same { (image.exit.now ≡ image.entry.now) × (q.exit.now ≡ q.entry.now) }
{
    let query = Search::new(image, q)?;
    Ok(exact_place(&query))
}

// The longest entry that contains the query's block, as a prefix of the query's kind, and its place.
#[inline(always)]
#[tactic(auto, using(requests::proofs::Refusals::refused_too, crate::proofs::Images::image_matches))]
pub fn get_lpm<P: Prefix, T>(image: &Image<T>, q: &P) -> Result<Option<(P, u32)>, ArchiveError>
    ensures entry { outcome_map (option_map (λ x. (shown_block (width_of image.now) P.Prefix.raw P.Prefix.shown x.0, x.1))) (outcome number result) ≡ unless_refused (refusal (width_of image.now) P.R.Key.width (P.Prefix.shown q.now)) (block_and_place (longest (width_of image.now) (shown_block (width_of image.now) P.Prefix.raw P.Prefix.shown q.now) (register_of image.now))) }
    ensures makes { IfOk result (λ found. IfSome found (λ x. P.Prefix.makes (shown_block (width_of image.now) P.Prefix.raw P.Prefix.shown x.0) x.0)) }
    ensures laws { MatchLaws (width_of image.now) (register_of image.now) }
    ensures same { (image.exit.now ≡ image.entry.now) × (q.exit.now ≡ q.entry.now) }
{
    let query = Search::new(image, q)?;
    Ok(made(q, longest_found(&query)))
}

// The shortest entry that contains the query's block, as a prefix of the query's kind, and its place.
#[inline(always)]
#[tactic(auto, using(requests::proofs::Refusals::refused_too, crate::proofs::Images::image_matches))]
pub fn get_spm<P: Prefix, T>(image: &Image<T>, q: &P) -> Result<Option<(P, u32)>, ArchiveError>
    ensures entry { outcome_map (option_map (λ x. (shown_block (width_of image.now) P.Prefix.raw P.Prefix.shown x.0, x.1))) (outcome number result) ≡ unless_refused (refusal (width_of image.now) P.R.Key.width (P.Prefix.shown q.now)) (block_and_place (shortest (width_of image.now) (shown_block (width_of image.now) P.Prefix.raw P.Prefix.shown q.now) (register_of image.now))) }
    ensures makes { IfOk result (λ found. IfSome found (λ x. P.Prefix.makes (shown_block (width_of image.now) P.Prefix.raw P.Prefix.shown x.0) x.0)) }
    ensures laws { MatchLaws (width_of image.now) (register_of image.now) }
    ensures same { (image.exit.now ≡ image.entry.now) × (q.exit.now ≡ q.entry.now) }
{
    let query = Search::new(image, q)?;
    Ok(made(q, shortest_found(&query)))
}

// What the three searches find, by the key's first bits.
#[inline(always)]
fn exact_place(query: &Search) -> Option<u32>
    ensures place { result ≡ place_on query.now.key.width query.now.nodes.now query.now.key.bits query.now.len }
{
    query.exact()
}

#[inline(always)]
fn longest_found(query: &Search) -> Option<Found>
    ensures found { result ≡ longest_on query.now.key.width query.now.nodes.now query.now.key.bits query.now.len }
{
    query.longest()
}

#[inline(always)]
fn shortest_found(query: &Search) -> Option<Found>
    ensures found { result ≡ shortest_on query.now.key.width query.now.nodes.now query.now.key.bits query.now.len }
{
    query.shortest()
}

// What was found: the query cut to its length, and its place.
fn made<P: Prefix>(q: &P, found: Option<Found>) -> Option<(P, u32)>
    requires { IfSome found (λ f. f.len ≤ P.R.Key.width) }
    ensures block { option_map (λ x. (shown_block P.R.Key.width P.Prefix.raw P.Prefix.shown x.0, x.1)) result ≡ option_map (entry_of P.R.Key.width (P.Prefix.raw q.now)) found }
    ensures makes { IfSome result (λ x. P.Prefix.makes (shown_block P.R.Key.width P.Prefix.raw P.Prefix.shown x.0) x.0) }
{
    let Found { place, len } = found?;
    Some((cut_to(q, len), place))
}

// A prefix of the query's kind, made of the block of the query's first bits, as many as the length.
fn cut_to<P: Prefix>(q: &P, len: u32) -> P
    requires { len ≤ P.R.Key.width }
    ensures block { shown_block P.R.Key.width P.Prefix.raw P.Prefix.shown result ≡ block_of P.R.Key.width (P.Prefix.raw q.now) len }
    ensures makes { P.Prefix.makes (shown_block P.R.Key.width P.Prefix.raw P.Prefix.shown result) result }
{
    let address = Wide::of(q.repr()).cut(len);
    P::from_repr_len(P::R::narrow(address), len as u8)
}

// The value at a place.
pub fn value<'a, T>(image: &Image<'a, T>, place: u32) -> Result<&'a T, ArchiveError>
    ensures value { outcome_map (λ v. v.now) (outcome number result) ≡ value_answer (value_of image.now place) }
    ensures register { RegisterLaws (width_of image.now) (nodes_of image.now) (values_of image.now) }
    ensures same { image.exit.now ≡ image.entry.now }
{
    value_in(register_values(image), place)
}

// The lent values, which the register of the image has.
fn register_values<'a, T>(image: &Image<'a, T>) -> &'a [T]
    ensures lent { result.now ≡ values_of image.now }
    ensures register { RegisterLaws (width_of image.now) (nodes_of image.now) (values_of image.now) }
{
    image.values()
}

// The value at a place of the list.
#[tactic(auto, using(crate::proofs::Images::got_value))]
fn value_in<T>(values: &[T], place: u32) -> Result<&T, ArchiveError>
    ensures { outcome_map (λ v. v.now) (outcome number result) ≡ value_answer (slice_get values.now place) }
{
    values.get(place as usize).ok_or(ArchiveError::NoSuchPlace)
}
