ghost use Rattle.accept.specs.Images.{nodes_of, values_of, width_of};
ghost use Rattle.nodes.specs.Faults.{number, outcome};
ghost use Rattle.query.specs.Replies.{IsReply, belongs, match_text, query_len, refusal_text};
ghost use Rattle.query.specs.declared.reply.Refusal.TheVariants.{Fault};
ghost use Rattle.register.specs.Laws.{RegisterLaws};
ghost use Rattle.requests.specs.Requests.{value_answer, value_of};
ghost use Rattle.std.specs.Prelude.{◌≡◌, ◌≤◌, IfSome, Some, is_some, min};

use crate::address::{Address, Style};
use crate::query::Query;
use crate::site::Site;
use accept::image::Image;
use keys::Key;
use matches::{get_lpm, value};
use nodes::error::ArchiveError;
use prefix::pair::Pair;
use std::error::Error;
use std::fmt;

// A block that an image has, with its place and the site there.
#[derive(Clone, Copy, PartialEq, Eq, Debug)]
pub struct Match {
    pub address: Address,
    pub len: u32,
    pub place: u32,
    pub site: Site,
}

// Why a query is refused: its key is none of the kind that it is asked with, or it has a fault.
#[derive(Clone, Copy, PartialEq, Eq, Debug)]
pub enum Refusal {
    Unfit,
    Fault(ArchiveError),
}

impl From<ArchiveError> for Refusal {
    ghost from_gives = { λ e r. r ≡ Fault e };

    fn from(e: ArchiveError) -> Refusal {
        Refusal::Fault(e)
    }
}

// Tells whether an address is written as a key of so many bits.
fn belongs(address: Address, bits: u32) -> bool
    requires { bits ≤ 64 }
    ensures { result ≡ belongs bits address.style address.key }
{
    let below = bits == 64 || address.key < 1 << bits;
    match address.style {
        Style::Number => below,
        Style::Quad => below && bits == 32,
    }
}

// The block that is asked for, where the key belongs. A length past 255 is refused as 255 is.
#[tactic(auto, using(crate::proofs::Replies::narrowed))]
fn query_block<K: Key + Drop>(query: Query) -> Option<Pair<K>>
    ensures belongs { is_some result ≡ belongs K.Key.width query.address.style query.address.key }
    ensures key { IfSome result (λ p. K.Key.num p.repr ≡ query.address.key) }
    ensures len { IfSome result (λ p. p.len ≡ min (query_len K.Key.width query) 255) }
{
    let bits = K::bits();
    if !belongs(query.address, bits) {
        return None;
    }
    Some(Pair {
        repr: K::narrow(query.address.key),
        len: query.len.unwrap_or(bits).min(255) as u8,
    })
}

// A block with its place and its site, its address in this style.
fn matched<K: Key + Drop>(style: Style, block: Pair<K>, place: u32, site: Site) -> Match
    ensures style { result.address.style ≡ style }
    ensures key { result.address.key ≡ K.Key.num block.repr }
    ensures len { result.len ≡ block.len }
    ensures place { result.place ≡ place }
    ensures site { result.site ≡ site }
{
    Match {
        address: Address {
            style,
            key: block.repr.widen(),
        },
        len: u32::from(block.len),
        place,
        site,
    }
}

// The site at a place of the image.
fn site_at(image: &Image<Site>, place: u32) -> Result<Site, ArchiveError>
    ensures site { outcome number result ≡ value_answer (value_of image.now place) }
    ensures register { RegisterLaws (width_of image.now) (nodes_of image.now) (values_of image.now) }
{
    Ok(*value(image, place)?)
}

// The reply to a query: the longest entry of the image that contains the query's block.
pub fn answer<K: Key + Drop>(image: &Image<Site>, query: Query) -> Result<Option<Match>, Refusal>
    ensures reply { IsReply K.Key.width image.now query result }
    ensures same { image.exit.now ≡ image.entry.now }
{
    let Some(asked) = query_block::<K>(query) else {
        return Err(Refusal::Unfit);
    };
    let Some((block, place)) = get_lpm(image, &asked)? else {
        return Ok(None);
    };
    let site = site_at(image, place)?;
    Ok(Some(matched(query.address.style, block, place, site)))
}

impl fmt::Display for Match {
    ghost output = { λ m. Some (match_text m) };

    fn fmt<W: fmt::Write>(&self, f: &mut fmt::Formatter<W>) -> fmt::Result {
        let Match {
            address,
            len,
            place,
            site,
        } = *self;
        write!(f, "{address}/{len} at place {place}: {site}")
    }
}

impl fmt::Display for Refusal {
    ghost output = { λ r. Some (refusal_text r) };

    fn fmt<W: fmt::Write>(&self, f: &mut fmt::Formatter<W>) -> fmt::Result {
        match self {
            Refusal::Unfit => f.write_str("fault 15, no key of this width"),
            Refusal::Fault(fault) => {
                let number = fault.number();
                write!(f, "fault {number}, {fault}")
            }
        }
    }
}

impl Error for Refusal {}
