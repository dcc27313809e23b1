// An accepted set, and the operations on it.
ghost use Rattle.std.specs.Prelude.{◌≡◌, take};

use crate::files::Lists;
use crate::op::Op;
use crate::tally::{Answer, Digest, Sum, Tally};
use accept::accept::accept;
use accept::image::Image;
use coverage::{AddressCount, address_count, is_covered_in_aggregate};
use keys::Key;
use matches::{get, get_lpm, get_spm, value};
use nodes::error::ArchiveError;
use nodes::node::Node;
use prefix::pair::Pair;
use std::mem::size_of_val;

#[derive(Drop)]
pub struct Bench<'a, K> {
    image: Image<'a, u32>,
    keys: &'a [K],
    // the lengths of the exact match; a set may have fewer of them than keys
    lens: &'a [u8],
}

// The first so many items, or all.
fn first<T>(items: &[T], limit: usize) -> &[T]
    ensures { result.now ≡ take limit items.now }
{
    items.get(..limit).unwrap_or(items)
}

// The whole key as a query.
#[inline(always)]
fn whole<K: Key>(key: K) -> Pair<K> {
    Pair {
        repr: key,
        len: K::bits() as u8,
    }
}

// How many keys the pass over wide blocks takes.
const WIDE_KEYS: usize = 1 << 17;

impl<'a, K: Key + Drop> Bench<'a, K> {
    // Accepts the lists under keys of this kind, and keeps the first so many keys.
    pub(crate) fn new(
        lists: &'a Lists,
        keys: &'a [K],
        limit: usize,
    ) -> Result<Bench<'a, K>, ArchiveError> {
        let nodes: &[Node] = &lists.nodes;
        let values: &[u32] = &lists.values;
        accept::<K, u32>(nodes, values)?;
        Ok(Bench {
            image: Image::new::<K>(nodes, values),
            keys: first(keys, limit),
            lens: first(&lists.lens, limit),
        })
    }

    // The bytes of the node list and of the value list.
    pub(crate) fn image_bytes(&self) -> usize {
        size_of_val(self.image.nodes()).saturating_add(size_of_val(self.image.values()))
    }

    // How many operations a whole pass has.
    pub(crate) fn number(&self, op: Op) -> usize {
        match op {
            Op::Acceptance => self.image.nodes().len(),
            Op::CoveredWide => first(self.keys, WIDE_KEYS).len(),
            Op::Count => 1,
            _ => self.keys.len(),
        }
    }

    // The tally of a pass over the first so many keys; acceptance and the count are always whole.
    pub(crate) fn pass<T: Tally>(&self, op: Op, limit: usize, start: T) -> Result<T, ArchiveError> {
        let keys = first(self.keys, limit);
        match op {
            Op::Acceptance => Ok(start.with(Some(self.verdict()))),
            Op::Exact => self.pass_exact(limit, start),
            Op::Longest => self.pass_longest(keys, start),
            Op::LongestValue => self.pass_longest_value(keys, start),
            Op::LongestValueChained => self.pass_chained(keys, start),
            Op::Shortest => self.pass_shortest(keys, start),
            Op::Covered => self.pass_covered(keys, (K::bits() * 3 / 4) as u8, start),
            Op::CoveredWide => self.pass_covered(keys, (K::bits() / 2) as u8, start),
            Op::Count => Ok(start.with(Some(self.count()))),
        }
    }

    // A pass takes the answers into the tally one after another, or answers the first fault. Nothing is
    // allocated. This one is of the keys that have a length: the two lists are cut to one number, so that
    // the compiler counts once for both. Without the hint the other passes take more instructions.
    #[inline(never)]
    fn pass_exact<T: Tally>(&self, limit: usize, start: T) -> Result<T, ArchiveError> {
        let image = &self.image;
        let keys = first(self.keys, limit);
        let lens = first(self.lens, limit);
        let mut tally = start;
        for (key, len) in first(keys, lens.len()).iter().zip(first(lens, keys.len())) {
            let query = Pair {
                repr: *key,
                len: *len,
            };
            let answer = match get(image, &query)? {
                None => None,
                Some(place) => Some(Answer::Value(*value(image, place)?)),
            };
            tally = tally.with(answer);
        }
        Ok(tally)
    }

    fn pass_longest<T: Tally>(&self, keys: &[K], start: T) -> Result<T, ArchiveError> {
        let mut tally = start;
        for key in keys {
            tally = tally.with(self.longest(*key)?);
        }
        Ok(tally)
    }

    fn pass_longest_value<T: Tally>(&self, keys: &[K], start: T) -> Result<T, ArchiveError> {
        let mut tally = start;
        for key in keys {
            tally = tally.with(self.longest_value(*key)?);
        }
        Ok(tally)
    }

    // Each key waits for the answer before it: the bits of the tally that `zero` has are turned in it.
    // There are none, which the compiler does not know.
    fn pass_chained<T: Tally>(&self, keys: &[K], start: T) -> Result<T, ArchiveError> {
        let zero = self.zero();
        let mut tally = start;
        for key in keys {
            let turned = K::narrow(key.widen() ^ (tally.number() & zero));
            tally = tally.with(self.longest_value(turned)?);
        }
        Ok(tally)
    }

    fn pass_shortest<T: Tally>(&self, keys: &[K], start: T) -> Result<T, ArchiveError> {
        let mut tally = start;
        for key in keys {
            tally = tally.with(self.shortest(*key)?);
        }
        Ok(tally)
    }

    // Of the blocks that the keys are in at this length.
    fn pass_covered<T: Tally>(&self, keys: &[K], len: u8, start: T) -> Result<T, ArchiveError> {
        let mut tally = start;
        for key in keys {
            tally = tally.with(self.covered(*key, len)?);
        }
        Ok(tally)
    }

    // The root's data index: 0 in an accepted image, which the compiler does not know.
    fn zero(&self) -> u64 {
        self.image
            .nodes()
            .first()
            .map_or(0, |root| u64::from(root.data_idx))
    }

    fn verdict(&self) -> Answer {
        Answer::Verdict {
            refused: accept::<K, u32>(self.image.nodes(), self.image.values()).is_err(),
        }
    }

    // Without the hint a call of a key stays a call, and a pass takes up to half as many instructions
    // again.
    #[inline(always)]
    fn longest(&self, key: K) -> Result<Option<Answer>, ArchiveError> {
        match get_lpm(&self.image, &whole(key))? {
            None => Ok(None),
            Some((prefix, place)) => self.entry_at(prefix, place),
        }
    }

    #[inline(always)]
    fn longest_value(&self, key: K) -> Result<Option<Answer>, ArchiveError> {
        match get_lpm(&self.image, &whole(key))? {
            None => Ok(None),
            Some((_, place)) => self.value_at(place),
        }
    }

    #[inline(always)]
    fn shortest(&self, key: K) -> Result<Option<Answer>, ArchiveError> {
        match get_spm(&self.image, &whole(key))? {
            None => Ok(None),
            Some((prefix, place)) => self.entry_at(prefix, place),
        }
    }

    #[inline(always)]
    fn covered(&self, key: K, len: u8) -> Result<Option<Answer>, ArchiveError> {
        let covered = is_covered_in_aggregate(&self.image, &Pair { repr: key, len })?;
        Ok(Some(Answer::Covered(covered)))
    }

    fn count(&self) -> Answer {
        Answer::Count(match address_count(&self.image) {
            AddressCount::Number(count) => count,
            AddressCount::Whole => u64::MAX,
        })
    }

    #[inline(always)]
    fn value_at(&self, place: u32) -> Result<Option<Answer>, ArchiveError> {
        Ok(Some(Answer::Value(*value(&self.image, place)?)))
    }

    #[inline(always)]
    fn entry_at(&self, prefix: Pair<K>, place: u32) -> Result<Option<Answer>, ArchiveError> {
        Ok(Some(Answer::Entry {
            address: prefix.repr.widen(),
            len: prefix.len,
            value: *value(&self.image, place)?,
        }))
    }
}

// A set with keys of one of the two widths.
#[derive(Drop)]
pub enum AnyBench<'a> {
    Bits32(Bench<'a, u32>),
    Bits64(Bench<'a, u64>),
}

impl<'a> AnyBench<'a> {
    pub(crate) fn image_bytes(&self) -> usize {
        match self {
            AnyBench::Bits32(bench) => bench.image_bytes(),
            AnyBench::Bits64(bench) => bench.image_bytes(),
        }
    }

    pub(crate) fn number(&self, op: Op) -> usize {
        match self {
            AnyBench::Bits32(bench) => bench.number(op),
            AnyBench::Bits64(bench) => bench.number(op),
        }
    }

    // The sum of a pass over the first so many keys.
    pub(crate) fn sum(&self, op: Op, limit: usize) -> Result<u64, ArchiveError> {
        match self {
            AnyBench::Bits32(bench) => Ok(bench.pass(op, limit, Sum(0))?.number()),
            AnyBench::Bits64(bench) => Ok(bench.pass(op, limit, Sum(0))?.number()),
        }
    }

    // The hash of a pass over the first so many keys.
    pub(crate) fn hash(&self, op: Op, limit: usize) -> Result<u64, ArchiveError> {
        match self {
            AnyBench::Bits32(bench) => Ok(bench.pass(op, limit, Digest::new())?.number()),
            AnyBench::Bits64(bench) => Ok(bench.pass(op, limit, Digest::new())?.number()),
        }
    }
}
