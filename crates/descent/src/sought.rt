// Searches in the nodes of an accepted image.
ghost use Rattle.std.specs.Prelude.{◌≡◌, ◌^◌, ◌<◌, ◌≤◌};
ghost use Rattle.tree.specs.Levels.{data_ones};
ghost use Rattle.tree.specs.Verdict.{Accepted};

use accept::image::Image;
use keys::wide::Wide;
use nodes::error::ArchiveError;
use nodes::node::Node;
use prefix::Prefix;
use requests::admit;

// The nodes of an image, a key of its width, and how many of the key's first bits are sought.
#[derive(Clone, Copy)]
pub struct Search<'a> {
    pub nodes: &'a [Node],
    pub key: Wide,
    pub len: u32,
    ghost accepted: { Accepted key.width nodes.now (data_ones nodes.now) },
    ghost narrow: { key.width ≤ 64 },
    ghost below: { key.bits < 2 ^ key.width },
    ghost short: { len ≤ key.width },
}

impl<'a> Search<'a> {
    ghost use Rattle.accept.specs.Images.{width_of};
    ghost use Rattle.descent.specs.Searches.{sought_by, sought_in};
    ghost use Rattle.nodes.specs.Faults.{number, outcome};
    ghost use Rattle.requests.specs.Requests.{outcome_map, refusal, unless_refused};

    // The search for a prefix's key and length, where the image may be asked for them.
    pub fn new<P: Prefix, T>(image: &Image<'a, T>, q: &P) -> Result<Search<'a>, ArchiveError>
        ensures sought { outcome_map sought_by (outcome number result) ≡ unless_refused (refusal (width_of image.now) P.R.Key.width (P.Prefix.shown q.now)) (sought_in image.now (P.Prefix.raw q.now) (P.Prefix.shown q.now)) }
        ensures same { (image.exit.now ≡ image.entry.now) × (q.exit.now ≡ q.entry.now) }
    {
        let len = admit(image, q)?;
        Ok(Search {
            nodes: image.nodes(),
            key: Wide::of(q.repr()),
            len,
        })
    }
}
