// What may be asked of an image: the test that every query passes first, 13 before 12, and the words
// for answers.
#![tactic(auto)]

ghost use Rattle.std.specs.Prelude.{◌≡◌};
ghost use Rattle.accept.specs.Images.{width_of};
ghost use Rattle.nodes.specs.Faults.{number, outcome};
ghost use Rattle.requests.specs.Requests.{refusal, unless_refused};

use accept::image::Image;
use keys::Key;
use nodes::error::ArchiveError;
use prefix::Prefix;

// The length of a prefix that may be asked of the image: its key is as wide as the image's keys,
// and it is no longer than they are.
pub fn admit<P: Prefix, T>(image: &Image<T>, q: &P) -> Result<u32, ArchiveError>
    ensures length { outcome number result ≡ unless_refused (refusal (width_of image.now) P.R.Key.width (P.Prefix.shown q.now)) (P.Prefix.shown q.now) }
    ensures same { (image.exit.now ≡ image.entry.now) × (q.exit.now ≡ q.entry.now) }
{
    if P::R::bits() != image.width() {
        return Err(ArchiveError::KeyWidthDiffers);
    }
    let len = u32::from(q.prefix_len());
    if len > image.width() {
        return Err(ArchiveError::LengthExceedsKey);
    }
    Ok(len)
}
