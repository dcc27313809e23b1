ghost use Rattle.query.specs.Spellings.{FitsNumber, ParsesWhole, is_signed_or_padded};
ghost use Rattle.std.specs.Prelude.{◌≡◌, decimal};

use nodes::error::ArchiveError;

// Tells whether a text begins with a plus, or with a zero before more digits: std's parse takes both.
fn is_signed_or_padded(text: &str) -> bool
    ensures { result ≡ is_signed_or_padded text.now }
{
    text.starts_with('+') || text.len() > 1 && text.starts_with('0')
}

// Reads a number below 2^32, written without leading zeros.
#[tactic(auto, using(crate::proofs::Figures::number_read, crate::proofs::Figures::number_unread, crate::proofs::Figures::number_padded))]
pub fn parse_number(text: &str) -> Result<u32, ArchiveError>
    ensures parsed { ParsesWhole FitsNumber decimal text.now result }
    ensures same { text.exit.now ≡ text.entry.now }
{
    if is_signed_or_padded(text) {
        return Err(ArchiveError::SheetMalformed);
    }
    text.parse().map_err(|_| ArchiveError::SheetMalformed)
}
