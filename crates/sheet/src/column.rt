ghost use Rattle.std.specs.Prelude.{◌≡◌, ℕ, ◌/◌, ◌^◌, ◌≤◌, MatchOption};
ghost use Rattle.sheet.specs.Columns.{FitsColumn, ParsesFront, column, mark};
ghost use Rattle.sheet.specs.Digits.{with_digit, column_value};

// How many characters a column has.
pub const WIDTH: usize = 11;

// The character at place `j`, counted from the right, of the column of a number that is `rest` without
// the digits right of that place.
#[tactic(auto, using(crate::proofs::Places::rest_marked))]
fn mark_of(rest: u32, j: usize) -> u8
    ensures { (n : ℕ) → rest ≡ n / 10 ^ j → result ≡ mark n j }
{
    if j == 0 || rest > 0 {
        b'0' + (rest % 10) as u8
    } else {
        b' '
    }
}

// The column of `n`: its digits, with spaces before them.
#[tactic(auto, using(crate::proofs::Places::marked))]
pub fn format_column(n: u32) -> [u8; WIDTH]
    ensures { result ≡ column n }
{
    // The marks from the right to the left, each by one division by ten, and then turned round.
    let mut text = [b' '; WIDTH];
    let mut rest = n;
    for (j, place) in text.iter_mut().enumerate() {
        *place = mark_of(rest, j);
        rest /= 10;
    }
    text.reverse();
    text
}

// `value` with the digit `mark` set behind it, if that is below 2^32.
fn extend(value: u32, mark: u8) -> Option<u32>
    ensures { MatchOption result (2 ^ 32 ≤ with_digit value mark) (λ v. v ≡ with_digit value mark) }
{
    match mark {
        b'0'..=b'9' => value.checked_mul(10)?.checked_add(u32::from(mark - b'0')),
        _ => Some(value),
    }
}

// The number that the digits among these characters write, if a column can hold it.
#[tactic(auto, using(crate::proofs::Places::worth_grows))]
fn candidate(marks: &[u8; WIDTH]) -> Option<u32>
    ensures { MatchOption result (2 ^ 32 ≤ column_value 0 marks.now) (λ v. v ≡ column_value 0 marks.now) }
{
    marks.iter().copied().try_fold(0, extend)
}

// Reads a column from the front of a text.
#[tactic(auto, using(crate::proofs::Places::fronts), unfolding(crate::specs::Columns::BeginsWithNone))]
pub fn parse_column(text: &[u8]) -> Option<(u32, &[u8])>
    ensures column { ParsesFront FitsColumn column text.now result }
    ensures same { text.exit.now ≡ text.entry.now }
{
    let (marks, rest) = text.split_first_chunk::<WIDTH>()?;
    let n = candidate(marks)?;
    (*marks == format_column(n)).then_some((n, rest))
}
