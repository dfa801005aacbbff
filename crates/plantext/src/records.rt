// Records, and the text as a whole.
ghost use Rattle.std.specs.Prelude.{[], ◌≡◌, ◌*◌, length, option_map};
ghost use Rattle.plantext.specs.Values as values;

use crate::scan::{read_field, skip};

// A mark stands before each item but the first.
#[tactic(auto, unfolding(crate::specs::Values::skip))]
fn item_start<'a>(text: &'a [u8], mark: &[u8], k: usize) -> Option<&'a [u8]>
    ensures { option_map (λ rest. ([], rest.now)) result ≡ values.skip (values.before mark.now k) text.now }
{
    if k == 0 {
        return Some(text);
    }
    skip(text, mark)
}

// A record, one value to each place of the row.
#[tactic(auto, using(crate::proofs::SeriesLaws::no_mark, crate::proofs::SeriesLaws::no_item, crate::proofs::SeriesLaws::field_next), unfolding(crate::specs::Values::series))]
fn read_record<'a>(text: &'a [u8], row: &mut [u16]) -> Option<&'a [u8]>
    ensures { option_map (λ rest. (row.new, rest.now)) result ≡ values.record_of (length row.old) text.now }
{
    let mut rest = text;
    for (k, place) in row.iter_mut().enumerate() {
        (*place, rest) = read_field(item_start(rest, b",", k)?)?;
    }
    Some(rest)
}

// The records of n inputs, a row of the list to each. By number: of a list that `chunks_exact_mut` lent, a proof knows only the
// length.
#[tactic(auto, using(crate::proofs::SeriesLaws::no_mark, crate::proofs::RowLaws::no_record, crate::proofs::RowLaws::record_next), unfolding(crate::specs::Values::series))]
fn read_records<'a>(text: &'a [u8], n: usize, list: &mut [u16]) -> Option<&'a [u8]>
    requires { length list.old ≡ n * n }
    ensures { option_map (λ rest. (list.new, rest.now)) result ≡ values.records_of n text.now }
{
    let mut rest = text;
    for k in 0..n {
        let first = k * n;
        rest = read_record(item_start(rest, b"\r\n", k)?, &mut list[first..first + n])?;
    }
    Some(rest)
}

// Whether nothing is left of the text, or one CR LF.
#[tactic(auto, unfolding(crate::specs::Values::ends, crate::specs::Values::skip))]
fn ends(rest: &[u8]) -> bool
    ensures { result ≡ values.ends rest.now }
{
    matches!(rest, [] | [b'\r', b'\n'])
}

// Puts the values of a text for n inputs into the list, if the text keeps to the rules.
#[tactic(auto, unfolding(crate::specs::Values::values_of))]
pub fn read_values(text: &[u8], n: usize, list: &mut [u16]) -> Option<()>
    requires { length list.old ≡ n * n }
    ensures { option_map (λ read. list.new) result ≡ values.values_of n text.now }
{
    let rest = read_records(text, n, list)?;
    ends(rest).then_some(())
}
