ghost use Rattle.std.specs.Prelude.{◌≡◌, ◌==◌, position};
ghost use Rattle.std.specs.List.{list_any};
ghost use Rattle.std.specs.Str.{bytes_eq};
ghost use Rattle.line_text.specs.Rows.{is_in};
ghost use Rattle.line_text.specs.InnerRows.{range_in, names_in, kind_in, ranged, read_field};

use crate::numeral::{address_of, count_of};

/// The numbers that a field may have.
#[derive(Clone, Copy, Debug)]
pub enum Range {
    /// Each number below 2^64.
    Any,
    /// From the first to the last, both included.
    Between(u64, u64),
    /// Below a limit.
    Below(u64),
    /// One of these.
    Among(&'static [u64]),
}

/// What a field has to be.
#[derive(Clone, Copy, Debug)]
pub enum FieldKind {
    /// Decimal digits without a leading zero.
    Count(Range),
    /// 0x and hexadecimal digits without a leading zero.
    Address(Range),
    /// One of these names. Its value is the name's place among them, counted from 0.
    Name(&'static [&'static str]),
}

/// What is wrong with the fields of a row: `Fields` first, then the first bad field from the left.
#[derive(Clone, Copy, Debug, PartialEq, Eq)]
pub enum RowFault {
    /// The number of fields is wrong, or a field is empty.
    Fields,
    /// A field should be a count or an address and isn't spelled as one.
    Number,
    /// A field is spelled rightly and isn't in its range, or isn't one of its names.
    Value,
}

/// Whether a number is in a range.
#[inline(always)]
fn within(range: &Range, number: u64) -> bool
    ensures { result ≡ is_in (range_in range.now) number }
{
    match *range {
        Range::Any => true,
        Range::Between(first, last) => first <= number && number <= last,
        Range::Below(limit) => number < limit,
        Range::Among(values) => among(values, number),
    }
}

fn among(values: &[u64], number: u64) -> bool
    ensures { result ≡ list_any (λ value. number == value) values.now }
{
    values.iter().any(|value| number == *value)
}

/// The number of a field, if it has one and that is in its range.
#[inline(always)]
fn number(range: &Range, found: Option<u64>) -> Result<u64, RowFault>
    ensures { result ≡ ranged (range_in range.now) found }
{
    match found {
        None => Err(RowFault::Number),
        Some(number) if within(range, number) => Ok(number),
        Some(_) => Err(RowFault::Value),
    }
}

/// The place of a field among some names.
#[inline(always)]
fn place_of(names: &[&str], field: &[u8]) -> Option<usize>
    ensures { result ≡ position (bytes_eq field.now) (names_in names.now) }
{
    let mut k = 0;
    while k < names.len() {
        if field == names[k].as_bytes() {
            return Some(k);
        }
        k += 1;
    }
    None
}

/// The value of a field.
#[inline(always)]
pub fn value(kind: &FieldKind, field: &[u8]) -> Result<u64, RowFault>
    ensures { result ≡ read_field (kind_in kind.now) field.now }
{
    match kind {
        FieldKind::Count(range) => number(range, count_of(field)),
        FieldKind::Address(range) => number(range, address_of(field)),
        FieldKind::Name(names) => match place_of(names, field) {
            Some(place) => Ok(place as u64),
            None => Err(RowFault::Value),
        },
    }
}
