ghost use Rattle.std.specs.Prelude.{◌≡◌, ◌≤◌, ◌∷◌, [], IfOk, length};
ghost use Rattle.std.specs.Result.{result_err};
ghost use Rattle.line_text.specs.Rows.{row_fault};
ghost use Rattle.line_text.specs.InnerRows.{kinds_in, fields_left, has_fields, FitsPrefix, kind_in, ok_padded, read_values, read_row, spell};

use crate::cutting::{next_field, no_field};
use crate::kind::{FieldKind, RowFault, value};

/// Whether there are that many fields, none of them empty. It takes the number of kinds and not the
/// kinds, so that these need no place in memory where they are known.
#[tactic(auto, using(crate::proofs::RowLemmas::no_more_fields, crate::proofs::RowLemmas::more_fields))]
fn fits(count: usize, rest: Option<&[u8]>) -> bool
    ensures { result ≡ has_fields count (fields_left rest.entry) }
{
    if count == 0 {
        return no_field(rest);
    }
    match next_field(rest) {
        Ok((_, rest)) => fits(count - 1, rest),
        Err(_) => false,
    }
}

/// That no field is left.
#[inline(always)]
#[tactic(auto, unfolding(crate::specs::InnerRows::read_values))]
fn none(rest: Option<&[u8]>) -> Result<[u64; 0], RowFault>
    ensures { result ≡ read_values [] (fields_left rest.entry) }
{
    if no_field(rest) {
        Ok([])
    } else {
        Err(RowFault::Fields)
    }
}

/// The value of the only field that is left.
#[inline(always)]
#[tactic(auto, unfolding(crate::specs::InnerRows::read_values))]
fn one(a: &FieldKind, rest: Option<&[u8]>) -> Result<[u64; 1], RowFault>
    ensures { result ≡ read_values (kind_in a.now ∷ []) (fields_left rest.entry) }
{
    let (field, rest) = next_field(rest)?;
    let first = value(a, field)?;
    none(rest)?;
    Ok([first])
}

#[inline(always)]
#[tactic(auto, unfolding(crate::specs::InnerRows::read_values))]
fn two(a: &FieldKind, b: &FieldKind, rest: Option<&[u8]>) -> Result<[u64; 2], RowFault>
    ensures { result ≡ read_values (kind_in a.now ∷ kind_in b.now ∷ []) (fields_left rest.entry) }
{
    let (field, rest) = next_field(rest)?;
    let first = value(a, field)?;
    let [second] = one(b, rest)?;
    Ok([first, second])
}

#[inline(always)]
#[tactic(auto, unfolding(crate::specs::InnerRows::read_values))]
fn three(
    a: &FieldKind,
    b: &FieldKind,
    c: &FieldKind,
    rest: Option<&[u8]>,
) -> Result<[u64; 3], RowFault>
    ensures { result ≡ read_values (kind_in a.now ∷ kind_in b.now ∷ kind_in c.now ∷ [])
        (fields_left rest.entry) }
{
    let (field, rest) = next_field(rest)?;
    let first = value(a, field)?;
    let [second, third] = two(b, c, rest)?;
    Ok([first, second, third])
}

#[tactic(auto, unfolding(crate::specs::InnerRows::read_values))]
fn four(
    a: &FieldKind,
    b: &FieldKind,
    c: &FieldKind,
    d: &FieldKind,
    rest: Option<&[u8]>,
) -> Result<[u64; 4], RowFault>
    ensures { result ≡ read_values
        (kind_in a.now ∷ kind_in b.now ∷ kind_in c.now ∷ kind_in d.now ∷ [])
        (fields_left rest.entry) }
{
    let (field, rest) = next_field(rest)?;
    let first = value(a, field)?;
    let [second, third, fourth] = three(b, c, d, rest)?;
    Ok([first, second, third, fourth])
}

/// The values of some fields, or the fault of the first bad field. It has no loop, so that a row
/// whose kinds are known where it is called is read by code for these kinds alone.
#[inline(always)]
fn values(kinds: &[FieldKind], rest: Option<&[u8]>) -> Result<[u64; 4], RowFault>
    requires { length kinds.now ≤ 4 }
    ensures { result ≡ ok_padded (read_values (kinds_in kinds.now) (fields_left rest.entry)) }
{
    match kinds {
        [] => {
            none(rest)?;
            Ok([0; 4])
        }
        [a] => {
            let [first] = one(a, rest)?;
            Ok([first, 0, 0, 0])
        }
        [a, b] => {
            let [first, second] = two(a, b, rest)?;
            Ok([first, second, 0, 0])
        }
        [a, b, c] => {
            let [first, second, third] = three(a, b, c, rest)?;
            Ok([first, second, third, 0])
        }
        [a, b, c, d] => four(a, b, c, d, rest),
        _ => unreachable!(),
    }
}

/// The values of a row, or its fault: the shape is looked at again only where a field is bad.
#[inline(always)]
fn read(kinds: &[FieldKind], rest: Option<&[u8]>) -> Result<[u64; 4], RowFault>
    requires { length kinds.now ≤ 4 }
    ensures { result ≡ ok_padded (read_row (kinds_in kinds.now) (fields_left rest.entry)) }
{
    match values(kinds, rest) {
        Ok(values) => Ok(values),
        Err(fault) if fits(kinds.len(), rest) => Err(fault),
        Err(_) => Err(RowFault::Fields),
    }
}

/// The values of the fields that are left of a line, with zeros after them. Time is linear in them.
#[inline(always)]
#[tactic(auto, using(crate::proofs::RowLemmas::row_faulty))]
pub fn row(kinds: &[FieldKind], rest: Option<&[u8]>) -> Result<[u64; 4], RowFault>
    requires { length kinds.now ≤ 4 }
    ensures read { result ≡ ok_padded (read_row (kinds_in kinds.now) (fields_left rest.entry)) }
    ensures fits { IfOk result (λ values. FitsPrefix (kinds_in kinds.now) values) }
    // What is read is spelled so.
    ensures spelled { IfOk result
        (λ values. fields_left rest.entry ≡ spell (kinds_in kinds.now) values) }
    // Its fault is that of its first bad field.
    ensures fault { result_err result ≡ row_fault (kinds_in kinds.now) (fields_left rest.entry) }
{
    read(kinds, rest)
}
