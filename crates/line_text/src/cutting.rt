ghost use Rattle.std.specs.Prelude.{◌≡◌, ◌<◌, ◌==◌, ◌∷◌, [], IfSome, IfNone, length, position};
ghost use Rattle.std.specs.List.{slice_split};
ghost use Rattle.line_text.specs.Lines.{lines_in};
ghost use Rattle.line_text.specs.InnerRows.{Gives, IsPast, fields_left, next_of};

use crate::kind::RowFault;

/// The place of the first byte `at` among those from place `from` on.
fn position_from(text: &[u8], at: u8, from: usize) -> Option<usize>
    requires { IsPast at text.now from }
    ensures { result ≡ position (λ c. c == at) text.now }
{
    let mut k = from;
    while k < text.len() {
        if text[k] == at {
            return Some(k);
        }
        k += 1;
    }
    None
}

/// The place of the first byte `at`. It looks at four bytes a turn.
fn position_of(text: &[u8], at: u8) -> Option<usize>
    ensures { result ≡ position (λ c. c == at) text.now }
{
    let mut k = 0;
    while text.len() - k >= 4 {
        if text[k] == at {
            return Some(k);
        }
        if text[k + 1] == at {
            return Some(k + 1);
        }
        if text[k + 2] == at {
            return Some(k + 2);
        }
        if text[k + 3] == at {
            return Some(k + 3);
        }
        k += 4;
    }
    position_from(text, at, k)
}

/// What comes before the first byte `at`, and what comes after it, if there is one.
pub fn cut(text: &[u8], at: u8) -> (&[u8], Option<&[u8]>)
    ensures none { IfNone result.1 (slice_split (λ c. c == at) text.now ≡ result.0.now ∷ []) }
    ensures some { IfSome result.1 (λ rest. slice_split (λ c. c == at) text.now
        ≡ result.0.now ∷ slice_split (λ c. c == at) rest.now) }
    ensures whole { IfNone result.1 (result.0.now ≡ text.now) }
    ensures shorter { IfSome result.1 (λ rest. length rest.now < length text.now) }
{
    match position_of(text, at) {
        None => (text, None),
        Some(k) => (&text[..k], Some(&text[k + 1..])),
    }
}

/// The next line, without its line feed, and what comes after it; `None` where no line feed is
/// left.
pub fn next_line(bytes: &[u8]) -> Option<(&[u8], &[u8])>
    ensures some { IfSome result (λ x. lines_in bytes.now ≡ x.0.now ∷ lines_in x.1.now) }
    ensures shorter { IfSome result (λ x. length x.1.now < length bytes.now) }
    ensures none { IfNone result (lines_in bytes.now ≡ bytes.now ∷ []) }
{
    let (line, rest) = cut(bytes, b'\n');
    match rest {
        Some(rest) => Some((line, rest)),
        None => None,
    }
}

/// The next field, which isn't empty, and what has the ones after it.
#[inline(always)]
#[tactic(auto, unfolding(crate::specs::InnerRows::next_of))]
pub fn next_field(rest: Option<&[u8]>) -> Result<(&[u8], Option<&[u8]>), RowFault>
    ensures { Gives (λ x. (x.0.now, fields_left x.1)) result (next_of (fields_left rest.entry)) }
{
    let Some(text) = rest else {
        return Err(RowFault::Fields);
    };
    let (field, rest) = cut(text, b' ');
    if field.is_empty() {
        return Err(RowFault::Fields);
    }
    Ok((field, rest))
}

/// Whether no field is left.
#[tactic(auto, using(crate::proofs::Cuts::some_field))]
pub fn no_field(rest: Option<&[u8]>) -> bool
    ensures { result ≡ (length (fields_left rest.entry) == 0) }
{
    match rest {
        None => true,
        Some(_) => false,
    }
}
