ghost use Rattle.std.specs.Prelude.{◌≡◌, ◌+◌, ◌*◌, ◌^◌, ◌<◌, IfOk};
ghost use Rattle.shatter.specs.Splitting.{split_word, started, splitting_stores};

use gpi_values::Gpi;
use gpt_descriptors::{L1Entry, Size, encode_l1, granules_of};
use shared_words::Act;
use std::alloc::{AllocError, Global};

/// Word `j` of a block after its splitting around word `own`, by the definition.
fn slow_word(two: usize, own: usize, gpi: Gpi, j: usize) -> u64
    requires { (0 < two) × (16 * two < 2 ^ 64) }
    ensures { result ≡ split_word two own gpi j }
{
    if j / two == own / two {
        granules_of(gpi)
    } else if j / (16 * two) == own / (16 * two) {
        encode_l1(L1Entry::Contig(Size::Two, gpi))
    } else {
        encode_l1(L1Entry::Contig(Size::ThirtyTwo, gpi))
    }
}

/// All stores of a splitting, by the definition.
pub fn slow_stores(
    alloc: Global,
    first: usize,
    own: usize,
    gpi: Gpi,
    words: usize,
    two: usize,
) -> Result<Vec<Act>, AllocError>
    requires room { first + words < 2 ^ 64 }
    requires two { (0 < two) × (16 * two < 2 ^ 64) }
    ensures { IfOk result
        (λ acts. acts.items ≡ splitting_stores (started first own gpi words two)) }
{
    let mut acts = Vec::new(alloc);
    for j in 0..words {
        acts.push(Act::Store(first + j, slow_word(two, own, gpi, j)))?;
    }
    Ok(acts)
}
