use super::find_size;
use fuse::{Fuse, Fused, steps_walk_the_script};
use gpi_values::Gpi;
use gpt_descriptors::{Geometry, MaxBlock, Setup, Size, granules_of, l0_good};
use shared_words::Act;
use std::alloc::Global;
use std::test::Fail;

/// 4 GB, whose first has a table, without processors.
fn one_table(max: MaxBlock) -> Option<Geometry> {
    let setup = Setup::new(4, max, 1, 0, 8, 1, 0x8000_0000)?;
    let l0 = [0x8000_0003, 0xf1, 0xf1, 0xf1];
    if l0_good(&setup, l0.as_slice()) {
        Some(Geometry::new(setup, 0, l0.as_slice()))
    } else {
        None
    }
}

/// The word of granule 4,128 * 16 + 5, whose 2 MB are the words from 4,128 on and whose 32 MB those
/// from 4,096 on.
const OWN: usize = 4129;

/// Word `w` of non-secure tables that are canonical apart from that granule, for a largest size.
fn apart_word(w: usize, max: MaxBlock) -> u64 {
    if w / 32 == OWN / 32 || !max.permits(Size::Two) {
        granules_of(Gpi::NonSecure)
    } else if w / 512 == OWN / 512 || !max.permits(Size::ThirtyTwo) {
        0x191
    } else if w / 8192 == OWN / 8192 || !max.permits(Size::FiveTwelve) {
        0x291
    } else {
        0x391
    }
}

fn apart_words(alloc: Global, max: MaxBlock) -> Result<Vec<u64>, Fail> {
    let mut words = Vec::new(alloc);
    for w in 0..16384 {
        words.push(apart_word(w, max))?;
    }
    Ok(words)
}

/// Makes one act on the L1 words, whose first has this place.
fn answer(words: &mut [u64], first: usize, act: Act) -> u64 {
    match act {
        Act::Load(place) if place >= first && place - first < words.len() => words[place - first],
        Act::Store(place, word) if place >= first && place - first < words.len() => {
            words[place - first] = word;
            0
        }
        _ => 0,
    }
}

/// Makes the next stores of merging as a run of at most this number, and gives their number.
fn store_run(fuse: &mut Fuse, words: &mut [u64], first: usize, most: usize) -> u64 {
    let run = fuse.take_run(most);
    for k in 0..run.count {
        answer(words, first, Act::Store(run.first + k, run.value));
    }
    run.count as u64
}

/// Merges around the word `OWN`, by runs of at most this number of stores, and gives the number of
/// acts and the outcome.
fn merge(geometry: &Geometry, words: &mut [u64], most: usize) -> Option<(u64, Fused)> {
    let pa = 0x1021_5000;
    if !geometry.inside(pa) || words.len() <= OWN {
        return None;
    }
    if geometry.l1_place(pa).is_none() {
        return None;
    }
    let mut fuse = Fuse::new(geometry, pa, words[OWN]);
    let mut made: u64 = 0;
    for _ in 0..10_000 {
        let stored = store_run(&mut fuse, words, geometry.first_l1_word(), most);
        made = made.saturating_add(stored);
        match fuse.next() {
            Some(act) => {
                let old = answer(words, geometry.first_l1_word(), act);
                fuse.took(old);
                made = made.saturating_add(1);
            }
            None => return Some((made, fuse.outcome())),
        }
    }
    None
}

fn words_of(fused: Option<Size>) -> usize {
    match fused {
        None => 0,
        Some(Size::Two) => 32,
        Some(Size::ThirtyTwo) => 512,
        Some(Size::FiveTwelve) => 8192,
    }
}

fn contiguous(fused: Option<Size>) -> u64 {
    match fused {
        None => 0,
        Some(Size::Two) => 0x191,
        Some(Size::ThirtyTwo) => 0x291,
        Some(Size::FiveTwelve) => 0x391,
    }
}

/// Whether the words after merging are those before, but for the block around the own word.
fn only_block(before: &[u64], after: &[u64], found: Option<Size>) -> bool {
    let n = words_of(found);
    for (w, (old, new)) in before.iter().zip(after.iter()).enumerate() {
        let inside = n > 0 && w / n == OWN / n;
        let want = if inside { contiguous(found) } else { *old };
        if *new != want {
            return false;
        }
    }
    before.len() == after.len()
}

/// The outcome of a size.
fn fused_of(found: Option<Size>) -> Fused {
    match found {
        Some(size) => Fused::To(size),
        None => Fused::No,
    }
}

/// Merges tables in which one word is replaced, by runs of at most this number of stores, and holds
/// it against the definition. It gives the outcome and the number of acts where all agrees.
fn merged(
    alloc: Global,
    max: MaxBlock,
    at: usize,
    word: u64,
    most: usize,
) -> Result<Option<(Fused, u64)>, Fail> {
    let geometry = one_table(max).ok_or("refused")?;
    let mut words = apart_words(alloc, max)?;
    if at < words.len() {
        words[at] = word;
    }
    let before = words.clone()?;
    let found = find_size(&geometry.setup(), before.as_slice(), OWN);
    match merge(&geometry, words.as_mut_slice(), most) {
        Some((acts, fused)) if fused == fused_of(found) => {
            if only_block(before.as_slice(), words.as_slice(), found) {
                Ok(Some((fused, acts)))
            } else {
                Ok(None)
            }
        }
        _ => Ok(None),
    }
}

/// The largest size, a word that is replaced, by which one, and what is merged in how many acts.
/// Non-secure words: 32 loads of the 2 MB, 15 for each larger size, and a store for each word of
/// the block.
const MERGES: [(MaxBlock, usize, u64, Fused, u64); 16] = [
    (
        MaxBlock::FiveTwelve,
        16384,
        0,
        Fused::To(Size::FiveTwelve),
        32 + 15 + 15 + 8192,
    ),
    (
        MaxBlock::ThirtyTwo,
        16384,
        0,
        Fused::To(Size::ThirtyTwo),
        32 + 15 + 512,
    ),
    (MaxBlock::Two, 16384, 0, Fused::To(Size::Two), 32 + 32),
    (MaxBlock::Zero, 16384, 0, Fused::No, 0),
    // The own word, mixed; the first and the last of its 2 MB.
    (
        MaxBlock::FiveTwelve,
        OWN,
        0x9999_9999_99b9_9999,
        Fused::No,
        0,
    ),
    (
        MaxBlock::FiveTwelve,
        4128,
        0x9999_9999_9999_999b,
        Fused::No,
        1,
    ),
    (
        MaxBlock::FiveTwelve,
        4159,
        0xb999_9999_9999_9999,
        Fused::No,
        32,
    ),
    // The first, the next and the last 2 MB of its 32 MB.
    (
        MaxBlock::FiveTwelve,
        4096,
        0x1b1,
        Fused::To(Size::Two),
        32 + 1 + 32,
    ),
    (
        MaxBlock::FiveTwelve,
        4160,
        0x9999_9999_9999_9999,
        Fused::To(Size::Two),
        32 + 2 + 32,
    ),
    (
        MaxBlock::ThirtyTwo,
        4576,
        0x291,
        Fused::To(Size::Two),
        32 + 15 + 32,
    ),
    // Its 512 MB begin with one of realm, and end with one of granules.
    (
        MaxBlock::FiveTwelve,
        0,
        0x2b1,
        Fused::To(Size::ThirtyTwo),
        32 + 15 + 1 + 512,
    ),
    (
        MaxBlock::FiveTwelve,
        7680,
        0x191,
        Fused::To(Size::ThirtyTwo),
        32 + 15 + 15 + 512,
    ),
    (
        MaxBlock::FiveTwelve,
        4608,
        0x391,
        Fused::To(Size::ThirtyTwo),
        32 + 15 + 9 + 512,
    ),
    // Words that no test loads: within another block, and in the next 512 MB.
    (
        MaxBlock::FiveTwelve,
        8192,
        0x3b1,
        Fused::To(Size::FiveTwelve),
        32 + 15 + 15 + 8192,
    ),
    (
        MaxBlock::ThirtyTwo,
        0,
        0x2b1,
        Fused::To(Size::ThirtyTwo),
        32 + 15 + 512,
    ),
    (MaxBlock::Two, 4096, 0x1b1, Fused::To(Size::Two), 32 + 32),
];

#[test]
fn merging_finds_the_size_of_the_definition(rt: HostRuntime) -> Result<(), Fail> {
    for (max, at, word, fused, acts) in MERGES.iter() {
        // Without runs, by runs of a few stores, and by one.
        for most in [0, 5, usize::MAX] {
            let found = merged(rt.alloc(), *max, *at, *word, most)?;
            assert_eq!(rt;
                found,
                Some((*fused, *acts)),
                "of {max:?} with {word:#x} at {at}"
            );
        }
    }
    steps_walk_the_script();
    Ok(())
}
