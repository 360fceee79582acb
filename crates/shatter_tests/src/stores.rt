use super::slow_stores;
use gpi_values::Gpi;
use shared_words::Act;
use shatter::{Shatter, Splitting, splitting_keeps_the_map, stores_are_in_order};
use std::alloc::{AllocError, Global};
use std::test::Fail;

/// Blocks by their words, the words of 2 MB, and the granule's word: with granules of 4 KB at
/// first.
const BLOCKS: [(usize, usize, usize); 8] = [
    (32, 32, 0),
    (32, 32, 31),
    (512, 32, 33),
    (512, 32, 511),
    (8192, 32, 4128),
    (8192, 32, 0),
    (2, 2, 1),
    (512, 2, 37),
];

/// The stores of a splitting, one at a time.
fn made(alloc: Global, splitting: Splitting) -> Result<Vec<Act>, AllocError> {
    let mut splitting = splitting;
    let mut acts = Vec::new(alloc);
    for _ in 0..10_000 {
        match splitting.next() {
            Some(act) => {
                acts.push(act)?;
                splitting.advance();
            }
            None => break,
        }
    }
    Ok(acts)
}

/// The stores of a splitting, by runs of at most this number, and the number of runs.
fn by_runs(
    alloc: Global,
    splitting: Splitting,
    most: usize,
) -> Result<(Vec<Act>, usize), AllocError> {
    let mut splitting = splitting;
    let mut acts = Vec::new(alloc);
    for number in 0..10_000 {
        let run = splitting.take_run(most);
        if run.count == 0 {
            return Ok((acts, number));
        }
        for k in 0..run.count {
            acts.push(Act::Store(run.first + k, run.value))?;
        }
    }
    Ok((acts, 10_000))
}

/// Whether the stores of a block of realm at place 1000 are those of the definition, and none is
/// left.
fn agree(alloc: Global, words: usize, two: usize, own: usize) -> Result<bool, AllocError> {
    if own >= words || words > 10_000 || two == 0 || two > 10_000 {
        return Ok(false);
    }
    let splitting = Splitting::new(1000, own, Gpi::Realm, words, two);
    let found = made(alloc, splitting)?;
    let want = slow_stores(alloc, 1000, own, Gpi::Realm, words, two)?;
    Ok(!splitting.is_over() && found.as_slice() == want.as_slice())
}

#[test]
fn stores_are_those_of_the_definition(rt: HostRuntime) -> Result<(), Fail> {
    for (words, two, own) in BLOCKS.iter() {
        let same = agree(rt.alloc(), *words, *two, *own)?;
        assert!(rt; same, "of {words} around {own}");
    }
    splitting_keeps_the_map();
    stores_are_in_order();
    Ok(())
}

#[test]
fn runs_have_the_same_stores(rt: HostRuntime) -> Result<(), Fail> {
    // The runs of each block above: by granules, contiguous of 2 MB, and contiguous of 32 MB.
    let wanted = [1, 1, 3, 2, 5, 3, 1, 5];
    for ((words, two, own), number) in BLOCKS.iter().zip(wanted.iter()) {
        if *own >= *words || *words > 10_000 || *two == 0 || *two > 10_000 {
            return Err("another block")?;
        }
        let splitting = Splitting::new(1000, *own, Gpi::Realm, *words, *two);
        let single = made(rt.alloc(), splitting)?;
        let (long, runs) = by_runs(rt.alloc(), splitting, usize::MAX)?;
        let (short, _) = by_runs(rt.alloc(), splitting, 7)?;
        assert_eq!(rt; runs, *number, "of {words} around {own}");
        assert!(rt;
            long.as_slice() == single.as_slice(),
            "of {words} around {own}"
        );
        assert!(rt;
            short.as_slice() == single.as_slice(),
            "of {words} around {own}"
        );
    }
    Ok(())
}

/// Of a block of 32 MB at place 1000 that is split around its word 33, these stores by their
/// number: the second 2 MB become granules.
const STORES: [(usize, Act); 6] = [
    (0, Act::Store(1000, 0x191)),
    (31, Act::Store(1031, 0x191)),
    (32, Act::Store(1032, 0x9999_9999_9999_9999)),
    (63, Act::Store(1063, 0x9999_9999_9999_9999)),
    (64, Act::Store(1064, 0x191)),
    (511, Act::Store(1511, 0x191)),
];

#[test]
fn a_block_of_32_mb_becomes_blocks_of_2_mb_around_granules(rt: HostRuntime) -> Result<(), Fail> {
    let mut splitting = Shatter::<512>::new(1000, 33, Gpi::NonSecure);
    for number in 0..512 {
        let act = splitting.next().ok_or("too few stores")?;
        for (at, store) in STORES {
            if at == number {
                assert_eq!(rt; act, store);
            }
        }
        splitting.advance();
    }
    assert_eq!(rt; splitting.next(), None);
    Ok(())
}

#[test]
fn the_whole_of_a_block_of_2_mb_becomes_granules(rt: HostRuntime) -> Result<(), Fail> {
    let mut splitting = Shatter::<32>::new(0, 31, Gpi::Any);
    for number in 0..32 {
        let act = splitting.next().ok_or("too few stores")?;
        assert_eq!(rt; act, Act::Store(number, u64::MAX));
        splitting.advance();
    }
    assert_eq!(rt; splitting.next(), None);
    Ok(())
}
