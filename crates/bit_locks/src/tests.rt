use super::*;
use gpt_descriptors::{Geometry, MaxBlock, Setup, l0_good};
use shared_words::{Act, PlainWords, Words};
use std::alloc::Global;
use std::test::Fail;

/// A space of this number of gigabytes, all blocks, whose lock bits cover `lock_blocks` blocks of
/// 512 MB each.
fn all_blocks(gigabytes: u64, lock_blocks: u64) -> Result<Geometry, Fail> {
    let setup = Setup::new(gigabytes, MaxBlock::Zero, lock_blocks, 0, 1, 0, 0).ok_or("refused")?;
    let l0 = [0xf1; 64];
    let l0 = l0.get(..setup.gigabytes() as usize).ok_or("too large")?;
    if !l0_good(&setup, l0) {
        return Err("a bad table")?;
    }
    Ok(Geometry::new(setup, 1, l0))
}

#[test]
fn lock_bits_are_those_worked_out_by_hand(rt: HostRuntime) -> Result<(), Fail> {
    // Gigabytes, blocks for a lock bit, address, place and mask.
    let table = [
        (4, 0, 0, 0, 1),
        (4, 0, 0xffff_ffff, 0, 1),
        (4, 1, 0x1fff_ffff, 0, 1),
        (4, 1, 0x2000_0000, 0, 2),
        (4, 1, 0xffff_ffff, 0, 0x80),
        (4, 2, 0x3fff_ffff, 0, 1),
        (4, 2, 0x4000_0000, 0, 2),
        (4, 2, 0xffff_ffff, 0, 8),
        (4, 4, 0x7fff_ffff, 0, 1),
        (4, 4, 0xffff_ffff, 0, 2),
        (4, 8, 0xffff_ffff, 0, 1),
        (64, 0, 0xf_ffff_ffff, 0, 1),
        (64, 1, 0x2000_0000, 0, 2),
        (64, 1, 0x7_ffff_ffff, 0, 1 << 63),
        (64, 1, 0x8_0000_0000, 1, 1),
        (64, 1, 0xf_ffff_ffff, 1, 1 << 63),
        (64, 2, 0x8_0000_0000, 0, 1 << 32),
        (64, 2, 0xf_ffff_ffff, 0, 1 << 63),
        (64, 4, 0xf_ffff_ffff, 0, 1 << 31),
        (64, 8, 0xf_ffff_ffff, 0, 1 << 15),
    ];
    for (gigabytes, lock_blocks, pa, place, mask) in table {
        let geometry = all_blocks(gigabytes, lock_blocks)?;
        assert!(rt; geometry.inside(pa));
        assert_eq!(rt;
            lock_of(&geometry, pa),
            Bit { place, mask },
            "of {pa:#x} with {lock_blocks} in {gigabytes} GB"
        );
    }
    Ok(())
}

/// The words of a geometry without tables, before the first act.
fn started(alloc: Global, geometry: &Geometry) -> Result<PlainWords, Fail> {
    if geometry.l1_tables() != 0 {
        return Err("a table")?;
    }
    let words = PlainWords::new(alloc, geometry, [].as_slice())?;
    Ok(words)
}

/// The answer of an act, or `None` where there is no such place.
fn answer(words: &mut PlainWords, act: Act) -> Option<u64> {
    let place = match act {
        Act::Load(place) => place,
        Act::Store(place, _) => place,
        Act::Or(place, _) => place,
        Act::And(place, _) => place,
    };
    if place < words.words().len() {
        Some(words.apply(act))
    } else {
        None
    }
}

#[test]
fn locks_are_taken_and_released_one_by_one(rt: HostRuntime) -> Result<(), Fail> {
    let geometry = all_blocks(64, 1)?;
    let mut words = started(rt.alloc(), &geometry)?;
    // The first, the second, the last of the first word, the first and the last of the second.
    let addresses = [0, 0x2000_0000, 0x7_ffff_ffff, 0x8_0000_0000, 0xf_ffff_ffff];

    // Each is free once, then taken.
    for pa in addresses {
        assert!(rt; geometry.inside(pa));
        let bit = lock_of(&geometry, pa);
        let first = answer(&mut words, take(bit)).ok_or("no such word")?;
        assert!(rt; was_free(bit, first), "at {pa:#x}");
        let second = answer(&mut words, take(bit)).ok_or("no such word")?;
        assert!(rt; !was_free(bit, second), "at {pa:#x}");
    }
    assert_eq!(rt;
        answer(&mut words, Act::Load(0)),
        Some(0x8000_0000_0000_0003)
    );
    assert_eq!(rt;
        answer(&mut words, Act::Load(1)),
        Some(0x8000_0000_0000_0001)
    );

    // Only the one that is released is free again.
    let bit = Bit { place: 0, mask: 2 };
    let before = answer(&mut words, drop_act(bit)).ok_or("no such word")?;
    assert!(rt; !was_free(bit, before));
    for pa in addresses {
        assert!(rt; geometry.inside(pa));
        let bit = lock_of(&geometry, pa);
        let word = answer(&mut words, Act::Load(bit.place)).ok_or("no such word")?;
        assert_eq!(rt; was_free(bit, word), pa == 0x2000_0000, "at {pa:#x}");
    }
    a_lock_is_one_bit();
    Ok(())
}
