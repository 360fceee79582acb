use super::*;
use gpt_descriptors::{MaxBlock, Setup, l0_good};
use shared_words::{PlainWords, Words};
use std::alloc::Global;
use std::test::Fail;

/// 4 GB with tables of the first and the third gigabyte, and this number of processors.
fn two_tables(cpus: u32) -> Result<Geometry, Fail> {
    let setup = Setup::new(4, MaxBlock::Zero, 0, 0, 1, 2, 0x8000_0000).ok_or("refused")?;
    let l0 = [0x8000_0003, 0xf1, 0x8002_0003, 0xf1];
    if !l0_good(&setup, l0.as_slice()) || cpus > 32 {
        return Err("a bad table")?;
    }
    Ok(Geometry::new(setup, cpus, l0.as_slice()))
}

#[test]
fn lines_stand_where_they_were_worked_out_by_hand(rt: HostRuntime) -> Result<(), Fail> {
    // 2 locks, 2184 generations, the duty words and 32768 L1 words come first. Processors, address,
    // space, place and mask.
    let table = [
        (0, 0, Space::Secure, 34954, 1),
        (0, 0, Space::NonSecure, 34954, 2),
        (0, 0, Space::Root, 34954, 4),
        (0, 0, Space::Realm, 34954, 8),
        (0, 0x3fff, Space::Realm, 34954, 0x8000),
        (1, 0xffff, Space::Secure, 34955, 1 << 60),
        (1, 0xffff, Space::Realm, 34955, 1 << 63),
        (2, 0x1_0000, Space::NonSecure, 34957, 2),
        (32, 0x2245_3000, Space::NonSecure, 43759, 0x2000),
        (0, 0x3fff_ffff, Space::Root, 51337, 1 << 62),
        (0, 0x8000_0000, Space::Secure, 51338, 1),
        (0, 0xbfff_ffff, Space::Realm, 67721, 1 << 63),
    ];
    for (cpus, pa, space, place, mask) in table {
        let geometry = two_tables(cpus)?;
        assert!(rt; geometry.inside(pa));
        assert_eq!(rt;
            touch(&geometry, pa, space),
            Some(Act::Or(place, mask)),
            "of {pa:#x}"
        );
        assert_eq!(rt;
            clean(&geometry, pa, space),
            Some(Act::And(place, !mask)),
            "of {pa:#x}"
        );
    }
    Ok(())
}

#[test]
fn an_l0_block_has_no_lines(rt: HostRuntime) -> Result<(), Fail> {
    let geometry = two_tables(3)?;
    for pa in [0x4000_0000, 0x7fff_ffff, 0xc000_0000, 0xffff_ffff] {
        assert!(rt; geometry.inside(pa));
        assert_eq!(rt; touch(&geometry, pa, Space::Secure), None, "of {pa:#x}");
        assert_eq!(rt; clean(&geometry, pa, Space::Secure), None, "of {pa:#x}");
    }
    Ok(())
}

#[test]
fn the_bits_of_a_place_are_its_lines(rt: HostRuntime) -> Result<(), Fail> {
    let word = 0xfedc_ba98_7654_3210;
    for place in 0..16 {
        assert_eq!(rt; lines(word, place), place, "at {place}");
        assert_eq!(rt;
            lines(line_mask(place, Space::Root), place),
            4,
            "at {place}"
        );
        let bit = place % 2 == 1;
        assert_eq!(rt; is_resident(word, place, Space::Secure), bit, "at {place}");
    }
    for (place, space, wanted) in [
        (15, Space::Realm, true),
        (14, Space::Secure, false),
        (14, Space::NonSecure, true),
        (5, Space::Root, true),
        (5, Space::NonSecure, false),
        (8, Space::Realm, true),
    ] {
        assert_eq!(rt; is_resident(word, place, space), wanted, "at {place}");
    }
    assert_eq!(rt; lines(line_mask(3, Space::Realm), 4), 0);
    Ok(())
}

/// The words before the first act.
fn started(alloc: Global, geometry: &Geometry) -> Result<PlainWords, Fail> {
    let count = (geometry.l1_tables() * geometry.setup().table_words()) as usize;
    let mut l1 = Vec::new(alloc);
    l1.resize(count, 0)?;
    let words = PlainWords::new(alloc, geometry, l1.as_slice())?;
    Ok(words)
}

/// The line word at this place after an act, if both are there.
fn after(words: &mut PlainWords, act: Option<Act>, place: usize) -> Option<u64> {
    let act = act?;
    let at = match act {
        Act::Load(at) => at,
        Act::Store(at, _) => at,
        Act::Or(at, _) => at,
        Act::And(at, _) => at,
    };
    if at < words.words().len() {
        words.apply(act);
        words.words().get(place).copied()
    } else {
        None
    }
}

#[test]
fn lines_are_touched_and_cleaned_one_by_one(rt: HostRuntime) -> Result<(), Fail> {
    let geometry = two_tables(0)?;
    let mut words = started(rt.alloc(), &geometry)?;
    // Granules 0 and 3 in two spaces each; each act, and the line word after it.
    let touches = [
        (0, Space::Realm, 0x8),
        (0x3000, Space::NonSecure, 0x2008),
        (0, Space::NonSecure, 0x200a),
        (0x3abc, Space::NonSecure, 0x200a),
        (0x3000, Space::Secure, 0x300a),
    ];
    for (pa, space, word) in touches {
        assert!(rt; geometry.inside(pa));
        let act = touch(&geometry, pa, space);
        assert_eq!(rt; after(&mut words, act, 34954), Some(word), "of {pa:#x}");
    }
    let cleans = [
        (0x3000, Space::NonSecure, 0x100a),
        (0, Space::Secure, 0x100a),
        (0xfff, Space::Realm, 0x1002),
        (0x3000, Space::Secure, 0x2),
        (0, Space::NonSecure, 0),
    ];
    for (pa, space, word) in cleans {
        assert!(rt; geometry.inside(pa));
        let act = clean(&geometry, pa, space);
        assert_eq!(rt; after(&mut words, act, 34954), Some(word), "of {pa:#x}");
    }
    acts_mark_one_line();
    Ok(())
}
