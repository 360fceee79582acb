use super::*;
use std::test::Fail;

/// A walk of a word of granules, at this first address.
fn granules(first: u64, tag: u64) -> Walk {
    Walk {
        reach: Reach::Word,
        first,
        word: 0,
        tag,
    }
}

#[test]
fn walks_cover_the_bytes_of_their_reach(rt: HostRuntime) -> Result<(), Fail> {
    // Reach, an address, and the first and the last address that a walk around it covers.
    let table = [
        (Reach::Word, 0x1_2345, 0x1_0000, 0x1_ffff),
        (Reach::Two, 0x30_0000, 0x20_0000, 0x3f_ffff),
        (Reach::ThirtyTwo, 0x5ff_ffff, 0x400_0000, 0x5ff_ffff),
        (Reach::FiveTwelve, 0x2000_0000, 0x2000_0000, 0x3fff_ffff),
        (
            Reach::FiveTwelve,
            0xf_ffff_ffff,
            0xf_e000_0000,
            0xf_ffff_ffff,
        ),
    ];
    for (reach, pa, first, last) in table {
        let walk = Walk::around(reach, pa, 0x9999_9999_9999_9999, 7);
        assert_eq!(rt; walk.first, first, "of {pa:#x}");
        assert_eq!(rt; walk.word, 0x9999_9999_9999_9999);
        assert_eq!(rt; walk.tag, 7);
        assert!(rt; walk.covers(first) && walk.covers(pa) && walk.covers(last));
        assert!(rt; !walk.covers(first.wrapping_sub(1)) && !walk.covers(last.wrapping_add(1)));
    }
    let highest = granules(0xffff_ffff_ffff_0000, 0);
    assert!(rt; highest.covers(u64::MAX) && !highest.covers(0));
    Ok(())
}

#[test]
fn newest_walk_is_found_and_the_oldest_dropped(rt: HostRuntime) -> Result<(), Fail> {
    let mut cache = WalkCache::new(rt.alloc(), 2)?;
    assert_eq!(rt; cache.newest(0), None);
    cache.note(granules(0, 1));
    cache.note(granules(0, 2));
    assert_eq!(rt; cache.newest(0), Some(granules(0, 2)));
    cache.note(granules(0x1_0000, 3));
    assert_eq!(rt; cache.newest(0xffff), Some(granules(0, 2)));
    cache.note(granules(0x2_0000, 4));
    assert_eq!(rt; cache.newest(0xffff), None);
    assert_eq!(rt; cache.newest(0x1_0000), Some(granules(0x1_0000, 3)));
    assert_eq!(rt; cache.newest(0x2_ffff), Some(granules(0x2_0000, 4)));
    Ok(())
}

/// The bytes of a reach, worked out by hand.
fn bytes(reach: Reach) -> u64 {
    match reach {
        Reach::Word => 65_536,
        Reach::Two => 2_097_152,
        Reach::ThirtyTwo => 33_554_432,
        Reach::FiveTwelve => 536_870_912,
    }
}

/// The newest of the last walks that covers an address, by a pass over all that were ever noted.
fn plain_newest(noted: &[Walk], ring: usize, pa: u64) -> Option<Walk> {
    let mut newest = None;
    for (index, walk) in noted.iter().enumerate() {
        let kept = noted.len() - index <= ring;
        let end = walk.first.saturating_add(bytes(walk.reach));
        if kept && walk.first <= pa && pa < end {
            newest = Some(*walk);
        }
    }
    newest
}

/// The next of a fixed sequence of numbers.
fn next_number(number: u64) -> u64 {
    number
        .wrapping_mul(6_364_136_223_846_793_005)
        .wrapping_add(1_442_695_040_888_963_407)
}

/// A walk in the first 4 GB. Of eight numbers five give granules, and one each of the blocks.
fn walk_of(number: u64, tag: u64) -> Walk {
    let reach = match number >> 61 {
        0 => Reach::Two,
        1 => Reach::ThirtyTwo,
        2 => Reach::FiveTwelve,
        _ => Reach::Word,
    };
    Walk::around(reach, number >> 20 & 0xffff_ffff, number, tag)
}

#[test]
fn rings_answer_as_a_plain_list_of_walks(rt: HostRuntime) -> Result<(), Fail> {
    for ring in [1, 2, 8, 64] {
        assert!(rt; 1 <= ring && ring <= 64);
        let mut cache = WalkCache::new(rt.alloc(), ring)?;
        let mut noted = Vec::new(rt.alloc());
        let mut number = ring;
        let mut found = 0_u64;
        for tag in 0..300 {
            number = next_number(number);
            let walk = walk_of(number, tag);
            cache.note(walk);
            noted.push(walk)?;
            let end = walk.first.wrapping_add(bytes(walk.reach));
            let other = next_number(number ^ tag) >> 20 & 0xffff_ffff;
            for pa in [
                walk.first,
                walk.first.wrapping_sub(1),
                end,
                other,
                number >> 30,
            ] {
                let newest = cache.newest(pa);
                assert_eq!(rt;
                    newest,
                    plain_newest(&noted, ring as usize, pa),
                    "of {pa:#x}"
                );
                found = found.saturating_add(newest.is_some() as u64);
            }
        }
        assert!(rt; 300 < found && found < 1500, "{found} found");
    }
    Ok(())
}
