use history::*;
use std::test::Fail;

/// A walk of a word of granules.
fn granules(first: u64, tag: u64) -> Named {
    Named {
        reach: Reach::Word,
        first,
        tag,
    }
}

fn hit(reach: Reach, at: u64) -> Via {
    Via::Hit { reach, at }
}

fn cold() -> Via {
    Via::Cold {
        reach: Reach::Word,
        lo: 1,
        hi: 1,
    }
}

/// An access that missed a walk of this reach and tag, and then made one of another reach.
fn missed(reach: Reach, tag: u64, at: u64) -> Via {
    Via::Missed {
        reach,
        tag,
        at,
        then: Reach::FiveTwelve,
        lo: 3,
        hi: 4,
    }
}

#[test]
fn rings_say_how_accesses_found_their_gpi(rt: HostRuntime) -> Result<(), Fail> {
    // Two walks of one word, one of a block of 2 MB that has it too, and one beside it.
    let walks = [
        granules(0x1_0000, 5),
        Named {
            reach: Reach::Two,
            first: 0,
            tag: 6,
        },
        granules(0x1_0000, 7),
        granules(0x3_0000, 8),
    ];
    let (word, two) = (Reach::Word, Reach::Two);
    // The ring, an address, how the access found its GPI, and whether the ring says so.
    let table = [
        (4, 0x1_2345, hit(word, 7), true),
        (4, 0x1_2345, hit(word, 5), false),
        (4, 0x1_2345, hit(two, 7), false),
        (4, 0x1_2345, hit(word, 8), false),
        (4, 0x1_2345, cold(), false),
        (4, 0x1_2345, missed(word, 7, 8), true),
        (4, 0x1_2345, missed(word, 7, 6), true),
        (4, 0x1_2345, missed(word, 7, 7), false),
        (4, 0x1_2345, missed(word, 5, 7), false),
        (4, 0x1_2345, missed(two, 7, 8), false),
        (4, 0x1_2345, Via::Still, false),
        // Beside the word the block's walk is the newest, as long as the ring has it.
        (4, 0x2_0000, hit(two, 6), true),
        (3, 0x2_0000, hit(two, 6), true),
        (2, 0x2_0000, hit(two, 6), false),
        (2, 0x2_0000, missed(two, 6, 7), false),
        (2, 0x2_0000, cold(), true),
        (64, 0x2_0000, cold(), false),
        // A ring of one walk, and an address that no walk covers.
        (1, 0x1_ffff, hit(word, 7), false),
        (1, 0x1_ffff, cold(), true),
        (1, 0x3_0000, hit(word, 8), true),
        (4, 0x20_0000, cold(), true),
        (4, 0x20_0000, hit(two, 6), false),
        (4, 0x20_0000, Via::Still, false),
    ];
    for (ring, pa, via, says) in table {
        assert_eq!(rt;
            ring_says(&walks, ring, pa, &via),
            says,
            "of {ring} walks at {pa:#x}: {via:?}"
        );
    }
    assert!(rt; ring_says(&[], 8, 0, &cold()));
    assert!(rt; !ring_says(&[], 8, 0, &hit(word, 0)));
    assert!(rt; !ring_says(&[], 8, 0, &Via::Still));
    Ok(())
}
