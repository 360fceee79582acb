use gpt_descriptors::MaxBlock;
use region_plan::{Gpi, Kind, Region};
use std::alloc::Global;
use std::process::Abort;
use std::test::Fail;
use table_build::*;

/// A setup of 4 GB.
fn setup_with(rt: &impl Abort, max: MaxBlock, tables: u64, base: u64) -> Setup {
    Setup::new(4, max, 1, 0, 8, tables, base).expect(rt, "tables in range")
}

fn granules(base: u64, size: u64, gpi: Gpi) -> Region {
    Region {
        base,
        size,
        kind: Kind::Granule,
        gpi,
    }
}

fn block(base: u64, size: u64, gpi: Gpi) -> Region {
    Region {
        base,
        size,
        kind: Kind::Block,
        gpi,
    }
}

/// The tables of these regions at the setup's base.
fn tables_of(
    rt: &impl Abort,
    alloc: Global,
    regions: &[Region],
    setup: &Setup,
) -> Result<Tables, BuildError> {
    let plan = Plan::plan(alloc, regions, setup).expect(rt, "regions that no rule refuses");
    build(alloc, &plan, plan.setup().base())
}

/// Whether `count` words from `first` on are there and are this word.
fn is_run(words: &[u64], first: usize, count: usize, word: u64) -> bool {
    let all = words.len();
    first <= all && count <= all - first && words.iter().skip(first).take(count).all(|w| *w == word)
}

#[test]
fn one_gigabyte_of_one_gpi_is_of_the_largest_size(rt: HostRuntime) -> Result<(), Fail> {
    let region = granules(0, 0x4000_0000, Gpi::NonSecure);
    let table = [
        (MaxBlock::Zero, 0x9999_9999_9999_9999),
        (MaxBlock::Two, 0x191),
        (MaxBlock::ThirtyTwo, 0x291),
        (MaxBlock::FiveTwelve, 0x391),
    ];
    for (max, word) in table {
        let tables = tables_of(
            &rt,
            rt.alloc(),
            &[region],
            &setup_with(&rt, max, 1, 0x8000_0000),
        )?;
        assert_eq!(rt; tables.l0(), [0x8000_0003, 0xf1, 0xf1, 0xf1].as_slice());
        assert_eq!(rt; tables.l1().len(), 16384);
        assert!(rt; is_run(tables.l1(), 0, 16384, word), "at {max:?}");
    }
    Ok(())
}

#[test]
fn a_block_has_one_gpi_and_no_larger_one_has(rt: HostRuntime) -> Result<(), Fail> {
    let setup = setup_with(&rt, MaxBlock::FiveTwelve, 1, 0x8000_0000);

    // One granule of Realm, the second of the first word.
    let tables = tables_of(
        &rt,
        rt.alloc(),
        &[granules(0x1000, 0x1000, Gpi::Realm)],
        &setup,
    )?;
    let words = tables.l1();
    assert!(rt; is_run(words, 0, 1, 0xffff_ffff_ffff_ffbf));
    assert!(rt; is_run(words, 1, 31, 0xffff_ffff_ffff_ffff));
    assert!(rt; is_run(words, 32, 480, 0x1f1));
    assert!(rt; is_run(words, 512, 7680, 0x2f1));
    assert!(rt; is_run(words, 8192, 8192, 0x3f1));

    // Two regions of 1 MB whose union is a block of 2 MB.
    let halves = [
        granules(0, 0x10_0000, Gpi::Secure),
        granules(0x10_0000, 0x10_0000, Gpi::Secure),
    ];
    let tables = tables_of(&rt, rt.alloc(), &halves, &setup)?;
    let words = tables.l1();
    assert!(rt; is_run(words, 0, 32, 0x181));
    assert!(rt; is_run(words, 32, 480, 0x1f1));
    assert!(rt; is_run(words, 512, 7680, 0x2f1));
    assert!(rt; is_run(words, 8192, 8192, 0x3f1));

    // 32 MB and one granule: the region ends in the first word of a 2 MB block.
    let tables = tables_of(
        &rt,
        rt.alloc(),
        &[granules(0x200_0000, 0x200_1000, Gpi::NonSecure)],
        &setup,
    )?;
    let words = tables.l1();
    assert!(rt; is_run(words, 0, 512, 0x2f1));
    assert!(rt; is_run(words, 512, 512, 0x291));
    assert!(rt; is_run(words, 1024, 1, 0xffff_ffff_ffff_fff9));
    assert!(rt; is_run(words, 1025, 31, 0xffff_ffff_ffff_ffff));
    assert!(rt; is_run(words, 1056, 480, 0x1f1));
    assert!(rt; is_run(words, 1536, 6656, 0x2f1));
    assert!(rt; is_run(words, 8192, 8192, 0x3f1));

    // The last granule of the space.
    let tables = tables_of(
        &rt,
        rt.alloc(),
        &[granules(0xffff_f000, 0x1000, Gpi::NonSecure)],
        &setup,
    )?;
    assert_eq!(rt; tables.l0(), [0xf1, 0xf1, 0xf1, 0x8000_0003].as_slice());
    let words = tables.l1();
    assert!(rt; is_run(words, 0, 8192, 0x3f1));
    assert!(rt; is_run(words, 8192, 7680, 0x2f1));
    assert!(rt; is_run(words, 15872, 480, 0x1f1));
    assert!(rt; is_run(words, 16352, 31, 0xffff_ffff_ffff_ffff));
    assert!(rt; is_run(words, 16383, 1, 0x9fff_ffff_ffff_ffff));
    Ok(())
}

#[test]
fn blocks_and_tables_of_level_0(rt: HostRuntime) -> Result<(), Fail> {
    let setup = setup_with(&rt, MaxBlock::FiveTwelve, 2, 0x8000_0000);
    let tables = tables_of(
        &rt,
        rt.alloc(),
        &[block(0x4000_0000, 0x8000_0000, Gpi::Root)],
        &setup,
    )?;
    assert_eq!(rt; tables.l0(), [0xf1, 0xa1, 0xa1, 0xf1].as_slice());
    assert!(rt; tables.l1().is_empty());

    let regions = [
        block(0x4000_0000, 0x4000_0000, Gpi::NoAccess),
        granules(0xc000_0000, 0x4000_0000, Gpi::Secure),
        granules(0, 0x4000_0000, Gpi::Realm),
    ];
    let tables = tables_of(&rt, rt.alloc(), &regions, &setup)?;
    assert_eq!(rt;
        tables.l0(),
        [0x8000_0003, 0x1, 0xf1, 0x8002_0003].as_slice()
    );
    assert_eq!(rt; tables.l1().len(), 32768);
    assert!(rt; is_run(tables.l1(), 0, 16384, 0x3b1));
    assert!(rt; is_run(tables.l1(), 16384, 16384, 0x381));
    assert_eq!(rt; tables.setup().tables(), 2);
    Ok(())
}

#[test]
fn a_run_of_sixteen_gigabytes_fills_sixteen_tables(rt: HostRuntime) -> Result<(), Fail> {
    let setup = Setup::new(64, MaxBlock::FiveTwelve, 1, 0, 8, 16, 0x8000_0000);
    let tables = tables_of(
        &rt,
        rt.alloc(),
        &[granules(0, 0x4_0000_0000, Gpi::NonSecure)],
        &setup.expect(&rt, "sixteen tables"),
    )?;
    assert_eq!(rt; tables.l0().len(), 64);
    let mut address = 0x8000_0003u64;
    for word in tables.l0().iter().take(16) {
        assert_eq!(rt; *word, address);
        address = address.wrapping_add(0x2_0000);
    }
    assert!(rt; is_run(tables.l0(), 16, 48, 0xf1));
    assert_eq!(rt; tables.l1().len(), 262144);
    assert!(rt; is_run(tables.l1(), 0, 262144, 0x391));
    Ok(())
}

#[test]
fn a_run_may_go_on_in_a_gigabyte_without_a_table(rt: HostRuntime) -> Result<(), Fail> {
    let setup = setup_with(&rt, MaxBlock::FiveTwelve, 2, 0x8000_0000);
    let regions = [
        granules(0x2000_0000, 0x2000_0000, Gpi::Secure),
        block(0x4000_0000, 0x4000_0000, Gpi::Secure),
        granules(0x8000_0000, 0x200_0000, Gpi::Secure),
    ];
    let tables = tables_of(&rt, rt.alloc(), &regions, &setup)?;
    assert_eq!(rt;
        tables.l0(),
        [0x8000_0003, 0x81, 0x8002_0003, 0xf1].as_slice()
    );
    let words = tables.l1();
    assert_eq!(rt; words.len(), 32768);
    assert!(rt; is_run(words, 0, 8192, 0x3f1));
    assert!(rt; is_run(words, 8192, 8192, 0x381));
    assert!(rt; is_run(words, 16384, 512, 0x281));
    assert!(rt; is_run(words, 16896, 7680, 0x2f1));
    assert!(rt; is_run(words, 24576, 8192, 0x3f1));
    Ok(())
}

#[test]
fn a_base_is_aligned_and_the_last_table_ends_at_most_at_2_to_the_52(rt: HostRuntime) {
    let none = block(0, 0x4000_0000, Gpi::Root);
    let one = granules(0, 0x4000_0000, Gpi::NonSecure);
    let two = granules(0, 0x8000_0000, Gpi::NonSecure);
    // The region, the base, and the first level 0 word where the base is good.
    let table = [
        (one, 0x8001_0000, None),
        (one, 0x8000_0001, None),
        (one, 0xffff_ffff_fffe_0000, None),
        (one, 0x10_0000_0000_0000, None),
        (one, 0xf_ffff_fffe_0000, Some(0xf_ffff_fffe_0003)),
        (one, 0, Some(0x3)),
        (two, 0xf_ffff_fffe_0000, None),
        (two, 0xf_ffff_fffc_0000, Some(0xf_ffff_fffc_0003)),
        (none, 0x8001_0000, None),
        (none, 0x10_0000_0002_0000, None),
        (none, 0x10_0000_0000_0000, Some(0xa1)),
    ];
    for (region, base, want) in table {
        let outcome = tables_of(
            &rt,
            rt.alloc(),
            &[region],
            &setup_with(&rt, MaxBlock::FiveTwelve, 2, base),
        );
        match (outcome, want) {
            (Ok(tables), Some(word)) => assert_eq!(rt;
                tables.l0().first(),
                Some(&word),
                "at {base}"
            ),
            (Err(error), None) => assert_eq!(rt; error, BuildError::BadBase(base)),
            (_, _) => panic!(rt; "at {base}"),
        }
    }
}
