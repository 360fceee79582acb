use super::*;

#[test]
fn tables_are_laid_at_the_beginning(rt: HostRuntime) -> Result<(), std::test::Fail> {
    let setup = SetupNumbers {
        gigabytes: 4,
        max: 512,
        tables: 1,
        base: 0xc000_0000,
    };
    let regions = [RegionNumbers {
        base: 0x4000_0000,
        size: 0x20_0000,
        kind: 1,
        gpi: 9,
    }];
    let (mut l0, mut told) = (
        [7; 5],
        Told {
            first: 7,
            second: 7,
        },
    );
    let mut l1 = vec![in rt.alloc(); 7u64; 16385]?;
    let code = gpt_rme_build(
        rt.alloc(),
        &setup,
        regions.as_slice(),
        l0.as_mut_slice(),
        l1.as_mut_slice(),
        &mut told,
    );
    assert_eq!(rt; code, 0);
    assert_eq!(rt;
        told,
        Told {
            first: 4,
            second: 16384
        }
    );
    assert_eq!(rt; l0, [0xf1, 0xc000_0003, 0xf1, 0xf1, 7]);
    assert_eq!(rt; l1.get(0).copied(), Some(0x191));
    assert_eq!(rt; l1.get(31).copied(), Some(0x191));
    assert_eq!(rt; l1.get(32).copied(), Some(0x1f1));
    assert_eq!(rt; l1.get(16384).copied(), Some(7));
    Ok(())
}

#[test]
fn each_cause_has_its_code(rt: HostRuntime) {
    let region = |base, size, kind, gpi| RegionNumbers {
        base,
        size,
        kind,
        gpi,
    };
    let granules = region(0, 0x1000, 1, 9);
    // Gigabytes, base of the tables, two regions, words of L0; the code and what is told.
    let table = [
        (5, 0, [granules, granules], 4, -1, (0, 0)),
        (
            4,
            0,
            [granules, region(0x1000, 0x1000, 2, 9)],
            4,
            -1,
            (0, 0),
        ),
        (
            4,
            0,
            [granules, region(0x1000, 0x1000, 1, 1)],
            4,
            -1,
            (0, 0),
        ),
        (
            4,
            0,
            [granules, region(0x1000, 0x1001, 1, 9)],
            4,
            -12,
            (1, 0),
        ),
        (
            4,
            0,
            [granules, region(0xffff_f000, 0x2000, 1, 9)],
            4,
            -13,
            (1, 0),
        ),
        (
            4,
            0,
            [granules, region(0x4000_0000, 0x1000, 0, 9)],
            4,
            -14,
            (1, 0),
        ),
        (4, 0, [granules, granules], 4, -15, (0, 1)),
        (
            4,
            0,
            [granules, region(0x4000_0000, 0x1000, 1, 9)],
            4,
            -16,
            (2, 0),
        ),
        (
            4,
            0x1000,
            [granules, region(0x1000, 0x1000, 1, 9)],
            4,
            -17,
            (0, 0),
        ),
        (
            4,
            0,
            [granules, region(0x1000, 0x1000, 1, 9)],
            3,
            -5,
            (4, 16384),
        ),
    ];
    for (gigabytes, base, regions, words, want, (first, second)) in table {
        let setup = SetupNumbers {
            gigabytes,
            max: 0,
            tables: 1,
            base,
        };
        let (mut l0, mut l1, mut told) = (
            [7; 4],
            [7; 1],
            Told {
                first: 7,
                second: 7,
            },
        );
        let code = gpt_rme_build(
            rt.alloc(),
            &setup,
            regions.as_slice(),
            &mut l0[..words.min(4)],
            l1.as_mut_slice(),
            &mut told,
        );
        assert_eq!(rt; code, want);
        assert_eq!(rt; told, Told { first, second });
        assert_eq!(rt; l0, [7; 4]);
    }
}
