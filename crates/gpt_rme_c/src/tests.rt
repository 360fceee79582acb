use super::*;
use std::test::Fail;

/// Four gigabytes, of which the second has the one table, at 3 GB; two processors.
fn space() -> Space {
    let mut l0 = [0xf1; 64];
    l0[1] = 0xc000_0003;
    Space {
        gigabytes: 4,
        lock_blocks: 1,
        tables: 1,
        base: 0xc000_0000,
        max: 512,
        cpus: 2,
        l0,
    }
}

#[test]
fn words_and_entries_are_those_of_the_standard(rt: HostRuntime) {
    // DDI 0487, GPT level 0 and level 1 descriptors: word, then table, GPI, address.
    for (word, table, gpi, address) in [(0xf1, 0, 15, 0), (0x1003, 1, 0, 0x1000), (1, 0, 0, 0)] {
        let parts = L0Parts {
            table,
            gpi,
            address,
        };
        let (mut out, mut back) = (
            L0Parts {
                table: 7,
                gpi: 7,
                address: 7,
            },
            7,
        );
        assert_eq!(rt; gpt_rme_l0_decode(word, &mut out), DONE);
        assert_eq!(rt; out, parts);
        assert_eq!(rt; gpt_rme_l0_encode(&parts, &mut back), DONE);
        assert_eq!(rt; back, word);
    }
    // Word, then Contig, GPI, fields.
    for (word, contig, gpi, fields) in [(0x3b1, 3, 11, 0), (0x191, 1, 9, 0), (0x98, 0, 0, 0x98)] {
        let parts = L1Parts {
            contig,
            gpi,
            fields,
        };
        let (mut out, mut back) = (
            L1Parts {
                contig: 7,
                gpi: 7,
                fields: 7,
            },
            7,
        );
        assert_eq!(rt; gpt_rme_l1_decode(word, &mut out), DONE);
        assert_eq!(rt; out, parts);
        assert_eq!(rt; gpt_rme_l1_encode(&parts, &mut back), DONE);
        assert_eq!(rt; back, word);
    }
}

#[test]
fn what_is_refused_is_not_written(rt: HostRuntime) {
    let (mut l0, mut l1) = (
        L0Parts {
            table: 7,
            gpi: 7,
            address: 7,
        },
        L1Parts {
            contig: 7,
            gpi: 7,
            fields: 7,
        },
    );
    let (kept0, kept1, mut word) = (l0, l1, 7);
    assert_eq!(rt; gpt_rme_l0_decode(0x111, &mut l0), BAD_WORD);
    assert_eq!(rt; gpt_rme_l1_decode(0x491, &mut l1), BAD_WORD);
    assert_eq!(rt; gpt_rme_l0_encode(&kept0, &mut word), BAD_DATA);
    assert_eq!(rt; gpt_rme_l1_encode(&kept1, &mut word), BAD_DATA);
    assert_eq!(rt; gpt_rme_l1_with_field(0x191, 0, 9, &mut word), BAD_WORD);
    assert_eq!(rt; gpt_rme_l1_with_field(0x98, 16, 9, &mut word), BAD_DATA);
    assert_eq!(rt; l0, kept0);
    assert_eq!(rt; l1, kept1);
    assert_eq!(rt; word, 7);
}

#[test]
fn one_granule_of_a_word(rt: HostRuntime) {
    let (mut gpi, mut word) = (7, 7);
    assert_eq!(rt; gpt_rme_l1_gpi_at(0x98, 1, &mut gpi), DONE);
    assert_eq!(rt; gpi, 9);
    assert_eq!(rt; gpt_rme_l1_gpi_at(0x98, 16, &mut gpi), BAD_DATA);
    assert_eq!(rt; gpt_rme_l1_gpi_at(0x2, 0, &mut gpi), BAD_WORD);
    assert_eq!(rt; gpi, 9);
    assert_eq!(rt; gpt_rme_l1_with_field(0x98, 1, 11, &mut word), DONE);
    assert_eq!(rt; word, 0xb8);
    assert_eq!(rt; gpt_rme_permits(9, 1), 1);
    assert_eq!(rt; gpt_rme_permits(9, 3), 0);
    assert_eq!(rt; gpt_rme_permits(9, 4), BAD_DATA);
    assert_eq!(rt; gpt_rme_permits(1, 1), BAD_DATA);
}

#[test]
fn places_are_those_worked_out_by_hand(rt: HostRuntime) -> Result<(), Fail> {
    let mut count = 7;
    assert_eq!(rt; gpt_rme_word_count(&space(), &mut count), DONE);
    assert_eq!(rt; count, 2 + 546 * 4 + 2 + 2 * 16384);
    let none = PlaceNumbers {
        lock: 7,
        mask: 7,
        word: 7,
        field: 7,
        line: 7,
        two: 7,
        thirty_two: 7,
        five_twelve: 7,
    };
    let mut places = none;
    // An L0 block, an address above the space, and a space with 33 processors.
    assert_eq!(rt; gpt_rme_places(&space(), 0x1000, &mut places), BAD_ADDRESS);
    assert_eq!(rt; gpt_rme_places(&space(), 1 << 32, &mut places), BAD_ADDRESS);
    let mut bad = space();
    bad.cpus = 33;
    assert_eq!(rt; gpt_rme_places(&bad, 0x4000_0000, &mut places), BAD_DATA);
    assert_eq!(rt; places, none);
    assert_eq!(rt; gpt_rme_places(&space(), 0x6021_3000, &mut places), DONE);
    let want = PlaceNumbers {
        lock: 0,
        mask: 8,
        word: 2188 + 0x2021,
        field: 3,
        line: 2188 + 16384 + 0x2021,
        two: 2 + 0x301,
        thirty_two: 2 + 2048 + 48,
        five_twelve: 2 + 2176 + 3,
    };
    assert_eq!(rt; places, want);
    Ok(())
}
