use gpt_descriptors::{
    Gpi, L0Entry, L1Entry, Size, decode_l0, decode_l1, encode_l0, encode_l1, gpi_at,
};

/// The GPI encodings of the standard, each with its four-bit value.
const GPIS: [(u64, Gpi); 6] = [
    (0, Gpi::NoAccess),
    (8, Gpi::Secure),
    (9, Gpi::NonSecure),
    (10, Gpi::Root),
    (11, Gpi::Realm),
    (15, Gpi::Any),
];

/// Bits 9:8 of the contiguous descriptors of the standard, each with its size.
const SIZES: [(u64, Size); 3] = [
    (0b01, Size::Two),
    (0b10, Size::ThirtyTwo),
    (0b11, Size::FiveTwelve),
];

fn gpi_in_table(value: u64) -> Option<Gpi> {
    for (code, gpi) in GPIS {
        if code == value {
            return Some(gpi);
        }
    }
    None
}

fn size_in_table(value: u64) -> Option<Size> {
    for (code, size) in SIZES {
        if code == value {
            return Some(size);
        }
    }
    None
}

#[test]
fn contiguous_descriptors_are_those_of_the_standard(rt: HostRuntime) {
    for gpi_field in 0..16u64 {
        for size_field in 0..4u64 {
            let word = 0b0001 + 16 * gpi_field + 256 * size_field;
            let want = contiguous_in_tables(size_field, gpi_field);
            assert_eq!(rt; decode_l1(word), want, "of {word:#x}");
        }
    }
}

fn contiguous_in_tables(size_field: u64, gpi_field: u64) -> Option<L1Entry> {
    let size = size_in_table(size_field)?;
    let gpi = gpi_in_table(gpi_field)?;
    Some(L1Entry::Contig(size, gpi))
}

/// All bits above 9 of a contiguous descriptor are zero, and all above 7 of a level 0 block.
#[test]
fn stray_bits_are_refused(rt: HostRuntime) {
    for field in 0..64u64 {
        for bit in 10..64u32 {
            let stray = (0b0001 + 16 * field) | (1 << bit);
            assert_eq!(rt;
                (decode_l1(stray), decode_l0(stray)),
                (None, None),
                "of {stray:#x}"
            );
        }
    }
}

/// Seven bytes of one GPI, above a low byte.
const ABOVE: [u64; 6] = [
    0,
    0x8888_8888_8888_8800,
    0x9999_9999_9999_9900,
    0xaaaa_aaaa_aaaa_aa00,
    0xbbbb_bbbb_bbbb_bb00,
    0xffff_ffff_ffff_ff00,
];

/// A word of granules, if both fields of its low byte are known.
fn granules_in_table(word: u64) -> Option<L1Entry> {
    let _low = gpi_in_table(word % 16)?;
    let _high = gpi_in_table(word / 16 % 16)?;
    Some(L1Entry::Granules(word))
}

#[test]
fn granules_descriptors_have_sixteen_known_fields(rt: HostRuntime) {
    for above in ABOVE.iter() {
        for low in 0..256u64 {
            let word = *above | low;
            assert_eq!(rt; decode_l1(word), granules_in_table(word), "of {word:#x}");
        }
    }
}

/// Every value of each field, among fields of Non-secure.
#[test]
fn each_field_has_its_place(rt: HostRuntime) {
    for place in 0..16u32 {
        for value in 0..16u64 {
            let word = 0x9999_9999_9999_9999 & !(15 << (4 * place)) | value << (4 * place);
            assert_eq!(rt;
                gpi_at(word, place as u64),
                gpi_in_table(value),
                "of {word:#x} at {place}"
            );
        }
    }
}

fn block_in_table(field: u64) -> Option<L0Entry> {
    let gpi = gpi_in_table(field)?;
    Some(L0Entry::Block(gpi))
}

#[test]
fn level_0_blocks_are_those_of_the_standard(rt: HostRuntime) {
    for field in 0..16u64 {
        let word = 0b0001 + 16 * field;
        assert_eq!(rt; decode_l0(word), block_in_table(field), "of {word:#x}");
        for bit in 8..10u32 {
            let stray = word | (1 << bit);
            assert_eq!(rt; decode_l0(stray), None, "of {stray:#x}");
        }
    }
}

/// What a table's word with this one bit is: bits 1:0 are set already, bits 51:12 are the address,
/// all others are zero.
fn table_with(one: u64) -> Option<L0Entry> {
    if one < 4 {
        Some(L0Entry::Table(0))
    } else if 1 << 12 <= one && one < 1 << 52 {
        Some(L0Entry::Table(one))
    } else {
        None
    }
}

#[test]
fn level_0_tables_are_those_of_the_standard(rt: HostRuntime) {
    for bit in 0..64u32 {
        let one = 1 << bit;
        assert_eq!(rt; decode_l0(0b0011 | one), table_with(one), "of {bit}");
    }
}

/// Level 1 entries of contiguous words, each with its word.
const SPELT: [(Size, Gpi, u64); 5] = [
    (Size::Two, Gpi::NonSecure, 0x191),
    (Size::ThirtyTwo, Gpi::NonSecure, 0x291),
    (Size::FiveTwelve, Gpi::NonSecure, 0x391),
    (Size::Two, Gpi::NoAccess, 0x101),
    (Size::FiveTwelve, Gpi::Any, 0x3f1),
];

#[test]
fn entries_are_spelt(rt: HostRuntime) {
    for (size, gpi, word) in SPELT.iter() {
        let found = encode_l1(L1Entry::Contig(*size, *gpi));
        assert_eq!(rt; (found, gpi_at(found, 15)), (*word, Some(*gpi)));
    }
    let block = encode_l0(L0Entry::Block(Gpi::Any));
    let table = encode_l0(L0Entry::Table(0x8000_0000));
    assert_eq!(rt; (block, table), (0xf1, 0x8000_0003));
}

/// The GPIs of the sixteen fields of a word.
const FIELDS: [u64; 16] = [0, 8, 15, 9, 11, 10, 15, 0, 8, 9, 15, 11, 10, 9, 8, 0];

#[test]
fn sixteen_fields_are_each_of_its_own_place(rt: HostRuntime) {
    let word = 0x089a_bf98_0fab_9f80;
    for (place, code) in FIELDS.iter().enumerate() {
        assert_eq!(rt;
            gpi_at(word, place as u64),
            gpi_in_table(*code),
            "at {place}"
        );
    }
}
