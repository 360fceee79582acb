use gpt_descriptors::{
    GEN_LAST, Generations, Gpi, Size, decode_l1, granules_of, is_granules, is_worn, l1_field,
    with_field,
};

/// Words, and the same with this field replaced by this value.
const REPLACED: [(u64, u64, u64, u64); 4] = [
    (0x9999_9999_9999_9999, 0, 0xb, 0x9999_9999_9999_999b),
    (0x9999_9999_9999_9999, 15, 0x0, 0x0999_9999_9999_9999),
    (0xffff_ffff_ffff_ffff, 7, 0x8, 0xffff_ffff_8fff_ffff),
    (0x89ab_f089_abf0_89ab, 4, 0xa, 0x89ab_f089_abfa_89ab),
];

#[test]
fn one_field_is_replaced(rt: HostRuntime) {
    for (word, place, value, want) in REPLACED.iter() {
        assert_eq!(rt;
            with_field(*word, *place % 16, *value % 16),
            *want,
            "of {word:#x}"
        );
    }
}

/// GPIs and the words of sixteen of them.
const GRANULES: [(Gpi, u64); 6] = [
    (Gpi::NoAccess, 0),
    (Gpi::Secure, 0x8888_8888_8888_8888),
    (Gpi::NonSecure, 0x9999_9999_9999_9999),
    (Gpi::Root, 0xaaaa_aaaa_aaaa_aaaa),
    (Gpi::Realm, 0xbbbb_bbbb_bbbb_bbbb),
    (Gpi::Any, 0xffff_ffff_ffff_ffff),
];

#[test]
fn sixteen_granules_of_one_gpi(rt: HostRuntime) {
    for (gpi, word) in GRANULES.iter() {
        assert_eq!(rt; granules_of(*gpi), *word, "of {gpi:?}");
    }
}

/// Descriptors, a place, its GPI, and whether the word is one of granules.
const FIELDS: [(u64, u64, Gpi, bool); 6] = [
    (0x0999_9999_9999_999b, 0, Gpi::Realm, true),
    (0x0999_9999_9999_999b, 1, Gpi::NonSecure, true),
    (0x0999_9999_9999_999b, 15, Gpi::NoAccess, true),
    (0x191, 0, Gpi::NonSecure, false),
    (0x2b1, 9, Gpi::Realm, false),
    (0x301, 15, Gpi::NoAccess, false),
];

/// The GPI of a place of a word and whether it is one of granules, if the word is a descriptor.
fn field_of(word: u64, place: u64) -> Option<(Gpi, bool)> {
    if decode_l1(word).is_some() {
        Some((l1_field(word, place % 16), is_granules(word)))
    } else {
        None
    }
}

#[test]
fn one_field_is_read(rt: HostRuntime) {
    for (word, place, gpi, granules) in FIELDS.iter() {
        assert_eq!(rt;
            field_of(*word, *place),
            Some((*gpi, *granules)),
            "of {word:#x} at {place}"
        );
    }
}

#[test]
fn generations_are_read_and_replaced_by_size(rt: HostRuntime) {
    let before = Generations {
        two: 5,
        thirty_two: 6,
        five_twelve: 7,
    };
    let sizes = [(Size::Two, 5), (Size::ThirtyTwo, 6), (Size::FiveTwelve, 7)];
    for (size, value) in sizes.iter() {
        assert_eq!(rt; before.get(*size), *value, "of {size:?}");
        let after = before.with(*size, 9);
        assert_eq!(rt; after.get(*size), 9, "of {size:?}");
        assert_eq!(rt; after.with(*size, *value), before, "of {size:?}");
    }
    assert!(rt; is_worn(GEN_LAST - 1));
    assert!(rt; !is_worn(GEN_LAST - 2));
}
