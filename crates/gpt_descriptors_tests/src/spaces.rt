use gpt_descriptors::{
    GEN_LAST, Geometry, Gpi, L1Entry, MaxBlock, Reach, Setup, Size, l0_good, places_are_distinct,
    reach_of, tag_size,
};

/// The contiguous sizes, each with its reach, its bytes, and what 0, 2, 32 and 512 MB permit.
const REACHES: [(Size, Reach, u64, [bool; 4]); 3] = [
    (Size::Two, Reach::Two, 0x20_0000, [false, true, true, true]),
    (
        Size::ThirtyTwo,
        Reach::ThirtyTwo,
        0x200_0000,
        [false, false, true, true],
    ),
    (
        Size::FiveTwelve,
        Reach::FiveTwelve,
        0x2000_0000,
        [false, false, false, true],
    ),
];

#[test]
fn reaches_and_sizes_agree(rt: HostRuntime) {
    for (size, reach, bytes, permitted) in REACHES.iter() {
        let found = (
            reach_of(L1Entry::Contig(*size, Gpi::Root)),
            tag_size(*reach),
            size.bytes(),
        );
        assert_eq!(rt; found, (*reach, *size, *bytes));
        let permits = [
            MaxBlock::Zero.permits(*size),
            MaxBlock::Two.permits(*size),
            MaxBlock::ThirtyTwo.permits(*size),
            MaxBlock::FiveTwelve.permits(*size),
        ];
        assert_eq!(rt; permits, *permitted, "of {size:?}");
    }
    let word = (reach_of(L1Entry::Granules(0)), tag_size(Reach::Word));
    assert_eq!(rt; word, (Reach::Word, Size::Two));
}

/// Gigabytes, blocks for a lock bit, first generation, ring, tables, and whether they are in range.
const SETUPS: [(u64, u64, u64, u64, u64, bool); 16] = [
    (4, 0, 0, 1, 0, true),
    (64, 8, GEN_LAST, 64, 16, true),
    (4, 1, 0, 1, 0, true),
    (4, 2, 0, 1, 0, true),
    (4, 4, 0, 1, 0, true),
    (3, 0, 0, 1, 0, false),
    (5, 0, 0, 1, 0, false),
    (63, 0, 0, 1, 0, false),
    (65, 0, 0, 1, 0, false),
    (4, 3, 0, 1, 0, false),
    (4, 9, 0, 1, 0, false),
    (4, 16, 0, 1, 0, false),
    (4, 0, 9223372036854775808, 1, 0, false),
    (4, 0, 0, 0, 0, false),
    (4, 0, 0, 65, 0, false),
    (4, 0, 0, 1, 17, false),
];

#[test]
fn setups_end_where_their_ranges_end(rt: HostRuntime) {
    for (gigabytes, blocks, first, ring, tables, good) in SETUPS.iter() {
        let (max, base) = (MaxBlock::Zero, u64::MAX);
        let setup = Setup::new(*gigabytes, max, *blocks, *first, *ring, *tables, base);
        let found = setup.is_some();
        assert_eq!(rt;
            found,
            *good,
            "{gigabytes} {blocks} {first} {ring} {tables}"
        );
    }
}

/// A space of 4 GB with room for two L1 tables from this address on.
fn four_gigabytes(base: u64) -> Option<Setup> {
    Setup::new(4, MaxBlock::FiveTwelve, 1, 0, 8, 2, base)
}

/// The bytes of a granule and of a word, and the words of a table and of each size.
fn sizes() -> Option<[u64; 6]> {
    let setup = four_gigabytes(0)?;
    Some([
        setup.granule_bytes(),
        setup.word_bytes(),
        setup.table_words(),
        setup.words_of(Size::Two),
        setup.words_of(Size::ThirtyTwo),
        setup.words_of(Size::FiveTwelve),
    ])
}

#[test]
fn sizes_are_those_of_granules_of_4_kb(rt: HostRuntime) {
    assert_eq!(rt; sizes(), Some([4096, 65536, 16384, 32, 512, 8192]));
}

/// Where the L1 tables begin, the level 0 words, and whether they are good. A table of 4 KB
/// granules has 0x20000 bytes.
const LEVEL_0: [(u64, [u64; 4], bool); 13] = [
    (0x8000_0000, [0xf1, 0x8000_0003, 0x91, 0x8002_0003], true),
    (0x8000_0000, [0x01, 0x81, 0xa1, 0xb1], true),
    // A stray block, and a stray table.
    (0x8000_0000, [0xf1, 0x8000_0003, 0x11, 0x8002_0003], false),
    (0x8000_0000, [0xf1, 0x8000_0007, 0x91, 0x8002_0003], false),
    // The first is after the base.
    (0x8000_0000, [0xf1, 0x8002_0003, 0x91, 0xf1], false),
    // The second is at the first, is left out, and is below it.
    (0x8000_0000, [0xf1, 0x8000_0003, 0x91, 0x8000_0003], false),
    (0x8000_0000, [0xf1, 0x8000_0003, 0x91, 0x8004_0003], false),
    (0x8000_0000, [0xf1, 0x8002_0003, 0x91, 0x8000_0003], false),
    // Three tables.
    (
        0x8000_0000,
        [0xf1, 0x8000_0003, 0x8002_0003, 0x8004_0003],
        false,
    ),
    // A base that is not aligned.
    (0x8001_0000, [0xf1, 0xf1, 0xf1, 0xf1], true),
    (0x8001_0000, [0xf1, 0xf1, 0xf1, 0x8001_0003], false),
    // The last table ends at 2^52, and above it.
    (
        0xf_ffff_fffe_0000,
        [0xf1, 0xf1, 0xf1, 0xf_ffff_fffe_0003],
        true,
    ),
    (
        0xf_ffff_fffe_0000,
        [0xf1, 0xf1, 0xf_ffff_fffe_0003, 0x10_0000_0000_0003],
        false,
    ),
];

/// Whether these level 0 words are good.
fn good_from(base: u64, words: &[u64]) -> Option<bool> {
    let setup = four_gigabytes(base)?;
    Some(l0_good(&setup, words))
}

#[test]
fn level_0_tables_are_good_or_broken_in_one_place(rt: HostRuntime) {
    for (base, words, good) in LEVEL_0.iter() {
        let found = good_from(*base, words.as_slice());
        assert_eq!(rt; found, Some(*good), "{base:#x} {words:?}");
    }
}

/// One word too few, and one too many.
#[test]
fn level_0_tables_have_a_word_for_each_gigabyte(rt: HostRuntime) {
    let few = good_from(0x8000_0000, [0xf1, 0x8000_0003, 0x91].as_slice());
    let many = good_from(
        0x8000_0000,
        [0xf1, 0x8000_0003, 0x91, 0xf1, 0xf1].as_slice(),
    );
    assert_eq!(rt; (few, many), (Some(false), Some(false)));
}

/// 4 GB, 3 processors, 2 tables: 2 locks, 2048, 128 and 8 generations, 3 duty words, and twice
/// 32768 words.
fn geometry() -> Option<Geometry> {
    let words = [0xf1, 0x8000_0003, 0x91, 0x8002_0003];
    let setup = four_gigabytes(0x8000_0000)?;
    if l0_good(&setup, words.as_slice()) {
        Some(Geometry::new(setup, 3, words.as_slice()))
    } else {
        None
    }
}

/// The tables, and all words.
fn counts() -> Option<(u64, usize)> {
    let geometry = geometry()?;
    Some((geometry.l1_tables(), geometry.words()))
}

/// The places of the first generation of each size and of the first L1 word.
fn starts() -> Option<[usize; 4]> {
    let geometry = geometry()?;
    Some([
        geometry.first_generation(Size::Two),
        geometry.first_generation(Size::ThirtyTwo),
        geometry.first_generation(Size::FiveTwelve),
        geometry.first_l1_word(),
    ])
}

/// The granule of an address, and its place in its word.
fn granule(pa: u64) -> Option<(u64, u64)> {
    let geometry = geometry()?;
    Some((geometry.granule(pa), geometry.place_in_word(pa)))
}

/// The places of the generations of an address inside: of 2, 32 and 512 MB.
fn generations(pa: u64) -> Option<[usize; 3]> {
    let geometry = geometry()?;
    if geometry.inside(pa) {
        Some([
            geometry.gen_place(Size::Two, pa),
            geometry.gen_place(Size::ThirtyTwo, pa),
            geometry.gen_place(Size::FiveTwelve, pa),
        ])
    } else {
        None
    }
}

/// The place of a processor's duty word.
fn duty(cpu: u32) -> Option<usize> {
    let geometry = geometry()?;
    if cpu < geometry.cpus() {
        Some(geometry.duty_place(cpu))
    } else {
        None
    }
}

/// The place of the word of an address inside, and of its line, or the GPI of its gigabyte.
fn word(pa: u64) -> Option<(Option<usize>, Option<usize>, Option<Gpi>)> {
    let geometry = geometry()?;
    if geometry.inside(pa) {
        Some((
            geometry.l1_place(pa),
            geometry.line_place(pa),
            geometry.block_gpi(pa),
        ))
    } else {
        None
    }
}

const GENERATIONS: [(u64, Option<[usize; 3]>); 8] = [
    (0, Some([2, 2050, 2178])),
    (0x1f_ffff, Some([2, 2050, 2178])),
    (0x20_0000, Some([3, 2050, 2178])),
    (0x1ff_ffff, Some([17, 2050, 2178])),
    (0x200_0000, Some([18, 2051, 2178])),
    (0x2000_0000, Some([258, 2066, 2179])),
    (0xffff_ffff, Some([2049, 2177, 2185])),
    (0x1_0000_0000, None),
];

const DUTIES: [(u32, Option<usize>); 4] = [
    (0, Some(2186)),
    (1, Some(2187)),
    (2, Some(2188)),
    (3, None),
];

const WORDS: [(u64, Option<usize>, Option<usize>, Option<Gpi>); 8] = [
    (0, None, None, Some(Gpi::Any)),
    (0x3fff_ffff, None, None, Some(Gpi::Any)),
    (0x4000_0000, Some(2189), Some(34_957), None),
    (0x4001_0000, Some(2190), Some(34_958), None),
    (0x7fff_ffff, Some(18_572), Some(51_340), None),
    (0x8000_0000, None, None, Some(Gpi::NonSecure)),
    (0xc000_0000, Some(18_573), Some(51_341), None),
    (0xffff_ffff, Some(34_956), Some(67_724), None),
];

#[test]
fn generations_and_duties_have_places(rt: HostRuntime) {
    assert_eq!(rt; counts(), Some((2, 67_725)));
    for (pa, want) in GENERATIONS.iter() {
        assert_eq!(rt; generations(*pa), *want, "at {pa:#x}");
    }
    for (cpu, want) in DUTIES.iter() {
        assert_eq!(rt; duty(*cpu), *want, "of {cpu}");
    }
    assert_eq!(rt; starts(), Some([2, 2050, 2178, 2189]));
    places_are_distinct();
}

#[test]
fn granules_have_numbers_and_places(rt: HostRuntime) {
    assert_eq!(rt; granule(0xfff), Some((0, 0)));
    assert_eq!(rt; granule(0x1000), Some((1, 1)));
    assert_eq!(rt; granule(0x8000_f000), Some((0x8_000f, 15)));
    assert_eq!(rt; granule(0xffff_ffff), Some((0xf_ffff, 15)));
}

#[test]
fn words_have_places(rt: HostRuntime) {
    for (pa, l1, line, gpi) in WORDS.iter() {
        assert_eq!(rt; word(*pa), Some((*l1, *line, *gpi)), "at {pa:#x}");
    }
}
