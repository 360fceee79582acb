ghost use Rattle.std.specs.Prelude.{◌≡◌, ◌+◌, ◌^◌, ◌<◌, ◌≤◌, length};
ghost use Rattle.shared_words.specs.Acts.{place_in};

use super::*;
use gpt_descriptors::{MaxBlock, Setup, Size, l0_good};
use std::alloc::{AllocError, Global};
use std::test::Fail;

/// The first generation of the geometry below.
const FIRST: u64 = 7;

/// 4 GB with one table, of the second gigabyte, and two processors.
fn one_table() -> Result<Geometry, Fail> {
    let setup = Setup::new(4, MaxBlock::FiveTwelve, 1, FIRST, 8, 1, 0x8000_0000).ok_or("refused")?;
    let l0 = [0xf1, 0x8000_0003, 0x91, 0x01];
    if !l0_good(&setup, l0.as_slice()) {
        return Err("a bad table")?;
    }
    Ok(Geometry::new(setup, 2, l0.as_slice()))
}

/// L1 words that are their own numbers, 1000 for the first one.
fn numbered(alloc: Global, count: u64) -> Result<Vec<u64>, AllocError>
    requires { count < 1000000 }
{
    let mut words = Vec::new(alloc);
    for number in 0..count {
        words.push(1000 + number)?;
    }
    Ok(words)
}

/// The words of a geometry before the first act, its L1 words numbered.
fn started(alloc: Global, geometry: &Geometry) -> Result<PlainWords, Fail> {
    let count = geometry.l1_tables() * geometry.setup().table_words();
    let l1 = numbered(alloc, count)?;
    if l1.len() as u64 != count {
        return Err("not all L1 words")?;
    }
    let words = PlainWords::new(alloc, geometry, l1.as_slice())?;
    Ok(words)
}

/// Makes an act through the trait, as code over any list of words does.
fn make<W: Words>(words: &mut W, act: Act) -> u64
    requires { place_in act < length (W.words words.old) }
{
    words.apply(act)
}

/// The answer of an act, or `None` where there is no such place.
fn answer(words: &mut PlainWords, act: Act) -> Option<u64> {
    let place = match act {
        Act::Load(place) => place,
        Act::Store(place, _) => place,
        Act::Or(place, _) => place,
        Act::And(place, _) => place,
    };
    if place < words.words().len() {
        Some(make(words, act))
    } else {
        None
    }
}

#[test]
fn words_before_the_first_act_stand_at_their_places(rt: HostRuntime) -> Result<(), Fail> {
    let geometry = one_table()?;
    let shared = started(rt.alloc(), &geometry)?;
    let words = shared.words();

    // 2 locks, 2048, 128 and 8 generations, 2 duty words, and twice 16384 words.
    assert_eq!(rt; words.len(), 34_956);
    assert_eq!(rt; words.iter().filter(|word| **word == 0).count(), 16_388);
    assert_eq!(rt; words.iter().filter(|word| **word == FIRST).count(), 2184);
    assert_eq!(rt; words.iter().filter(|word| **word >= 1000).count(), 16_384);

    assert_eq!(rt; words.first().copied(), Some(0));
    assert_eq!(rt; words.get(1).copied(), Some(0));
    let sizes = [Size::Two, Size::ThirtyTwo, Size::FiveTwelve];
    for pa in [0, 0x4000_0000, 0xffff_ffff] {
        assert!(rt; geometry.inside(pa));
        for size in sizes {
            let place = geometry.gen_place(size, pa);
            assert_eq!(rt;
                words.get(place).copied(),
                Some(FIRST),
                "of {size:?} at {pa:#x}"
            );
        }
    }
    for cpu in 0..2 {
        assert!(rt; cpu < geometry.cpus());
        let place = geometry.duty_place(cpu);
        assert_eq!(rt; words.get(place).copied(), Some(0), "of processor {cpu}");
    }

    // L1 words of 64 KB each.
    let table = [
        (0x4000_0000, 1000),
        (0x4001_0000, 1001),
        (0x5234_5678, 5660),
        (0x7fff_ffff, 17_383),
    ];
    for (pa, word) in table {
        assert!(rt; geometry.inside(pa));
        let place = geometry.l1_place(pa).ok_or("no table")?;
        assert_eq!(rt; words.get(place).copied(), Some(word), "at {pa:#x}");
        let place = geometry.line_place(pa).ok_or("no table")?;
        assert_eq!(rt; words.get(place).copied(), Some(0), "at {pa:#x}");
    }
    start_words_are_named();
    Ok(())
}

#[test]
fn acts_answer_the_word_before_them_and_change_it_alone(rt: HostRuntime) -> Result<(), Fail> {
    let geometry = one_table()?;
    let mut shared = started(rt.alloc(), &geometry)?;

    // Each act on the second lock word with its answer, and the word after it.
    let run = [
        (Act::Load(1), 0, 0),
        (Act::Or(1, 0b110), 0, 0b110),
        (Act::Or(1, 0b011), 0b110, 0b111),
        (Act::And(1, !0b010), 0b111, 0b101),
        (Act::And(1, 0b110), 0b101, 0b100),
        (Act::Store(1, u64::MAX), 0, u64::MAX),
        (Act::Load(1), u64::MAX, u64::MAX),
        (Act::And(1, 1 << 63), u64::MAX, 0x8000_0000_0000_0000),
        (Act::Store(1, 5), 0, 5),
    ];
    for (act, said, after) in run {
        assert_eq!(rt; answer(&mut shared, act), Some(said), "{act:?}");
        assert_eq!(rt; answer(&mut shared, Act::Load(0)), Some(0), "{act:?}");
        assert_eq!(rt; answer(&mut shared, Act::Load(1)), Some(after), "{act:?}");
        assert_eq!(rt; answer(&mut shared, Act::Load(2)), Some(FIRST), "{act:?}");
    }
    assert_eq!(rt; answer(&mut shared, Act::Or(34_955, 9)), Some(0));
    assert_eq!(rt; answer(&mut shared, Act::Load(34_956)), None);

    let words = shared.into_words();
    assert_eq!(rt; words.len(), 34_956);
    assert_eq!(rt; words.get(1).copied(), Some(5));
    assert_eq!(rt; words.last().copied(), Some(9));
    Ok(())
}

/// Words whose runs are made store by store.
#[derive(Drop)]
struct OneByOne(PlainWords);

impl Words for OneByOne {
    ghost words = { λ w. w.0 };

    fn apply(&mut self, act: Act) -> u64 {
        self.0.apply(act)
    }
}

/// Makes a run through the trait.
fn make_run<W: Words>(words: &mut W, run: StoreRun)
    requires room { run.first + run.count < 2 ^ 64 }
    requires within { run.first + run.count ≤ length (W.words words.old) }
{
    words.fill(run);
}

#[test]
fn a_run_stores_at_its_places_alone(rt: HostRuntime) -> Result<(), Fail> {
    let geometry = one_table()?;
    let mut shared = started(rt.alloc(), &geometry)?;
    let mut single = OneByOne(started(rt.alloc(), &geometry)?);

    // Runs of no store, of one, of many, and of the last words.
    for (first, count) in [(5, 0), (0, 1), (2188, 8192), (34_900, 56)] {
        if shared.words().len() != 34_956 || single.0.words().len() != 34_956 {
            return Err("other words")?;
        }
        let run = StoreRun {
            first,
            count,
            value: 0xa5,
        };
        make_run(&mut shared, run);
        make_run(&mut single, run);
        assert!(rt;
            shared.words() == single.0.words(),
            "{count} from {first} on"
        );
    }
    let words = shared.words();
    assert_eq!(rt; words.iter().filter(|word| **word == 0xa5).count(), 8249);
    for place in [1, 2187, 10_380, 34_899] {
        assert!(rt; words.get(place).copied() != Some(0xa5), "at {place}");
    }
    Ok(())
}
