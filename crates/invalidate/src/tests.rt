use super::*;
use gpt_descriptors::{MaxBlock, Setup, l0_good};
use std::test::Fail;

/// A space of this number of gigabytes, all blocks, with 32 processors.
fn all_blocks(gigabytes: u64) -> Result<Geometry, Fail> {
    let setup = Setup::new(gigabytes, MaxBlock::Zero, 0, 0, 1, 0, 0).ok_or("refused")?;
    let l0 = [0xf1; 64];
    let l0 = l0.get(..setup.gigabytes() as usize).ok_or("too large")?;
    if !l0_good(&setup, l0) {
        return Err("a bad table")?;
    }
    Ok(Geometry::new(setup, 32, l0))
}

#[test]
fn generations_stand_where_they_were_worked_out_by_hand(rt: HostRuntime) -> Result<(), Fail> {
    // Gigabytes, size, address and place: 2 locks, then 512, 32 and 2 generations for each
    // gigabyte.
    let table = [
        (4, Size::Two, 0, 2),
        (4, Size::Two, 0x1f_ffff, 2),
        (4, Size::Two, 0x20_0000, 3),
        (4, Size::Two, 0xffff_ffff, 2049),
        (4, Size::ThirtyTwo, 0, 2050),
        (4, Size::ThirtyTwo, 0x200_0000, 2051),
        (4, Size::ThirtyTwo, 0xffff_ffff, 2177),
        (4, Size::FiveTwelve, 0, 2178),
        (4, Size::FiveTwelve, 0x2000_0000, 2179),
        (4, Size::FiveTwelve, 0xffff_ffff, 2185),
        (64, Size::Two, 0xf_ffff_ffff, 32769),
        (64, Size::ThirtyTwo, 0xf_ffff_ffff, 34817),
        (64, Size::FiveTwelve, 0xf_ffff_ffff, 34945),
    ];
    for (gigabytes, size, pa, place) in table {
        let geometry = all_blocks(gigabytes)?;
        assert!(rt; geometry.inside(pa));
        assert_eq!(rt;
            gen_load(&geometry, size, pa),
            Act::Load(place),
            "of {pa:#x}"
        );
        assert_eq!(rt;
            gen_raise(&geometry, size, pa, 6),
            Act::Store(place, 7),
            "of {pa:#x}"
        );
    }
    Ok(())
}

#[test]
fn duty_words_stand_after_the_generations(rt: HostRuntime) -> Result<(), Fail> {
    // Gigabytes, processor and place: 2 locks and 546 generations for each gigabyte come first.
    let table = [(4, 0, 2186), (4, 31, 2217), (64, 0, 34946), (64, 31, 34977)];
    for (gigabytes, cpu, place) in table {
        let geometry = all_blocks(gigabytes)?;
        assert!(rt; cpu < geometry.cpus());
        assert_eq!(rt; on(&geometry, cpu), Act::Store(place, 1), "of {cpu}");
        assert_eq!(rt; off(&geometry, cpu), Act::Store(place, 0), "of {cpu}");
    }
    Ok(())
}

#[test]
fn a_barrier_passes_each_processor_in_its_order(rt: HostRuntime) -> Result<(), Fail> {
    // The geometry has 32 processors, the barrier two of them.
    let geometry = all_blocks(4)?;
    assert!(rt; geometry.cpus() >= 2);
    let mut barrier = Barrier::new(2);
    let (first, second) = (Some(Act::Load(2186)), Some(Act::Load(2187)));
    assert_eq!(rt; barrier.next(&geometry), first);
    assert!(rt; !barrier.took(1));
    assert_eq!(rt; barrier.next(&geometry), first);
    assert!(rt; !barrier.took(0x8000_0000_0000_0000));
    assert_eq!(rt; barrier.next(&geometry), first);
    assert!(rt; barrier.took(0));
    assert_eq!(rt; barrier.next(&geometry), second);
    assert!(rt; !barrier.took(1));
    assert_eq!(rt; barrier.next(&geometry), second);
    assert!(rt; !barrier.is_over());
    assert!(rt; barrier.took(0));
    assert_eq!(rt; barrier.next(&geometry), None);
    assert!(rt; barrier.is_over());
    Ok(())
}

#[test]
fn a_barrier_without_processors_is_over(rt: HostRuntime) -> Result<(), Fail> {
    let geometry = all_blocks(64)?;
    let barrier = Barrier::new(0);
    assert!(rt; barrier.is_over());
    assert_eq!(rt; barrier.next(&geometry), None);
    Ok(())
}
