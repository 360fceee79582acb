use gpt_descriptors::GEN_LAST;
use history::*;
use std::test::Fail;

const GRANULE: u64 = 0x200;

/// A granule beside it, one in the next 2 MB, and one in the next 32 MB.
const NEIGHBOUR: u64 = 0x201;

const NEXT_TWO: u64 = 0x400;

const NEXT_THIRTY_TWO: u64 = 0x2000;

/// `saw`, value by value.
fn slow_saw(values: &[Gpi], first: u64, lo: u64, hi: u64, gpi: Gpi) -> bool {
    values.iter().enumerate().any(|(changes, value)| {
        let number = first as u128 + changes as u128;
        lo as u128 <= number && number <= hi as u128 + 1 && *value == gpi
    })
}

fn changed(granule: u64, from: Gpi, to: Gpi) -> Entry {
    Entry::Changed {
        caller: 0,
        call: 0,
        granule,
        from,
        to,
    }
}

fn looked(call: u32, gpi: Gpi, allowed: bool) -> Entry {
    Entry::Looked {
        caller: 1,
        call,
        granule: GRANULE,
        space: Space::NonSecure,
        gpi,
        allowed,
    }
}

#[test]
fn saw_is_the_slow_one(rt: HostRuntime) -> Result<(), Fail> {
    let values = [
        Gpi::NonSecure,
        Gpi::Realm,
        Gpi::NoAccess,
        Gpi::NonSecure,
        Gpi::Secure,
    ];
    let gpis = [
        Gpi::NoAccess,
        Gpi::Secure,
        Gpi::NonSecure,
        Gpi::Root,
        Gpi::Realm,
        Gpi::Any,
    ];
    for first in [0, 1, 3, GEN_LAST - 2, GEN_LAST] {
        for low in 0..7 {
            for high in 0..7 {
                for gpi in gpis {
                    let lo = first.saturating_add(low);
                    let hi = first.saturating_sub(1).saturating_add(high).min(GEN_LAST);
                    for listed in [0, 1, 4, 5] {
                        let values = values.get(..listed).ok_or("too short")?;
                        assert_eq!(rt;
                            saw(values, first, lo, hi, gpi),
                            slow_saw(values, first, lo, hi, gpi),
                            "of {listed} values from {first}, {lo} to {hi}, {gpi:?}"
                        );
                    }
                }
            }
        }
    }
    Ok(())
}

#[test]
fn an_access_sees_the_change_of_the_generation_after_its_last(rt: HostRuntime) -> Result<(), Fail> {
    let values = [Gpi::NonSecure, Gpi::Realm, Gpi::NoAccess];
    // Stamps from 5 on, before any change, and whether each value was seen between them.
    let table = [
        (5, 5, [true, true, false]),
        (5, 6, [true, true, true]),
        (6, 6, [false, true, true]),
        (6, 7, [false, true, true]),
        (7, 7, [false, false, true]),
        (8, 8, [false, false, false]),
    ];
    for (lo, hi, want) in table {
        for (gpi, seen) in values.iter().zip(want.iter()) {
            assert_eq!(rt;
                saw(&values, 5, lo, hi, *gpi),
                *seen,
                "{gpi:?} from {lo} to {hi}"
            );
        }
    }
    Ok(())
}

#[test]
fn values_go_by_the_changes_of_the_region(rt: HostRuntime) -> Result<(), Fail> {
    let entries = [
        changed(NEIGHBOUR, Gpi::NonSecure, Gpi::Secure),
        changed(GRANULE, Gpi::NonSecure, Gpi::Realm),
        Entry::Settled {
            caller: 0,
            call: 0,
            granule: GRANULE,
        },
        changed(NEXT_TWO, Gpi::NonSecure, Gpi::Realm),
        changed(NEXT_THIRTY_TWO, Gpi::NonSecure, Gpi::Realm),
        changed(GRANULE, Gpi::Realm, Gpi::NoAccess),
    ];
    let before = Gpi::NonSecure;
    let (realm, none) = (Gpi::Realm, Gpi::NoAccess);
    assert_eq!(rt;
        values_after(rt.alloc(), before, GRANULE, Size::Two, &entries)?.as_slice(),
        [before, before, realm, none].as_slice()
    );
    assert_eq!(rt;
        values_after(rt.alloc(), before, GRANULE, Size::ThirtyTwo, &entries)?.as_slice(),
        [before, before, realm, realm, none].as_slice()
    );
    assert_eq!(rt;
        values_after(rt.alloc(), before, GRANULE, Size::FiveTwelve, &entries)?.as_slice(),
        [before, before, realm, realm, realm, none].as_slice()
    );
    Ok(())
}

#[test]
fn three_accesses_around_a_delegate(rt: HostRuntime) -> Result<(), Fail> {
    // The first access is cold with the stamps 0 and 0, the second a hit at 0 between the change
    // and its raises, the third missed with 1 and 1 after them.
    let entries = [
        looked(0, Gpi::NonSecure, true),
        changed(GRANULE, Gpi::NonSecure, Gpi::Realm),
        looked(1, Gpi::NonSecure, true),
        Entry::Settled {
            caller: 0,
            call: 0,
            granule: GRANULE,
        },
        looked(2, Gpi::Realm, false),
    ];
    let values = values_after(rt.alloc(), Gpi::NonSecure, GRANULE, Size::Two, &entries)?;
    assert!(rt; saw(&values, 0, 0, 0, Gpi::NonSecure));
    assert!(rt; saw(&values, 0, 0, 0, Gpi::Realm));
    assert!(rt; saw(&values, 0, 1, 1, Gpi::Realm));
    assert!(rt; !saw(&values, 0, 1, 1, Gpi::NonSecure));
    Ok(())
}
