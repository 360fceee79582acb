use gpt_descriptors::{MaxBlock, Setup};
use history::*;
use region_plan::{Kind, Plan, Region};
use std::alloc::{AllocError, Global};
use std::process::Abort;
use std::test::Fail;

const PA: u64 = 0x20_0000;

const GRANULE: u64 = 0x200;

const DELEGATE: Task = Task::Delegate(PA, Source::Realm);

const UNDELEGATE: Task = Task::Undelegate(PA, Source::Realm);

const LOOK: Task = Task::Look(PA, Space::NonSecure);

/// A state with nothing open, of 1,024 granules, each Non-secure but for the last, which is Secure.
fn state(alloc: Global) -> Result<Replay, AllocError> {
    let mut map = RunMap::new(alloc, 1024)?;
    map.set(GRANULE, Gpi::NonSecure)?;
    map.set(GRANULE + 1, Gpi::Secure)?;
    Replay::new(alloc, map)
}

/// Applies the entry where it is legal, and says whether it is.
fn given(
    replay: &mut Replay,
    entry: &Entry,
    task: Task,
    answer: Answer,
) -> Result<bool, AllocError> {
    if !replay.legal(entry, task, answer) {
        return Ok(false);
    }
    replay.apply(entry)?;
    Ok(true)
}

fn done(generation: u64) -> Answer {
    Answer::Done(Generations {
        two: generation,
        thirty_two: generation,
        five_twelve: generation,
    })
}

fn seen(gpi: Gpi, allowed: bool, level: u8) -> Answer {
    Answer::Seen(Access {
        allowed,
        gpi,
        level,
        via: Via::Cold {
            reach: Reach::Word,
            lo: 0,
            hi: 0,
        },
    })
}

fn refused(found: Gpi) -> Entry {
    Entry::Refused {
        caller: 0,
        call: 0,
        granule: GRANULE,
        found,
    }
}

fn changed(call: u32, from: Gpi, to: Gpi) -> Entry {
    Entry::Changed {
        caller: 0,
        call,
        granule: GRANULE,
        from,
        to,
    }
}

fn settled(call: u32) -> Entry {
    Entry::Settled {
        caller: 0,
        call,
        granule: GRANULE,
    }
}

fn looked(gpi: Gpi, allowed: bool) -> Entry {
    Entry::Looked {
        caller: 1,
        call: 0,
        granule: GRANULE,
        space: Space::NonSecure,
        gpi,
        allowed,
    }
}

/// The plan of one Non-secure gigabyte with a table.
fn nonsecure_plan(rt: &impl Abort, alloc: Global) -> Result<Plan, Fail> {
    let setup = Setup::new(4, MaxBlock::FiveTwelve, 1, 0, 8, 1, 0x8000_0000).expect(
        rt,
        "values in range",
    );
    let region = Region {
        base: 0,
        size: 0x4000_0000,
        kind: Kind::Granule,
        gpi: Gpi::NonSecure,
    };
    Ok(Plan::plan(alloc, &[region], &setup).map_err(|_| "an accepted plan")?)
}

#[test]
fn a_granule_comes_back_by_six_entries(rt: HostRuntime) -> Result<(), Fail> {
    let plan = nonsecure_plan(&rt, rt.alloc())?;
    let mut replay = Replay::new(rt.alloc(), RunMap::of(rt.alloc(), &plan)?)?;
    let entries = [
        (changed(0, Gpi::NonSecure, Gpi::Realm), DELEGATE, done(1)),
        (settled(0), DELEGATE, done(1)),
        (changed(1, Gpi::Realm, Gpi::NoAccess), UNDELEGATE, done(3)),
        (settled(1), UNDELEGATE, done(3)),
        (
            changed(1, Gpi::NoAccess, Gpi::NonSecure),
            UNDELEGATE,
            done(3),
        ),
        (settled(1), UNDELEGATE, done(3)),
    ];
    for (entry, task, answer) in entries {
        assert!(rt; given(&mut replay, &entry, task, answer)?, "{entry:?}");
    }
    assert!(rt; replay.opened().is_empty());
    let first = RunMap::of(rt.alloc(), &plan)?;
    assert_eq!(rt; replay.map().size(), first.size());
    for granule in 0..first.size() {
        if granule < replay.map().size() {
            assert_eq!(rt;
                replay.map().get(granule),
                first.get(granule),
                "at {granule}"
            );
        }
    }
    Ok(())
}

#[test]
fn what_is_legal_of_a_closed_granule(rt: HostRuntime) -> Result<(), Fail> {
    let replay = state(rt.alloc())?;
    let table = [
        (
            changed(0, Gpi::NonSecure, Gpi::Realm),
            DELEGATE,
            done(1),
            true,
        ),
        (
            changed(0, Gpi::Secure, Gpi::Realm),
            DELEGATE,
            done(1),
            false,
        ),
        (
            changed(0, Gpi::NonSecure, Gpi::Secure),
            DELEGATE,
            done(1),
            false,
        ),
        (
            changed(0, Gpi::NonSecure, Gpi::Realm),
            DELEGATE,
            Answer::Perm(Gpi::NonSecure),
            false,
        ),
        (
            changed(0, Gpi::NonSecure, Gpi::Realm),
            UNDELEGATE,
            done(1),
            false,
        ),
        (settled(0), DELEGATE, done(1), false),
        (
            refused(Gpi::NonSecure),
            UNDELEGATE,
            Answer::Perm(Gpi::NonSecure),
            true,
        ),
        (
            refused(Gpi::NonSecure),
            DELEGATE,
            Answer::Perm(Gpi::NonSecure),
            false,
        ),
        (
            refused(Gpi::NonSecure),
            DELEGATE,
            Answer::Worn(Size::Two, GRANULE),
            true,
        ),
        (
            refused(Gpi::NonSecure),
            UNDELEGATE,
            Answer::Worn(Size::Two, GRANULE),
            false,
        ),
        (
            refused(Gpi::Realm),
            DELEGATE,
            Answer::Perm(Gpi::Realm),
            false,
        ),
        (
            looked(Gpi::NonSecure, true),
            LOOK,
            seen(Gpi::NonSecure, true, 1),
            true,
        ),
        (
            looked(Gpi::NonSecure, true),
            LOOK,
            seen(Gpi::NonSecure, true, 0),
            false,
        ),
        (
            looked(Gpi::NonSecure, false),
            LOOK,
            seen(Gpi::NonSecure, false, 1),
            false,
        ),
        (
            looked(Gpi::Realm, false),
            LOOK,
            seen(Gpi::Realm, false, 1),
            false,
        ),
        (
            looked(Gpi::NonSecure, true),
            DELEGATE,
            seen(Gpi::NonSecure, true, 1),
            false,
        ),
    ];
    for (entry, task, answer, want) in table {
        assert_eq!(rt;
            replay.legal(&entry, task, answer),
            want,
            "{entry:?} of {task:?} with {answer:?}"
        );
    }
    Ok(())
}

#[test]
fn what_is_legal_of_an_open_granule(rt: HostRuntime) -> Result<(), Fail> {
    let mut replay = state(rt.alloc())?;
    assert!(rt;
        given(
            &mut replay,
            &changed(0, Gpi::NonSecure, Gpi::Realm),
            DELEGATE,
            done(1)
        )?
    );
    let table = [
        (
            looked(Gpi::NonSecure, true),
            LOOK,
            seen(Gpi::NonSecure, true, 1),
            true,
        ),
        (
            looked(Gpi::Realm, false),
            LOOK,
            seen(Gpi::Realm, false, 1),
            true,
        ),
        (
            looked(Gpi::Secure, false),
            LOOK,
            seen(Gpi::Secure, false, 1),
            false,
        ),
        (
            changed(1, Gpi::Realm, Gpi::NoAccess),
            UNDELEGATE,
            done(3),
            false,
        ),
        (
            refused(Gpi::Realm),
            DELEGATE,
            Answer::Perm(Gpi::Realm),
            false,
        ),
        (settled(0), LOOK, done(1), false),
        (settled(0), DELEGATE, Answer::Inval, false),
        (settled(0), DELEGATE, done(1), true),
    ];
    for (entry, task, answer, want) in table {
        assert_eq!(rt;
            replay.legal(&entry, task, answer),
            want,
            "{entry:?} of {task:?} with {answer:?}"
        );
    }
    assert!(rt; given(&mut replay, &settled(0), DELEGATE, done(1))?);
    let late = looked(Gpi::NonSecure, true);
    assert!(rt; !replay.legal(&late, LOOK, seen(Gpi::NonSecure, true, 1)));
    assert!(rt;
        given(
            &mut replay,
            &looked(Gpi::Realm, false),
            LOOK,
            seen(Gpi::Realm, false, 1)
        )?
    );
    Ok(())
}
