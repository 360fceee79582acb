use super::*;
use std::test::Fail;

#[test]
fn values_are_those_of_the_standard(rt: HostRuntime) {
    // DDI 0487, encodings of the GPI field: every value from 0 to 16, of which six are accepted.
    let table = [
        (0, Some(Gpi::NoAccess)),
        (1, None),
        (2, None),
        (3, None),
        (4, None),
        (5, None),
        (6, None),
        (7, None),
        (8, Some(Gpi::Secure)),
        (9, Some(Gpi::NonSecure)),
        (10, Some(Gpi::Root)),
        (11, Some(Gpi::Realm)),
        (12, None),
        (13, None),
        (14, None),
        (15, Some(Gpi::Any)),
        (16, None),
        (u64::MAX, None),
    ];
    for (value, want) in table {
        assert_eq!(rt; gpi_of(value), want, "at {value}");
        if let Some(gpi) = want {
            assert_eq!(rt; nibble(gpi), value, "of {gpi:?}");
        }
    }
    assert_eq!(rt; own(Source::Realm), Gpi::Realm);
    assert_eq!(rt; own(Source::Secure), Gpi::Secure);
}

#[test]
fn a_gpi_permits_its_own_space_and_any_permits_all(rt: HostRuntime) {
    // Secure, non-secure, root, realm.
    let table = [
        (Gpi::NoAccess, [false, false, false, false]),
        (Gpi::Secure, [true, false, false, false]),
        (Gpi::NonSecure, [false, true, false, false]),
        (Gpi::Root, [false, false, true, false]),
        (Gpi::Realm, [false, false, false, true]),
        (Gpi::Any, [true, true, true, true]),
    ];
    for (gpi, [secure, nonsecure, root, realm]) in table {
        assert_eq!(rt; permits(gpi, Space::Secure), secure, "by {gpi:?}");
        assert_eq!(rt; permits(gpi, Space::NonSecure), nonsecure, "by {gpi:?}");
        assert_eq!(rt; permits(gpi, Space::Root), root, "by {gpi:?}");
        assert_eq!(rt; permits(gpi, Space::Realm), realm, "by {gpi:?}");
    }
}

#[test]
fn names_are_read_and_written_alike(rt: HostRuntime) {
    let table = [
        ("none", Some(Gpi::NoAccess), None, None, None),
        (
            "secure",
            Some(Gpi::Secure),
            Some(Space::Secure),
            Some(Source::Secure),
            Some(World::Secure),
        ),
        (
            "nonsecure",
            Some(Gpi::NonSecure),
            Some(Space::NonSecure),
            None,
            Some(World::NonSecure),
        ),
        ("root", Some(Gpi::Root), Some(Space::Root), None, None),
        (
            "realm",
            Some(Gpi::Realm),
            Some(Space::Realm),
            Some(Source::Realm),
            Some(World::Realm),
        ),
        ("any", Some(Gpi::Any), None, None, None),
        ("", None, None, None, None),
        ("Secure", None, None, None, None),
        ("secur", None, None, None, None),
        ("secure ", None, None, None, None),
        ("non-secure", None, None, None, None),
        ("noaccess", None, None, None, None),
    ];
    for (name, gpi, space, source, world) in table {
        let text = name.as_bytes();
        assert_eq!(rt; gpi_named(text), gpi, "of {text:?}");
        assert_eq!(rt; space_named(text), space, "of {text:?}");
        assert_eq!(rt; source_named(text), source, "of {text:?}");
        assert_eq!(rt; world_named(text), world, "of {text:?}");
        if let Some(gpi) = gpi {
            assert_eq!(rt; gpi_name(gpi).as_bytes(), text);
        }
        if let Some(space) = space {
            assert_eq!(rt; space_name(space).as_bytes(), text);
        }
        if let Some(source) = source {
            assert_eq!(rt; source_name(source).as_bytes(), text);
        }
        if let Some(world) = world {
            assert_eq!(rt; world_name(world).as_bytes(), text);
        }
    }
}

#[test]
fn listed_gives_its_items_back(rt: HostRuntime) -> Result<(), Fail> {
    let items = [Gpi::Root, Gpi::Any, Gpi::Root];
    let listed = Listed::new(items.to_vec(rt.alloc())?);
    assert_eq!(rt; listed.as_slice(), items.as_slice());
    let back = listed.into_vec();
    assert_eq!(rt; back.as_slice(), items.as_slice());

    let empty: Listed<u64> = Listed::new(Vec::new(rt.alloc()));
    assert!(rt; empty.as_slice().is_empty());
    Ok(())
}
