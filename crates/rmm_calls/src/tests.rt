use super::*;
use gpi_values::Gpi;
use history::{Generations, Size};

#[test]
fn each_answer_has_its_code(rt: HostRuntime) {
    let generations = Generations {
        two: 1,
        thirty_two: 1,
        five_twelve: 1,
    };
    let table = [
        (Answer::Done(generations), 0),
        (Answer::Unknown, -1),
        (Answer::Inval, -2),
        (Answer::Perm(Gpi::Realm), -3),
        (Answer::Worn(Size::Two, 7), -100),
    ];
    for (answer, want) in table {
        if !matches!(answer, Answer::Seen(_)) {
            assert_eq!(rt; code(&answer), want, "of {answer:?}");
        }
    }
}

#[test]
fn the_realm_world_alone_is_admitted(rt: HostRuntime) {
    assert!(rt; admits(World::Realm));
    assert!(rt; !admits(World::Secure));
    assert!(rt; !admits(World::NonSecure));
}
