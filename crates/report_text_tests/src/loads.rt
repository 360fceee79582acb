ghost use Rattle.std.specs.Prelude.{◌≡◌, true};
ghost use Rattle.report_text.specs.RunText.{FitsScenario};

use crate::reports::{VIAS, fits, seen};
use gpt_descriptors::{Generations, Geometry, Gpi, Size, l0_good};
use history::{Answer, Outcome, Via};
use report_text::*;
use scenario_text::{Listed, Scenario, parse};
use std::alloc::Global;
use std::process::Abort;
use std::test::Fail;

/// 4 GB with one table, an agent with 17 calls and a processor with 31 accesses. The generations
/// begin at 7.
fn scenario_of(alloc: Global) -> Result<Scenario, Fail> {
    let mut text = String::new(alloc);
    text.push_str("gpt 1\nspace 4\nmax 512\nlocks 1\nfirst 7\nring 8\ntables 1\n")?;
    text.push_str("base 0x80000000\nregion 0x40000000 0x40000000 granule nonsecure\nagent\n")?;
    for _ in 0..17 {
        text.push_str("delegate 0x40000000 realm\n")?;
    }
    text.push_str("cpu\n")?;
    for _ in 0..31 {
        text.push_str("look 0x0 nonsecure\n")?;
    }
    text.push_str("round 1 10\nend\n")?;
    Ok(parse(alloc, text.as_bytes()).ok().ok_or("a scenario")?)
}

fn geometry_of(rt: &impl Abort, scenario: &Scenario) -> Geometry {
    let l0 = [0xf1, 0x8000_0003, 0xf1, 0xf1];
    assert!(rt; l0_good(&scenario.setup, &l0));
    Geometry::new(scenario.setup, 1, &l0)
}

/// Each answer as often as stands beside it.
fn answers_of(alloc: Global, table: &[(Answer, u32)]) -> Result<Listed<Answer>, Fail> {
    let mut answers = Vec::new(alloc);
    for &(answer, times) in table {
        for _ in 0..times {
            answers.push(answer)?;
        }
    }
    Ok(Listed::new(answers))
}

/// 15 answers, a count of its own for each kind.
fn agent_answers(alloc: Global) -> Result<Listed<Answer>, Fail> {
    let changed = Generations {
        two: 8,
        thirty_two: 7,
        five_twelve: 9,
    };
    let table = [
        (Answer::Done(changed), 1),
        (Answer::Perm(Gpi::Realm), 2),
        (Answer::Worn(Size::ThirtyTwo, 9223372036854775806), 3),
        (Answer::Inval, 4),
        (Answer::Unknown, 5),
    ];
    answers_of(alloc, &table)
}

/// 22 accesses: 9 are allowed and 13 are not; 6 are hit, 7 are cold, 8 are missed and one is
/// still.
fn processor_answers(alloc: Global) -> Result<Listed<Answer>, Fail> {
    let [hit, cold, missed] = VIAS;
    let table = [
        (seen(true, Gpi::Any, 0, Via::Still), 1),
        (seen(true, Gpi::Secure, 1, hit), 2),
        (seen(false, Gpi::Secure, 1, hit), 4),
        (seen(true, Gpi::Realm, 1, cold), 3),
        (seen(false, Gpi::Realm, 1, cold), 4),
        (seen(true, Gpi::Root, 1, missed), 3),
        (seen(false, Gpi::Root, 1, missed), 5),
    ];
    answers_of(alloc, &table)
}

/// The same word at this many places from `first` on.
fn lay(words: &mut Vec<u64>, first: usize, count: usize, value: u64) {
    for (k, word) in words.iter_mut().enumerate() {
        if first <= k && k - first < count {
            *word = value;
        }
    }
}

/// Shared words that are 0, but for the generations, which are 7, and those named here by their
/// first place, how many there are, and their value.
fn words_of(
    alloc: Global,
    geometry: &Geometry,
    table: &[(usize, usize, u64)],
) -> Result<Listed<u64>, Fail> {
    let mut words = vec![in alloc; 0u64; geometry.words()]?;
    lay(&mut words, 2, 2184, 7);
    for &(first, count, value) in table {
        lay(&mut words, first, count, value);
    }
    Ok(Listed::new(words))
}

#[test]
fn each_count_of_a_load_has_its_own_line(rt: HostRuntime) -> Result<(), Fail> {
    let alloc = rt.alloc();
    let scenario = scenario_of(alloc)?;
    let geometry = geometry_of(&rt, &scenario);
    let table = [
        // A generation of 2 MB and one of 32 MB, which are not summed, and the first, second and
        // last one of 512 MB.
        (2049, 1, 100),
        (2177, 1, 100),
        (2178, 1, 8),
        (2179, 1, 17),
        (2185, 1, 16),
        // The duty word of the processor.
        (2186, 1, 0x191),
        // The first L1 words, descriptors of no size, and the last one.
        (2187, 12, 0x191),
        (2199, 14, 0x2f1),
        (2213, 1, 0x491),
        (2214, 1, 0x91),
        (2215, 14, 0x381),
        (18570, 1, 0x391),
        // The first line word.
        (18571, 1, 0x191),
    ];
    let outcome = Outcome {
        geometry,
        answers: Listed::new(vec![in alloc; agent_answers(alloc)?, processor_answers(alloc)?]?),
        words: words_of(alloc, &geometry, &table)?,
    };
    assert!(rt; fits(&scenario, &outcome));
    let report = load_report(alloc, 4294967295, &scenario, &outcome)?;
    let text = "report 1 load 4294967295\n\
        done 1\n\
        perm 2\n\
        worn 3\n\
        inval 4\n\
        unknown 5\n\
        granted 9\n\
        fault 13\n\
        hit 6\n\
        cold 7\n\
        missed 8\n\
        left 11\n\
        contig2m 12\n\
        contig32m 14\n\
        contig512m 15\n\
        gens 20\n\
        end\n";
    assert_eq!(rt; report.as_slice(), text.as_bytes());
    Ok(())
}

#[test]
fn a_generation_below_the_first_one_counts_as_nothing(rt: HostRuntime) -> Result<(), Fail> {
    let alloc = rt.alloc();
    let scenario = scenario_of(alloc)?;
    let geometry = geometry_of(&rt, &scenario);
    // Two neighbours of the eight generations of 512 MB, and the sum.
    let table = [
        (7, 7, "0"),
        (3, 7, "0"),
        (3, 8, "1"),
        (10, 0, "3"),
        (u64::MAX, u64::MAX, "36893488147419103216"),
    ];
    for (first, second, sum) in table {
        let outcome = Outcome {
            geometry,
            answers: Listed::new(vec![in alloc; answers_of(alloc, &[])?, answers_of(alloc, &[])?]?),
            words: words_of(alloc, &geometry, &[(2180, 1, first), (2181, 1, second)])?,
        };
        assert!(rt; fits(&scenario, &outcome));
        let report = load_report(alloc, 0, &scenario, &outcome)?;
        let text = format!(in alloc;
            "report 1 load 0\ndone 0\nperm 0\nworn 0\ninval 0\nunknown 0\ngranted 0\nfault 0\n\
             hit 0\ncold 0\nmissed 0\nleft 48\ncontig2m 0\ncontig32m 0\ncontig512m 0\n\
             gens {sum}\nend\n"
        )?;
        assert_eq!(rt;
            report.as_slice(),
            text.as_bytes(),
            "of {first} and {second}"
        );
    }
    Ok(())
}
