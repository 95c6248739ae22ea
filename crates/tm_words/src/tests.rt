use super::*;
use std::alloc::Global;
use std::test::Fail;
use tm_base::Rules;
use tm_makers::{Guard, Plan, Way};

/// What the words of a text spell, which single spaces part.
fn spelled(alloc: Global, text: &str) -> Result<Option<Command>, Fail> {
    let mut words = Vec::new(alloc);
    for word in text.split(' ') {
        words.push(String::from_str(alloc, word)?)?;
    }
    Ok(spell(alloc, words.as_slice())?)
}

#[test]
fn a_run_has_each_setting_once_at_most(rt: HostRuntime) -> Result<(), Fail> {
    let table = [
        ("run", 0, 1_000),
        ("run --schedule 7", 7, 1_000),
        ("run --schedule=7", 7, 1_000),
        ("run --schedule 0007", 7, 1_000),
        ("run --schedule=18446744073709551615", u64::MAX, 1_000),
        ("run --events 1", 0, 1),
        ("run --events=010000", 0, 10_000),
        ("run --events=2 --schedule 3", 3, 2),
        ("run --schedule 3 --events=2", 3, 2),
    ];
    for (words, schedule, limit) in table {
        let run = Command::Run(Rules { schedule, limit });
        assert_eq!(rt; spelled(rt.alloc(), words)?, Some(run), "for {words:?}");
    }
    Ok(())
}

#[test]
fn philosophers_have_a_way(rt: HostRuntime) -> Result<(), Fail> {
    let table = [
        ("make philosophers 2 1 naive", 2, 1, Way::Naive),
        (
            "make philosophers 60 100 asymmetric",
            60,
            100,
            Way::Asymmetric,
        ),
        (
            "make philosophers 05 0000000000000003 chairs",
            5,
            3,
            Way::Chairs,
        ),
    ];
    for (words, n, rounds, way) in table {
        let plan = Plan::Philosophers { n, rounds, way };
        assert_eq!(rt;
            spelled(rt.alloc(), words)?,
            Some(Command::Make(plan)),
            "for {words:?}"
        );
    }
    Ok(())
}

#[test]
fn a_buffer_has_a_guard(rt: HostRuntime) -> Result<(), Fail> {
    let table = [
        (
            "make buffer 1 1 1 1 semaphores",
            [1, 1, 1, 1],
            Guard::Semaphores,
        ),
        (
            "make buffer 30 30 1000 100 hoare",
            [30, 30, 1_000, 100],
            Guard::Hoare,
        ),
        ("make buffer 2 3 4 6 mesa", [2, 3, 4, 6], Guard::Mesa),
    ];
    for (words, [producers, consumers, places, items], guard) in table {
        let plan = Plan::Buffer {
            producers,
            consumers,
            places,
            items,
            guard,
        };
        assert_eq!(rt;
            spelled(rt.alloc(), words)?,
            Some(Command::Make(plan)),
            "for {words:?}"
        );
    }
    Ok(())
}

#[test]
fn sizes_are_taken_in_their_order(rt: HostRuntime) -> Result<(), Fail> {
    let table = [
        (
            "make readers 1 2 3",
            Plan::Readers {
                readers: 1,
                writers: 2,
                rounds: 3,
            },
        ),
        (
            "make readers 30 030 100",
            Plan::Readers {
                readers: 30,
                writers: 30,
                rounds: 100,
            },
        ),
        (
            "make coaster 1 60",
            Plan::Coaster {
                seats: 1,
                rides: 60,
            },
        ),
        (
            "make coaster 60 1",
            Plan::Coaster {
                seats: 60,
                rides: 1,
            },
        ),
        ("make ring 2 100", Plan::Ring { n: 2, rounds: 100 }),
        ("make ring 60 1", Plan::Ring { n: 60, rounds: 1 }),
    ];
    for (words, plan) in table {
        assert_eq!(rt;
            spelled(rt.alloc(), words)?,
            Some(Command::Make(plan)),
            "for {words:?}"
        );
    }
    Ok(())
}

#[test]
fn a_large_exercise_has_a_number(rt: HostRuntime) -> Result<(), Fail> {
    let table = [
        ("large 0", 0),
        ("large 00000000000000000000001", 1),
        ("large 18446744073709551615", u64::MAX),
    ];
    for (words, number) in table {
        assert_eq!(rt;
            spelled(rt.alloc(), words)?,
            Some(Command::Large(number)),
            "for {words:?}"
        );
    }
    Ok(())
}

/// Words that spell no run.
const NO_RUN: [&str; 29] = [
    "run run",
    "--schedule 1 run",
    "--schedule=1",
    "run --threads",
    "run --threads 1",
    "run --",
    "run -- --schedule 1",
    "run --schedule -- 1",
    "run -h",
    "run --help",
    "run ",
    "run --schedule",
    "run --schedule=",
    "run --schedule -1",
    "run --schedule +1",
    "run --schedule=+1",
    "run --schedule 0x1",
    "run --schedule 18446744073709551616",
    "run --schedule 1 --schedule 1",
    "run --schedule=1 --schedule 2",
    "run --schedule 1 2",
    "run --schedule --events 1",
    "run --events",
    "run --events 0",
    "run --events 10001",
    "run --events=4294967297",
    "run --events 1 --schedule 2 --events=1",
    "run --Schedule 1",
    "run --sched 1",
];

/// Words that spell no plan.
const NO_PLAN: [&str; 36] = [
    "make",
    "make ",
    "make rings 2 1",
    "make Ring 2 1",
    "make ring",
    "make ring 2",
    "make ring 2 1 x",
    "make ring 2 1 ",
    "make ring  2 1",
    "make ring 1 1",
    "make ring 61 1",
    "make ring 2 0",
    "make ring 2 101",
    "make ring +2 1",
    "make ring -2 1",
    "make ring 2 4294967297",
    "make ring 2 18446744073709551617",
    "make ring 2 1 naive",
    "make --ring 2 1",
    "make -- ring 2 1",
    "make ring 2 1 --",
    "make philosophers",
    "make philosophers naive",
    "make philosophers 2 1",
    "make philosophers naive 2 1",
    "make philosophers 2 1 mesa",
    "make philosophers 2 1 naive naive",
    "make philosophers 61 1 chairs",
    "make buffer 2 1 1 1",
    "make buffer 1 2 1 1 hoare",
    "make buffer 2 1 1 51 hoare",
    "make buffer 1 1 1001 1 mesa",
    "make buffer 1 0 1 1 mesa",
    "make buffer 1 1 1 1 chairs",
    "make readers 1 1",
    "make coaster 8 8",
];

/// Words that spell nothing else.
const NOTHING: [&str; 18] = [
    "",
    "check x",
    "check --",
    "check --events 1",
    " run",
    "help",
    "--help",
    "-h",
    "--version",
    "runs",
    "Run",
    "large",
    "large ",
    "large 1 1",
    "large +5",
    "large -1",
    "large -- 1",
    "large 18446744073709551616",
];

#[test]
fn other_words_spell_nothing(rt: HostRuntime) -> Result<(), Fail> {
    for table in [NO_RUN.as_slice(), NO_PLAN.as_slice(), NOTHING.as_slice()] {
        for words in table {
            assert_eq!(rt; spelled(rt.alloc(), words)?, None, "for {words:?}");
        }
    }
    assert_eq!(rt; spell(rt.alloc(), &[])?, None);
    assert_eq!(rt; spelled(rt.alloc(), "check")?, Some(Command::Check));
    Ok(())
}

#[test]
fn a_blank_is_no_digit(rt: HostRuntime) -> Result<(), Fail> {
    let mut words = Vec::new(rt.alloc());
    for word in ["large", " 3"] {
        words.push(String::from_str(rt.alloc(), word)?)?;
    }
    assert_eq!(rt; spell(rt.alloc(), words.as_slice())?, None);
    Ok(())
}
