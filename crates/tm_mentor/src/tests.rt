use super::*;
use std::alloc::Global;
use std::env::Args;
use std::io;
use std::io::ErrorKind;
use std::process::ExitCode;
use std::test::Fail;
use tm_base::{End, NoMemory};
use tm_outside::{MemorySink, MemorySource};
use tm_watch::{FirstStop, Tally, Watcher};

/// Two threads that take one mutex in turn.
const PAIR: &str = "mutex m\nthread A\nlock m\nunlock m\nend\nthread B\nlock m\nunlock m\nend\n";

/// The rows of that run, and its last line.
const PAIR_ROWS: &str = "1 1 A.1 A.1 begin ok [R-]
2 1 B.1 B.1 begin ok [RR]
3 2 A.2 m.1 lock ok [RR]
4 3 B.2 m.2 lock wait [RB]
5 4 A.3 m.3 unlock gave B [RG]
6 5 B.3 m.4 resume ok [RR]
7 5 A.4 A.2 end ok [ER]
8 6 B.4 m.5 unlock ok [ER]
9 7 B.5 B.2 end ok [EE]
done 9
";

/// A thread that takes one mutex twice.
const TWICE: &str = "mutex m\nthread A\nlock m\nlock m\nunlock m\nend\n";

const TWICE_ROWS: &str = "1 1 A.1 A.1 begin ok [R]
2 2 A.2 m.1 lock ok [R]
3 3 A.3 m.2 lock held [R]
4 4 A.4 m.3 unlock ok [R]
5 5 A.5 A.2 end ok [E]
done 5
";

/// Two threads that take two mutexes in opposite orders.
const CROSSED: &str =
    "mutex f\nmutex g\nthread A\nlock f\nlock g\nunlock g\nunlock f\nend\nthread B\nlock g\nlock f\nunlock f\nunlock g\nend\n";

const CROSSED_ROWS: &str = "1 1 A.1 A.1 begin ok [R-]
2 1 B.1 B.1 begin ok [RR]
3 2 A.2 f.1 lock ok [RR]
4 2 B.2 g.1 lock ok [RR]
5 3 A.3 g.2 lock wait [BR]
6 3 B.3 f.2 lock wait [BB]
7 4 main.1 f.3 stop ok [BG]
8 5 main.2 g.3 stop ok [GG]
9 6 A.4 g.4 resume stopped [RG]
10 5 B.4 f.4 resume stopped [RR]
11 7 A.5 A.2 end cut [ER]
12 6 B.5 B.2 end cut [EE]
stuck 12 A B
";

/// Three threads that do nothing.
const IDLE: &str = "thread A\nend\nthread B\nend\nthread C\nend\n";

/// The rows of that run under schedule 1.
const IDLE_ROWS: &str = "1 1 C.1 C.1 begin ok [--R]
2 1 A.1 A.1 begin ok [R-R]
3 2 A.2 A.2 end ok [E-R]
4 1 B.1 B.1 begin ok [ERR]
5 2 B.2 B.2 end ok [EER]
6 2 C.2 C.2 end ok [EEE]
done 6
";

/// The rows of the thread that takes one mutex twice, where it may make one call.
const CUT_ROWS: &str = "1 1 A.1 A.1 begin ok [R]
2 2 A.2 m.1 lock ok [R]
3 3 A.3 A.2 end cut [E]
budget 3 A
";

/// Runs the command of these words, which spaces part, over memory where these reads and writes
/// fail. Gives back the outcome and what was written.
pub fn command(
    alloc: Global,
    words: &str,
    text: &str,
    failing_reads: &[u64],
    failing_writes: &[u64],
) -> Result<(Outcome, MemorySink), Fail> {
    let mut spoken = Vec::new(alloc);
    for word in words.split_whitespace() {
        spoken.push(String::from_str(alloc, word)?)?;
    }
    let mut source = MemorySource::make(alloc, text.as_bytes(), failing_reads)?;
    let mut sink = MemorySink::make(alloc, 4096, failing_writes)?;
    let mut watchers = Vec::new(alloc);
    let outcome = mentor_alone(
        alloc,
        spoken.as_slice(),
        &mut source,
        &mut sink,
        &mut watchers,
    );
    Ok((outcome, sink))
}

#[test]
fn exercises_run_to_their_end(rt: HostRuntime) -> Result<(), Fail> {
    let table = [
        ("", "done 0\n", 0u8),
        (PAIR, PAIR_ROWS, 0),
        (TWICE, TWICE_ROWS, 0),
        (CROSSED, CROSSED_ROWS, 6),
    ];
    for (text, rows, status) in table {
        let (outcome, sink) = command(rt.alloc(), "run", text, &[], &[])?;
        assert_eq!(rt; sink.bytes(), rows.as_bytes());
        assert_eq!(rt; outcome.status, status, "for {text:?}");
        assert!(rt; outcome.finished.is_some());
    }
    Ok(())
}

#[test]
fn runs_keep_to_their_options(rt: HostRuntime) -> Result<(), Fail> {
    let table = [
        ("run --schedule 1", IDLE, IDLE_ROWS, 0u8),
        ("run --schedule 7", TWICE, TWICE_ROWS, 0),
        ("run --events 1", TWICE, CUT_ROWS, 7),
        ("run --events=1 --schedule=1", TWICE, CUT_ROWS, 7),
        ("run --events 4 --schedule 0", PAIR, PAIR_ROWS, 0),
    ];
    for (words, text, rows, status) in table {
        let (outcome, sink) = command(rt.alloc(), words, text, &[], &[])?;
        assert_eq!(rt; sink.bytes(), rows.as_bytes());
        assert_eq!(rt; outcome.status, status, "for {words:?}");
        assert!(rt; outcome.finished.is_some());
    }
    Ok(())
}

/// Words that spell a run, and the thread that it begins with.
const TAKEN: [(&str, &str); 3] = [
    ("run", "1 1 A.1 A.1 begin ok [R--]"),
    ("run --schedule=1", "1 1 C.1 C.1 begin ok [--R]"),
    ("run --events=2 --schedule 1", "1 1 C.1 C.1 begin ok [--R]"),
];

#[test]
fn words_that_spell_a_run_are_taken(rt: HostRuntime) -> Result<(), Fail> {
    for (words, row) in TAKEN {
        let (outcome, sink) = command(rt.alloc(), words, IDLE, &[], &[])?;
        assert_eq!(rt; outcome.status, 0, "for {words:?}");
        assert!(rt; sink.bytes().starts_with(row.as_bytes()), "for {words:?}");
    }
    let most = "run --schedule=18446744073709551615";
    let (outcome, _) = command(rt.alloc(), most, IDLE, &[], &[])?;
    assert_eq!(rt; outcome.status, 0);
    Ok(())
}

/// Words that spell no command.
const REFUSED: [&str; 6] = [
    "",
    "help",
    "run --threads",
    "run --events 0",
    "make ring 61 1",
    "large",
];

#[test]
fn other_words_are_refused(rt: HostRuntime) -> Result<(), Fail> {
    for words in REFUSED {
        let (outcome, sink) = command(rt.alloc(), words, PAIR, &[], &[])?;
        assert_eq!(rt;
            sink.bytes(),
            b"mentor: usage\n".as_slice(),
            "for {words:?}"
        );
        assert_eq!(rt; outcome.status, 2, "for {words:?}");
        assert!(rt; outcome.finished.is_none());
    }
    Ok(())
}

/// A token that goes round two threads once.
const RING: &str =
    "sync c0\nsync c1\nthread T0\nrepeat 1\nsend c0 1\nrecv c1 r0\nend\nend\nthread T1\nrepeat 1\nrecv c0 r0\nsend c1 r0\nend\nend\n";

#[test]
fn an_exercise_is_made_in_one_piece(rt: HostRuntime) -> Result<(), Fail> {
    let (outcome, sink) = command(rt.alloc(), "make ring 2 1", PAIR, &[1], &[2])?;
    assert_eq!(rt; sink.bytes(), RING.as_bytes());
    assert_eq!(rt; outcome.status, 0);
    assert!(rt; outcome.finished.is_none());
    let (outcome, sink) = command(rt.alloc(), "make ring 2 1", PAIR, &[], &[1])?;
    assert!(rt; sink.bytes().is_empty());
    assert_eq!(rt; outcome.status, 5);
    Ok(())
}

/// The summary of the large run of the number 0.
const LARGE: &str = "threads 64\nobjects 88\ncalls 19200\nwaits 4212\nstamp 2714\ndone 23540\n";

#[test]
fn a_large_run_is_summed_up_line_by_line(rt: HostRuntime) -> Result<(), Fail> {
    let (outcome, sink) = command(rt.alloc(), "large 0", PAIR, &[1], &[])?;
    assert_eq!(rt; sink.bytes(), LARGE.as_bytes());
    assert_eq!(rt; outcome.status, 0);
    let finished = outcome.finished.ok_or("no run")?;
    assert_eq!(rt; finished.shown.len(), 23_540);
    assert!(rt; !finished.write_fault);
    let (outcome, sink) = command(rt.alloc(), "large 0", PAIR, &[], &[3])?;
    assert_eq!(rt; sink.bytes(), b"threads 64\nobjects 88\n".as_slice());
    assert_eq!(rt; outcome.status, 5);
    let finished = outcome.finished.ok_or("no run")?;
    assert!(rt; finished.write_fault);
    Ok(())
}

#[test]
fn texts_of_no_exercise_are_refused(rt: HostRuntime) -> Result<(), Fail> {
    let table = [
        ("mutex", "mentor: line 1: count\n"),
        (
            "mutex m\nthread A\nlock m\nlock q\nend\n",
            "mentor: line 4: unknown\n",
        ),
        ("mutex m\nthread A\nlock m\n", "mentor: line 4: open\n"),
        ("var x 9223372036854775808\n", "mentor: line 1: number\n"),
    ];
    for (text, line) in table {
        let (outcome, sink) = command(rt.alloc(), "run", text, &[], &[])?;
        assert_eq!(rt; sink.bytes(), line.as_bytes());
        assert_eq!(rt; outcome.status, 3, "for {text:?}");
        assert!(rt; outcome.finished.is_none());
    }
    Ok(())
}

#[test]
fn a_read_that_fails_is_told(rt: HostRuntime) -> Result<(), Fail> {
    let (outcome, sink) = command(rt.alloc(), "run", PAIR, &[2], &[])?;
    assert_eq!(rt; sink.bytes(), b"mentor: read fault\n".as_slice());
    assert_eq!(rt; outcome.status, 4);
    assert!(rt; outcome.finished.is_none());
    Ok(())
}

#[test]
fn nothing_is_written_after_a_write_that_fails(rt: HostRuntime) -> Result<(), Fail> {
    let (outcome, sink) = command(rt.alloc(), "run", PAIR, &[], &[3])?;
    let rows = "1 1 A.1 A.1 begin ok [R-]\n2 1 B.1 B.1 begin ok [RR]\n";
    assert_eq!(rt; sink.bytes(), rows.as_bytes());
    assert_eq!(rt; outcome.status, 5);
    let finished = outcome.finished.ok_or("no run")?;
    assert_eq!(rt; finished.end, End::Done);
    assert_eq!(rt; finished.shown.len(), 9);
    assert!(rt; finished.write_fault);
    Ok(())
}

#[test]
fn a_line_that_fails_makes_the_status_5(rt: HostRuntime) -> Result<(), Fail> {
    let (outcome, sink) = command(rt.alloc(), "", PAIR, &[], &[1])?;
    assert_eq!(rt; sink.bytes(), b"".as_slice());
    assert_eq!(rt; outcome.status, 5);
    assert!(rt; outcome.finished.is_none());
    Ok(())
}

/// The arguments of a process, which spaces part.
fn arguments(alloc: Global, text: &str) -> Result<Args, Fail> {
    let mut all = Vec::new(alloc);
    for word in text.split_whitespace() {
        all.push(String::from_str(alloc, word)?)?;
    }
    Ok(all.into_iter())
}

#[test]
fn the_words_are_the_arguments_after_the_first(rt: HostRuntime) -> Result<(), Fail> {
    let given = arguments(rt.alloc(), "mentor run --events 1")?;
    let words = command_words(rt.alloc(), Ok(given)).map_err(|_| "no words")?;
    assert_eq!(rt; words.len(), 3);
    for (word, want) in words.iter().zip(["run", "--events", "1"]) {
        assert_eq!(rt; word.as_str(), want);
    }
    for text in ["mentor", ""] {
        let given = arguments(rt.alloc(), text)?;
        let words = command_words(rt.alloc(), Ok(given)).map_err(|_| "no words")?;
        assert!(rt; words.is_empty(), "for {text:?}");
    }
    Ok(())
}

#[test]
fn arguments_that_are_no_text_give_no_words(rt: HostRuntime) -> Result<(), Fail> {
    let no_text = Err(io::Error::from(ErrorKind::InvalidData));
    let words = command_words(rt.alloc(), no_text).map_err(|_| "no words")?;
    assert!(rt; words.is_empty());
    let no_memory = Err(io::Error::from(ErrorKind::OutOfMemory));
    assert_eq!(rt; command_words(rt.alloc(), no_memory).err(), Some(NoMemory));
    Ok(())
}

#[test]
fn the_exit_status_is_the_outcomes(rt: HostRuntime) -> Result<(), Fail> {
    for status in [0u8, 2, 3, 4, 5, 6, 7, 9] {
        let outcome = Outcome {
            status,
            finished: None,
        };
        assert_eq!(rt; exit_code(Ok(outcome)), ExitCode::from(status));
    }
    assert_eq!(rt; exit_code(Err(NoMemory)), ExitCode::from(9));
    Ok(())
}

#[test]
fn a_process_ends_with_the_status_of_its_command(rt: HostRuntime) -> Result<(), Fail> {
    let table = [
        ("mentor run", PAIR, PAIR_ROWS, 0u8),
        ("mentor run", CROSSED, CROSSED_ROWS, 6),
        ("mentor run --events 1", TWICE, CUT_ROWS, 7),
        ("mentor", PAIR, "mentor: usage\n", 2),
    ];
    for (given, text, written, status) in table {
        let given = arguments(rt.alloc(), given)?;
        let mut source = MemorySource::make(rt.alloc(), text.as_bytes(), &[])?;
        let mut sink = MemorySink::make(rt.alloc(), 4096, &[])?;
        let mut watchers = Vec::new(rt.alloc());
        let code = run_process(rt.alloc(), Ok(given), &mut source, &mut sink, &mut watchers);
        assert_eq!(rt; code, ExitCode::from(status));
        assert_eq!(rt; sink.bytes(), written.as_bytes());
    }
    Ok(())
}

#[test]
fn without_memory_for_its_words_a_process_does_nothing(rt: HostRuntime) -> Result<(), Fail> {
    let mut source = MemorySource::make(rt.alloc(), PAIR.as_bytes(), &[])?;
    let mut sink = MemorySink::make(rt.alloc(), 4096, &[])?;
    let no_memory = Err(io::Error::from(ErrorKind::OutOfMemory));
    let mut watchers = Vec::new(rt.alloc());
    let code = run_process(rt.alloc(), no_memory, &mut source, &mut sink, &mut watchers);
    assert_eq!(rt; code, ExitCode::from(9));
    assert!(rt; sink.bytes().is_empty());
    Ok(())
}

/// Does what the words say with the text, and tells the watchers of the events.
fn watched(
    alloc: Global,
    spoken: &str,
    text: &str,
    watchers: &mut Vec<Box<dyn Watcher>>,
) -> Result<u8, Fail> {
    let mut words = Vec::new(alloc);
    for word in spoken.split_whitespace() {
        words.push(String::from_str(alloc, word)?)?;
    }
    let mut source = MemorySource::make(alloc, text.as_bytes(), &[])?;
    let mut sink = MemorySink::make(alloc, 2000, &[])?;
    let outcome = mentor_alone(alloc, words.as_slice(), &mut source, &mut sink, watchers);
    Ok(outcome.status)
}

#[test]
fn a_watcher_retires_at_the_first_stop_and_another_sees_all(rt: HostRuntime) -> Result<(), Fail> {
    let mut watchers: Vec<Box<dyn Watcher>> = Vec::new(rt.alloc());
    watchers.push(Box::new(rt.alloc(), FirstStop::make())?)?;
    watchers.push(Box::new(rt.alloc(), Tally::make())?)?;
    assert_eq!(rt; watched(rt.alloc(), "run", CROSSED, &mut watchers)?, 6);
    assert_eq!(rt; watchers.len(), 1);
    let left = watchers.first().ok_or("none is left")?;
    assert_eq!(rt; left.seen(), 12);
    Ok(())
}

#[test]
fn a_hundred_watchers_see_all_events(rt: HostRuntime) -> Result<(), Fail> {
    let mut watchers: Vec<Box<dyn Watcher>> = Vec::new(rt.alloc());
    for _ in 0..100 {
        watchers.push(Box::new(rt.alloc(), Tally::make())?)?;
    }
    assert_eq!(rt; watched(rt.alloc(), "run", PAIR, &mut watchers)?, 0);
    assert_eq!(rt; watchers.len(), 100);
    assert!(rt; watchers.iter().all(|watcher| watcher.seen() == 9));
    Ok(())
}

#[test]
fn a_large_run_is_watched_too(rt: HostRuntime) -> Result<(), Fail> {
    let mut watchers: Vec<Box<dyn Watcher>> = Vec::new(rt.alloc());
    watchers.push(Box::new(rt.alloc(), Tally::make())?)?;
    assert_eq!(rt; watched(rt.alloc(), "large 0", "", &mut watchers)?, 0);
    let left = watchers.first().ok_or("none is left")?;
    assert_eq!(rt; left.seen(), 23_540);
    Ok(())
}
