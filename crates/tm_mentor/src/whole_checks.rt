//! Whole judgements of traces with their exact bytes.

use crate::tests::command;
use std::alloc::Global;
use std::test::Fail;

/// Two threads that take one mutex in turn.
const PAIR: &str = "mutex m\nthread A\nlock m\nunlock m\nend\nthread B\nlock m\nunlock m\nend\n";

/// The events of a run of theirs.
const EVENTS: [&str; 9] = [
    "1 A.1 A.1 begin ok",
    "1 B.1 B.1 begin ok",
    "2 A.2 m.1 lock ok",
    "3 B.2 m.2 lock wait",
    "4 A.3 m.3 unlock gave B",
    "5 B.3 m.4 resume ok",
    "5 A.4 A.2 end ok",
    "6 B.4 m.5 unlock ok",
    "7 B.5 B.2 end ok",
];

/// The rows of that run by stamp.
const LEGAL_ROWS: &str = "1 1 A.1 A.1 begin ok [R-]
2 1 B.1 B.1 begin ok [RR]
3 2 A.2 m.1 lock ok [RR]
4 3 B.2 m.2 lock wait [RB]
5 4 A.3 m.3 unlock gave B [RG]
6 5 A.4 A.2 end ok [EG]
7 5 B.3 m.4 resume ok [ER]
8 6 B.4 m.5 unlock ok [ER]
9 7 B.5 B.2 end ok [EE]
legal 9
";

/// What a run wrote of these threads, after their text and a line `trace`.
const RECORDED: &str = "mutex m
thread A
lock m
unlock m
end
thread B
lock m
unlock m
end
trace
1 1 A.1 A.1 begin ok [R-]
2 1 B.1 B.1 begin ok [RR]
3 2 A.2 m.1 lock ok [RR]
4 3 B.2 m.2 lock wait [RB]
5 4 A.3 m.3 unlock gave B [RG]
6 5 B.3 m.4 resume ok [RR]
7 5 A.4 A.2 end ok [ER]
8 6 B.4 m.5 unlock ok [ER]
9 7 B.5 B.2 end ok [EE]
done 9
";

/// A cycle between two variables.
const CYCLE: &str = "var x 0
var y 0
thread A
write y 1
write x 1
end
thread B
write x 2
write y 2
end
trace
1 A.1 A.1 begin ok
1 B.1 B.1 begin ok
2 A.2 y.2 write 1 ok
3 A.3 x.1 write 1 ok
4 B.2 x.2 write 2 ok
5 B.3 y.1 write 2 ok
";

/// The trace of these events, each on a line, where one is put in place of another, or none.
fn trace_with(alloc: Global, place: usize, lines: &str) -> Result<String, Fail> {
    let mut text = String::from_str(alloc, PAIR)?;
    text.push_str("trace\n")?;
    for (index, event) in EVENTS.iter().enumerate() {
        if index == place {
            text.push_str(lines)?;
        } else {
            text.push_str(event)?;
            text.push_str("\n")?;
        }
    }
    Ok(text)
}

#[test]
fn traces_are_judged(rt: HostRuntime) -> Result<(), Fail> {
    let table = [
        (9, "", LEGAL_ROWS, 0u8),
        (
            3,
            "3 B.2 m.2 lock wait\n3 B.2 m.2 lock wait\n",
            "refused twice\nkept 3 B.2 m.2 lock wait\nnew 3 B.2 m.2 lock wait\n",
            8,
        ),
        (
            2,
            "",
            "refused missing\nheld 3 B.2 m.2 lock wait\nmissing object m.1\n",
            8,
        ),
        (
            3,
            "3 B.2 m.2 lock ok\n",
            "refused illegal\nevent 3 B.2 m.2 lock ok\nexpected reply wait\n",
            8,
        ),
        (
            2,
            "2 A.2 m.1 trylock ok\n",
            "refused illegal\nevent 2 A.2 m.1 trylock ok\nexpected m lock\n",
            8,
        ),
        (3, "3 B.2 m.2 lock\n", "mentor: line 14: count\n", 3),
    ];
    for (place, lines, written, status) in table {
        let text = trace_with(rt.alloc(), place, lines)?;
        let (outcome, sink) = command(rt.alloc(), "check", text.as_str(), &[], &[])?;
        assert_eq!(rt; sink.bytes(), written.as_bytes());
        assert_eq!(rt; outcome.status, status, "for {lines:?}");
        assert!(rt; outcome.finished.is_none());
    }
    Ok(())
}

#[test]
fn what_a_run_wrote_is_checked_as_it_is(rt: HostRuntime) -> Result<(), Fail> {
    let table = [
        (RECORDED, LEGAL_ROWS, 0u8),
        (
            CYCLE,
            "refused stamps\nkept 2 A.2 y.2 write 1 ok\nnew 5 B.3 y.1 write 2 ok\n",
            8,
        ),
        (PAIR, "mentor: line 10: trace\n", 3),
        ("mutex\ntrace\nx\n", "mentor: line 1: count\n", 3),
    ];
    for (text, written, status) in table {
        let (outcome, sink) = command(rt.alloc(), "check", text, &[], &[])?;
        assert_eq!(rt; sink.bytes(), written.as_bytes());
        assert_eq!(rt; outcome.status, status, "for {text:?}");
    }
    Ok(())
}

#[test]
fn a_check_tells_of_faults_outside(rt: HostRuntime) -> Result<(), Fail> {
    let (outcome, sink) = command(rt.alloc(), "check", RECORDED, &[1], &[])?;
    assert_eq!(rt; sink.bytes(), b"mentor: read fault\n".as_slice());
    assert_eq!(rt; outcome.status, 4);
    let (outcome, sink) = command(rt.alloc(), "check", RECORDED, &[], &[2])?;
    assert_eq!(rt; sink.bytes(), b"1 1 A.1 A.1 begin ok [R-]\n".as_slice());
    assert_eq!(rt; outcome.status, 5);
    let (outcome, sink) = command(rt.alloc(), "check", CYCLE, &[], &[2])?;
    assert_eq!(rt; sink.bytes(), b"refused stamps\n".as_slice());
    assert_eq!(rt; outcome.status, 5);
    Ok(())
}
