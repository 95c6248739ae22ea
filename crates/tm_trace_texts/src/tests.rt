use crate::{TraceFault, print_trace, read_trace};
use std::process::Abort;
use std::test::Fail;
use tm_base::{Entry, Op, Reply};
use tm_lines::{Fault, MOST_BYTES};

/// Objects 0 and 1 are `x` and `A`; thread 1 is `A`. It is 7 lines long, and the exercise 5.
const TRACE: &[u8] = b"# a run\nvar x -3\n  thread A\r\nread x r0\nend\n\ttrace \r\n\
1 1 A.1 A.1 begin ok [R]\n2 2 A.2 x.1 read got -3 [R]\r\n\n# later\n3 3 A.3 A.2 end ok [E]\ndone \x01 3";

/// The text that it is printed as.
const PRINTED: &[u8] =
    b"var x -3\nthread A\nread x r0\nend\ntrace\n1 A.1 A.1 begin ok\n2 A.2 x.1 read got -3\n3 A.3 A.2 end ok\n";

fn event(
    (thread, place): (u32, u64),
    (object, at): (u32, u64),
    stamp: u64,
    op: Op,
    reply: Reply,
) -> Entry {
    Entry {
        thread,
        place,
        object,
        at,
        stamp,
        op,
        reply,
    }
}

/// Its events.
fn events() -> [Entry; 3] {
    [
        event((1, 1), (1, 1), 1, Op::Begin, Reply::Ok),
        event((1, 2), (0, 1), 2, Op::Read, Reply::Got(-3)),
        event((1, 3), (1, 2), 3, Op::End { cut: false }, Reply::Ok),
    ]
}

/// Texts with a fault, its line and its kind.
const FAULTY: [(&[u8], u64, Fault); 15] = [
    (b"mutex m\nfoo\ntrace\n", 2, Fault::Word),
    (b"foo\ntrace\n1\n", 1, Fault::Word),
    (b"thread A\ntrace\n", 2, Fault::NotEnded),
    (b"thread A\ntrace\nend\ntrace\n", 2, Fault::NotEnded),
    (b"mutex m\ntrace\ntrace\n", 3, Fault::Count),
    (b"trace\ntrace 2\n", 2, Fault::Count),
    (
        b"trace\n\n# no\ndone\nstuck 1 A\nbudget\nlegal \x01\nrerun 1\n",
        8,
        Fault::Count,
    ),
    (b"trace\n1 A.1 A.1 begin ok", 2, Fault::Unknown),
    (
        b"thread A\nend\ntrace\n0 A.1 A.1 begin ok\n1\n",
        4,
        Fault::Number,
    ),
    (
        b"thread A\nend\ntrace\n1 A.1 A.1 begin \x01\n1\n",
        4,
        Fault::Byte,
    ),
    (
        b"thread A\nend\ntrace\n1 A.1 A.1 begins ok\r\n1\n",
        4,
        Fault::Word,
    ),
    (
        b"thread A\nend\ntrace\n1 A.1 A.1 begin ok\r\r\n1\n",
        4,
        Fault::Byte,
    ),
    (
        b"thread A\nend\ntrace\n\n\n1 A.1 A.1 begin ok\nDone 4\n",
        7,
        Fault::Count,
    ),
    (b"trace\nmutex m\n", 2, Fault::Count),
    (b"trace\n 1 #\n", 2, Fault::Count),
];

/// Texts without a line `trace`, and how many lines they have.
const WITHOUT: [(&[u8], u64); 9] = [
    (b"", 0),
    (b"\r", 1),
    (b"foo", 1),
    (b"foo\n", 1),
    (b"mutex m\nthread A\n\r", 3),
    (b"trace 2\n#trace\nTrace\ntrace\r\r\n", 4),
    (b"trace trace", 1),
    (b"1 trace\ntraces\n\n", 3),
    (b"trac\ne\n", 2),
];

#[test]
fn traces_are_read_in_the_order_of_their_lines(rt: HostRuntime) -> Result<(), Fail> {
    let trace = read_trace(rt.alloc(), TRACE)?;
    assert_eq!(rt; trace.entries(), events().as_slice());
    assert_eq!(rt; trace.exercise().objects(), 2);
    Ok(())
}

#[test]
fn printed_traces_read_as_the_same(rt: HostRuntime) -> Result<(), Fail> {
    let trace = read_trace(rt.alloc(), TRACE)?;
    let printed = print_trace(rt.alloc(), &trace)?.into_vec();
    assert_eq!(rt; printed.as_slice(), PRINTED);
    let again = read_trace(rt.alloc(), printed.as_slice())?;
    assert_eq!(rt; again.entries(), events().as_slice());
    Ok(())
}

#[test]
fn first_faults_are_answered(rt: HostRuntime) {
    for (text, line, kind) in FAULTY {
        let fault = read_trace(rt.alloc(), text).err();
        assert_eq!(rt; fault, Some(TraceFault::Line { line, kind }), "in {text:?}");
    }
}

#[test]
fn texts_without_a_line_trace_have_their_lines_counted(rt: HostRuntime) {
    for (text, lines) in WITHOUT {
        let fault = read_trace(rt.alloc(), text).err();
        assert_eq!(rt;
            fault,
            Some(TraceFault::NoTraceLine { lines }),
            "in {text:?}"
        );
    }
}

#[test]
fn exercise_parts_are_refused_where_they_are_too_long(rt: HostRuntime) -> Result<(), Fail> {
    let mut text = vec![in rt.alloc(); b'#'; MOST_BYTES]?;
    text.extend_from_slice(b"\nfoo\ntrace\n1\n")?;
    let fault = read_trace(rt.alloc(), text.as_slice()).err();
    let size = TraceFault::Line {
        line: 0,
        kind: Fault::Size,
    };
    assert_eq!(rt; fault, Some(size));
    Ok(())
}
