use crate::{EventReader, read_event};
use std::process::Abort;
use std::test::Fail;
use tm_base::{Entry, Op, Reply};
use tm_lines::Fault;
use tm_text::{Exercise, read};

/// Objects 0 to 3 are `m`, `x`, `A` and `B`; threads 1 and 2 are `A` and `B`.
const TEXT: &str = "monitor m mesa 2\nvar x 0\nthread A\nenter m\nread x r0\nend\nthread B\nend\n";

/// `A` begins.
const BEGIN: Entry = Entry {
    thread: 1,
    place: 1,
    object: 2,
    at: 1,
    stamp: 1,
    op: Op::Begin,
    reply: Reply::Ok,
};

/// Lines that say so, as it can be written.
const BEGINS: &str = "1 A.1 A.1 begin ok\n\
7 1 A.1 A.1 begin ok\n\
1 A.1 A.1 begin ok [R-]\n\
5 1 A.1 A.1 begin ok [-RBGE]\n\
1 A.1 A.1 begin ok []\n\
00 1 A.1 A.1 begin ok\n\
99999999999999999999999999 1 A.1 A.1 begin ok\n\
01 A.001 A.01 begin ok\n\
\t1\t A.1\t A.1\t begin\t ok ";

/// `main` stops `m` late.
const STOP: Entry = Entry {
    thread: 0,
    place: 9223372036854775807,
    object: 0,
    at: 3,
    stamp: 9223372036854775807,
    op: Op::Stop,
    reply: Reply::Ok,
};

/// Lines whose operation or reply is unknown, some with faults of later kinds.
const UNKNOWN_WORDS: &str = "1 A.1 A.1 Begin ok\n\
1 A.1 A.1 begin OK\n\
1 A.1 A.1 set ok\n\
1 A.1 A.1 repeat ok\n\
1 A.1 A.1 if ok\n\
1 A.1 A.1 begin oks\n\
1 A.1 x.1 write ok 1\n\
1 A.1 A.1 ok begin\n\
1 A m.1 lock ok\n\
1 1 1 A.1 A.1 begin ok\n\
1 A.1 A.1 begin 5\n\
x Q.1 Q.1 foo\n\
1 Q.1 Q.1 begin bar x y\n\
1 A.1 m.1 wait 0 1\n\
1 A.1 m.1 enter 0 ok\n\
1 A.1 A.1 begin [R-]\n\
1 A.1 m.1 wait ok [R-]\n\
1 A.1 x.1 write 1 [R-]";

/// Lines that lack a word, or have one too many, some with faults of later kinds.
const WRONG_COUNTS: &str = "Done 4\n\
done4\n\
rerun 9\n\
races 0\n\
deadlocks 0\n\
trace\n\
trace 2\n\
end\n\
1\n\
1 2\n\
1 2 3\n\
A.1\n\
1 A.1\n\
1 A.1 A.1\n\
1 A.1 A.1 begin\n\
5 1 A.1 A.1\n\
1 A.1 x.1 read got\n\
1 A.1 A.1 start gave\n\
1 A.1 x.1 write\n\
1 A.1 x.1 write 1\n\
1 A.1 A.1 begin ok x\n\
1 A.1 A.1 begin ok [R-] [R-]\n\
1 A.1 A.1 begin ok [R-] x\n\
1 A.1 A.1 begin ok x [R-]\n\
1 A.1 A.1 begin ok [RX]\n\
1 A.1 A.1 begin ok [R\n\
1 A.1 A.1 begin ok R]\n\
1 A.1 A.1 begin ok ok\n\
1 A.1 A.1 begin ok {1,0,0}\n\
1 A.1 m.1 wait ok\n\
1 A.1 x.1 read got 1 2\n\
1 Q.1 A.1 begin ok ok\n\
x A.1 A.1 begin ok ok\n\
1 A.1 A.1 begin ok [r-]\n\
1 A.1 A.1 begin ok [[R]]\n\
1 A.1 A.1 begin ok []R";

/// Lines that name what the exercise doesn't have, some with a wrong number.
const UNKNOWN_NAMES: &str = "1 A.1 A.1 start gave [R-]\n\
1 Q.1 A.1 begin ok\n\
1 A.1 Q.1 begin ok\n\
1 A.1 main.1 begin ok\n\
1 .1 A.1 begin ok\n\
1 A.1 .1 begin ok\n\
1 x.1 A.1 begin ok\n\
1 m.1 A.1 begin ok\n\
0 Q.1 A.1 begin ok\n\
1 A.1 A.1 start gave x\n\
1 A.1 A.1 start gave Q\n\
x 1 Q.1 A.1 begin ok\n\
1 a.1 A.1 begin ok\n\
1 A.1 Q begin ok\n\
7 1 Q A.1 begin ok\n\
1 A.1 A.1 start gave A.1\n\
1 Q.0 A.1 begin ok\n\
1 A.1 A.1 start gave main";

/// Lines with a number that is none or out of its range.
const WRONG_NUMBERS: &str = "1 A.1 x.1 read got [R-]\n\
0 A.1 A.1 begin ok\n\
-1 A.1 A.1 begin ok\n\
x A.1 A.1 begin ok\n\
9223372036854775808 A.1 A.1 begin ok\n\
1 A.0 A.1 begin ok\n\
1 A. A.1 begin ok\n\
1 A.1.1 A.1 begin ok\n\
1 A.x A.1 begin ok\n\
1 A.1 A begin ok\n\
1 A.1 A.9223372036854775808 begin ok\n\
1 A.1 A.-1 begin ok\n\
1 A.+1 A.1 begin ok\n\
+1 A.1 A.1 begin ok\n\
x 1 A.1 A.1 begin ok\n\
-1 1 A.1 A.1 begin ok\n\
1. 1 A.1 A.1 begin ok\n\
7 1 A A.1 begin ok\n\
1 A.1 m.1 wait 16 ok\n\
1 A.1 m.1 wait -1 ok\n\
1 A.1 m.1 wait x ok\n\
1 A.1 x.1 write x ok\n\
1 A.1 x.1 write 9223372036854775808 ok\n\
1 A.1 x.1 write r0 ok\n\
1 A.1 x.1 read got x\n\
1 A.1 x.1 read got 9223372036854775808\n\
1 A.1 x.1 read got -9223372036854775809\n\
A.1 A.1 A.1 begin ok";

#[test]
fn event_lines_say_their_events(rt: HostRuntime) -> Result<(), Fail> {
    let exercise = read(rt.alloc(), TEXT.as_bytes())?;
    let reader = EventReader::make(rt.alloc(), &exercise)?;
    all_say(&rt, &exercise, &reader, BEGINS, BEGIN);
    all_say(
        &rt,
        &exercise,
        &reader,
        "9223372036854775807 main.9223372036854775807 m.3 stop ok [--]",
        STOP,
    );
    calls_say(
        &rt,
        &exercise,
        &reader,
        "1 A.1 A.1 read got -9223372036854775808 [RR]",
        Op::Read,
        Reply::Got(-9223372036854775808),
    );
    calls_say(
        &rt,
        &exercise,
        &reader,
        "3 1 A.1 A.1 add 9223372036854775807 got -007 []",
        Op::Add(9223372036854775807),
        Reply::Got(-7),
    );
    calls_say(
        &rt,
        &exercise,
        &reader,
        "1 A.1 A.1 write -0 ok",
        Op::Write(0),
        Reply::Ok,
    );
    calls_say(
        &rt,
        &exercise,
        &reader,
        "1 A.1 A.1 send -1 closed",
        Op::Send(-1),
        Reply::Closed,
    );
    calls_say(
        &rt,
        &exercise,
        &reader,
        "1 A.1 A.1 wait 15 wait",
        Op::Wait(15),
        Reply::Wait,
    );
    calls_say(
        &rt,
        &exercise,
        &reader,
        "1 A.1 A.1 signal -0 notowner",
        Op::Signal(0),
        Reply::NotOwner,
    );
    calls_say(
        &rt,
        &exercise,
        &reader,
        "1 A.1 A.1 start gave B",
        Op::Start,
        Reply::Gave(2),
    );
    calls_say(
        &rt,
        &exercise,
        &reader,
        "1 A.1 A.1 begin cut",
        Op::Begin,
        Reply::Cut,
    );
    calls_say(
        &rt,
        &exercise,
        &reader,
        "1 A.1 A.1 end cut",
        Op::End { cut: true },
        Reply::Cut,
    );
    calls_say(
        &rt,
        &exercise,
        &reader,
        "1 A.1 A.1 end wait",
        Op::End { cut: false },
        Reply::Wait,
    );
    Ok(())
}

#[test]
fn each_faulty_line_has_the_first_kind_that_applies(rt: HostRuntime) -> Result<(), Fail> {
    let exercise = read(rt.alloc(), TEXT.as_bytes())?;
    let reader = EventReader::make(rt.alloc(), &exercise)?;
    has_a_byte_fault(&rt, &exercise, &reader, b"1 A.1 A.1 begin\x00 ok");
    has_a_byte_fault(&rt, &exercise, &reader, b"1 A.1 A.1 foo \x80");
    has_a_byte_fault(&rt, &exercise, &reader, b"1 A.1 A.1 begin ok\r");
    all_have(&rt, &exercise, &reader, UNKNOWN_WORDS, Fault::Word);
    all_have(&rt, &exercise, &reader, WRONG_COUNTS, Fault::Count);
    all_have(&rt, &exercise, &reader, UNKNOWN_NAMES, Fault::Unknown);
    all_have(&rt, &exercise, &reader, WRONG_NUMBERS, Fault::Number);
    Ok(())
}

/// Each of the lines says the event, read with an index of names and without.
fn all_say(rt: &impl Abort, exercise: &Exercise, reader: &EventReader, lines: &str, entry: Entry) {
    for line in lines.split('\n') {
        let bytes = line.as_bytes();
        assert_eq!(rt; read_event(exercise, bytes), Ok(entry), "at {line}");
        assert_eq!(rt; reader.read(bytes), Ok(entry), "at {line}");
    }
}

/// The line says that `A` does this in place of its beginning, and that this is the reply.
fn calls_say(
    rt: &impl Abort,
    exercise: &Exercise,
    reader: &EventReader,
    line: &str,
    op: Op,
    reply: Reply,
) {
    let entry = Entry { op, reply, ..BEGIN };
    all_say(rt, exercise, reader, line, entry);
}

/// Each of the lines has this kind of fault, read with an index of names and without.
fn all_have(rt: &impl Abort, exercise: &Exercise, reader: &EventReader, lines: &str, fault: Fault) {
    for line in lines.split('\n') {
        let bytes = line.as_bytes();
        assert_eq!(rt; read_event(exercise, bytes), Err(fault), "at {line}");
        assert_eq!(rt; reader.read(bytes), Err(fault), "at {line}");
    }
}

/// A byte of the line may not stand there.
fn has_a_byte_fault(rt: &impl Abort, exercise: &Exercise, reader: &EventReader, line: &[u8]) {
    assert_eq!(rt; read_event(exercise, line), Err(Fault::Byte));
    assert_eq!(rt; reader.read(line), Err(Fault::Byte));
}
