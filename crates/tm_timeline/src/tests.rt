use crate::words::reply_word;
use crate::{append_row, last_line, row, summary};
use std::process::Abort;
use std::test::Fail;
use tm_base::{Bar, End, Entry, Op, Reply};
use tm_text::read;

/// A mutex `m` and two threads, `A` and `B`.
const TEXT: &str = "mutex m\nthread A\nlock m\nunlock m\nend\nthread B\nlock m\nunlock m\nend\n";

/// `A` gives the mutex to `B`.
const UNLOCK: Entry = Entry {
    thread: 1,
    place: 3,
    object: 0,
    at: 3,
    stamp: 4,
    op: Op::Unlock,
    reply: Reply::Gave(2),
};

/// `main` starts `A`.
const START: Entry = Entry {
    thread: 0,
    place: 1,
    object: 1,
    at: 1,
    stamp: 18446744073709551615,
    op: Op::Start,
    reply: Reply::Ok,
};

/// `B` gets the least value.
const GOT: Entry = Entry {
    thread: 2,
    place: 18446744073709551615,
    object: 0,
    at: 10,
    stamp: 0,
    op: Op::Recv,
    reply: Reply::Got(-9223372036854775808),
};

#[test]
fn a_row_prints_its_event_and_the_bars(rt: HostRuntime) -> Result<(), Fail> {
    let exercise = read(rt.alloc(), TEXT.as_bytes())?;
    assert_eq!(rt; exercise.objects(), 3);
    assert_eq!(rt; exercise.threads(), 2);
    let unlock = row(
        rt.alloc(),
        &exercise,
        5,
        &UNLOCK,
        &[Bar::Runs, Bar::Granted],
    )?;
    assert_eq!(rt;
        unlock.as_slice(),
        b"5 4 A.3 m.3 unlock gave B [RG]\n".as_slice()
    );
    let start = row(
        rt.alloc(),
        &exercise,
        1,
        &START,
        &[Bar::Unborn, Bar::Blocked],
    )?;
    let text = b"1 18446744073709551615 main.1 A.1 start ok [-B]\n";
    assert_eq!(rt; start.as_slice(), text.as_slice());
    let got = row(rt.alloc(), &exercise, 100, &GOT, &[Bar::Ended, Bar::Runs])?;
    let text = b"100 0 B.18446744073709551615 m.10 recv got -9223372036854775808 [ER]\n";
    assert_eq!(rt; got.as_slice(), text.as_slice());
    Ok(())
}

#[test]
fn a_row_is_appended_to_the_bytes_that_are_there(rt: HostRuntime) -> Result<(), Fail> {
    let exercise = read(rt.alloc(), TEXT.as_bytes())?;
    assert_eq!(rt; exercise.objects(), 3);
    assert_eq!(rt; exercise.threads(), 2);
    let mut out = Vec::from_slice(rt.alloc(), b"rows:\n")?;
    let bars = [Bar::Runs, Bar::Granted];
    append_row(&mut out, &exercise, 5, &UNLOCK, &bars)?;
    append_row(&mut out, &exercise, 6, &GOT, &bars)?;
    let text =
        b"rows:\n5 4 A.3 m.3 unlock gave B [RG]\n6 0 B.18446744073709551615 m.10 recv got -9223372036854775808 [RG]\n";
    assert_eq!(rt; out.as_slice(), text.as_slice());
    Ok(())
}

#[test]
fn each_operation_prints_its_word(rt: HostRuntime) -> Result<(), Fail> {
    let exercise = read(rt.alloc(), TEXT.as_bytes())?;
    assert_eq!(rt; exercise.objects(), 3);
    assert_eq!(rt; exercise.threads(), 2);
    let table = [
        (Op::Lock, "lock"),
        (Op::TryLock, "trylock"),
        (Op::Unlock, "unlock"),
        (Op::P, "p"),
        (Op::TryP, "tryp"),
        (Op::V, "v"),
        (Op::Enter, "enter"),
        (Op::Leave, "leave"),
        (Op::Wait(0), "wait 0"),
        (Op::Signal(15), "signal 15"),
        (Op::Broadcast(7), "broadcast 7"),
        (Op::Arrive, "arrive"),
        (Op::RLock, "rlock"),
        (Op::RUnlock, "runlock"),
        (Op::WLock, "wlock"),
        (Op::WUnlock, "wunlock"),
        (Op::Send(-1), "send -1"),
        (Op::Recv, "recv"),
        (Op::Close, "close"),
        (Op::Read, "read"),
        (Op::Write(9223372036854775807), "write 9223372036854775807"),
        (Op::Add(0), "add 0"),
        (Op::Start, "start"),
        (Op::Join, "join"),
        (Op::Begin, "begin"),
        (Op::End { cut: false }, "end"),
        (Op::End { cut: true }, "end"),
        (Op::Resume, "resume"),
        (Op::Stop, "stop"),
    ];
    for (op, word) in table {
        let entry = Entry { op, ..START };
        let printed = row(rt.alloc(), &exercise, 1, &entry, &[Bar::Runs, Bar::Runs])?;
        let wanted = format!(in rt.alloc(); "1 18446744073709551615 main.1 A.1 {word} ok [RR]\n")?;
        assert_eq!(rt; printed.as_slice(), wanted.as_bytes());
    }
    Ok(())
}

#[test]
fn each_reply_prints_its_word(rt: HostRuntime) {
    let table = [
        (Reply::Ok, "ok"),
        (Reply::Wait, "wait"),
        (Reply::Gave(2), "gave"),
        (Reply::Got(-3), "got"),
        (Reply::Held, "held"),
        (Reply::NotOwner, "notowner"),
        (Reply::Busy, "busy"),
        (Reply::Zero, "zero"),
        (Reply::Full, "full"),
        (Reply::Last, "last"),
        (Reply::Stopped, "stopped"),
        (Reply::Closed, "closed"),
        (Reply::Already, "already"),
        (Reply::Myself, "self"),
        (Reply::Cut, "cut"),
    ];
    for (reply, word) in table {
        assert_eq!(rt; reply_word(reply), word.as_bytes());
    }
}

#[test]
fn a_last_line_names_the_threads_that_were_cut(rt: HostRuntime) -> Result<(), Fail> {
    let exercise = read(rt.alloc(), TEXT.as_bytes())?;
    assert_eq!(rt; exercise.threads(), 2);
    let done = last_line(rt.alloc(), &exercise, End::Done, 18, &[])?;
    assert_eq!(rt; done.as_slice(), b"done 18\n".as_slice());
    let stuck = last_line(rt.alloc(), &exercise, End::Stuck, 12, &[1, 2])?;
    assert_eq!(rt; stuck.as_slice(), b"stuck 12 A B\n".as_slice());
    let budget = last_line(rt.alloc(), &exercise, End::Budget, 1000000, &[2])?;
    assert_eq!(rt; budget.as_slice(), b"budget 1000000 B\n".as_slice());
    Ok(())
}

#[test]
fn a_summary_counts_calls_and_waits_and_has_the_greatest_stamp(
    rt: HostRuntime,
) -> Result<(), Fail> {
    let exercise = read(rt.alloc(), TEXT.as_bytes())?;
    assert_eq!(rt; exercise.objects(), 3);
    assert_eq!(rt; exercise.threads(), 2);
    let table = [
        (Op::Begin, Reply::Ok, 1),
        (Op::Begin, Reply::Ok, 1),
        (Op::Lock, Reply::Ok, 2),
        (Op::Lock, Reply::Wait, 3),
        (Op::Stop, Reply::Ok, 9),
        (Op::Resume, Reply::Stopped, 10),
        (Op::End { cut: true }, Reply::Cut, 4),
    ];
    let mut shown = Vec::new(rt.alloc());
    for (op, reply, stamp) in table {
        let entry = Entry {
            op,
            reply,
            stamp,
            ..START
        };
        shown.push(entry)?;
    }
    let printed = summary(rt.alloc(), &exercise, shown.as_slice(), End::Stuck, &[2])?;
    let text = b"threads 2\nobjects 3\ncalls 2\nwaits 1\nstamp 10\nstuck 7 B\n";
    assert_eq!(rt; printed.as_slice(), text.as_slice());
    let nothing = summary(rt.alloc(), &exercise, &[], End::Done, &[])?;
    let text = b"threads 2\nobjects 3\ncalls 0\nwaits 0\nstamp 0\ndone 0\n";
    assert_eq!(rt; nothing.as_slice(), text.as_slice());
    Ok(())
}
