//! Whole runs with their exact bytes: one of each kind of object, and of threads that are held or cut.

use crate::tests::command;
use std::test::Fail;

/// A semaphore at 0, and a V that hands over to the thread that waits.
const SEMAPHORE: &str = "sem s 0\nthread A\np s\nend\nthread B\nv s\nend\n";

const SEMAPHORE_ROWS: &str = "1 1 A.1 A.1 begin ok [R-]
2 1 B.1 B.1 begin ok [RR]
3 2 A.2 s.1 p wait [BR]
4 3 B.2 s.2 v gave A [GR]
5 4 A.3 s.3 resume ok [RR]
6 4 B.3 B.2 end ok [RE]
7 5 A.4 A.2 end ok [EE]
done 7
";

/// A barrier of one party, which each arrival opens.
const BARRIER: &str = "barrier b 1\nthread A\narrive b\narrive b\nend\n";

const BARRIER_ROWS: &str = "1 1 A.1 A.1 begin ok [R]
2 2 A.2 b.1 arrive last [R]
3 3 A.3 b.2 arrive last [R]
4 4 A.4 A.2 end ok [E]
done 4
";

/// A signal of Hoare's, after which the waiter is inside and the signaller waits.
const HOARE: &str =
    "monitor m hoare 1\nthread C\nenter m\nwait m 0\nleave m\nend\nthread P\nenter m\nsignal m 0\nleave m\nend\nthread E\nenter m\nleave m\nend\n";

const HOARE_ROWS: &str = "1 1 C.1 C.1 begin ok [R--]
2 1 P.1 P.1 begin ok [RR-]
3 1 E.1 E.1 begin ok [RRR]
4 2 C.2 m.1 enter ok [RRR]
5 3 P.2 m.2 enter wait [RBR]
6 4 E.2 m.3 enter wait [RBB]
7 5 C.3 m.4 wait 0 wait [BGB]
8 6 P.3 m.5 resume ok [BRB]
9 7 P.4 m.6 signal 0 wait [GBB]
10 8 C.4 m.7 resume ok [RBB]
11 9 C.5 m.8 leave gave P [RGB]
12 10 P.5 m.9 resume ok [RRB]
13 10 C.6 C.2 end ok [ERB]
14 11 P.6 m.10 leave gave E [ERG]
15 12 E.3 m.11 resume ok [ERR]
16 12 P.7 P.2 end ok [EER]
17 13 E.4 m.12 leave ok [EER]
18 14 E.5 E.2 end ok [EEE]
done 18
";

/// The same calls on a monitor of Mesa's, where the signaller goes on.
const MESA: &str =
    "monitor m mesa 1\nthread C\nenter m\nwait m 0\nleave m\nend\nthread P\nenter m\nsignal m 0\nleave m\nend\nthread E\nenter m\nleave m\nend\n";

const MESA_ROWS: &str = "1 1 C.1 C.1 begin ok [R--]
2 1 P.1 P.1 begin ok [RR-]
3 1 E.1 E.1 begin ok [RRR]
4 2 C.2 m.1 enter ok [RRR]
5 3 P.2 m.2 enter wait [RBR]
6 4 E.2 m.3 enter wait [RBB]
7 5 C.3 m.4 wait 0 wait [BGB]
8 6 P.3 m.5 resume ok [BRB]
9 7 P.4 m.6 signal 0 ok [BRB]
10 8 P.5 m.7 leave gave E [BRG]
11 9 E.3 m.8 resume ok [BRR]
12 9 P.6 P.2 end ok [BER]
13 10 E.4 m.9 leave gave C [GER]
14 11 C.4 m.10 resume ok [RER]
15 11 E.5 E.2 end ok [REE]
16 12 C.5 m.11 leave ok [REE]
17 13 C.6 C.2 end ok [EEE]
done 17
";

/// Two threads that meet at a channel, which is closed last.
const SYNC: &str =
    "sync c\nvar x 0\nthread S\nsend c 5\nsend c 5\nread x r1\nclose c\nend\nthread R\nrecv c r0\nrecv c r0\nrecv c r0\nend\n";

const SYNC_ROWS: &str = "1 1 S.1 S.1 begin ok [R-]
2 1 R.1 R.1 begin ok [RR]
3 2 S.2 c.1 send 5 wait [BR]
4 3 R.2 c.2 recv got 5 [GR]
5 4 S.3 c.3 resume ok [RR]
6 5 R.3 c.4 recv wait [RB]
7 6 S.4 c.5 send 5 gave R [RG]
8 7 R.4 c.6 resume got 5 [RR]
9 7 S.5 x.1 read got 0 [RR]
10 8 R.5 c.7 recv wait [RB]
11 9 S.6 c.8 close ok [RG]
12 10 R.6 c.9 resume closed [RR]
13 10 S.7 S.2 end ok [ER]
14 11 R.7 R.2 end ok [EE]
done 14
";

/// A channel that keeps one message.
const ASYNC: &str =
    "async c 1\nvar x 0\nthread S\nsend c 1\nsend c 2\nend\nthread R\nread x r0\nrecv c r0\nrecv c r0\nend\n";

const ASYNC_ROWS: &str = "1 1 S.1 S.1 begin ok [R-]
2 1 R.1 R.1 begin ok [RR]
3 2 S.2 c.1 send 1 ok [RR]
4 2 R.2 x.1 read got 0 [RR]
5 3 S.3 c.2 send 2 wait [BR]
6 4 R.3 c.3 recv got 1 [GR]
7 5 S.4 c.4 resume ok [RR]
8 6 R.4 c.5 recv got 2 [RR]
9 6 S.5 S.2 end ok [ER]
10 7 R.5 R.2 end ok [EE]
done 10
";

/// A thread that asks for more calls than it may make, and keeps its mutex.
const LIMIT: &str =
    "mutex m\nthread A\nlock m\nrepeat 9\nlock m\nend\nend\nthread B\nlock m\nend\n";

const LIMIT_ROWS: &str = "1 1 A.1 A.1 begin ok [R-]
2 1 B.1 B.1 begin ok [RR]
3 2 A.2 m.1 lock ok [RR]
4 3 B.2 m.2 lock wait [RB]
5 4 A.3 m.3 lock held [RB]
6 5 A.4 m.4 lock held [RB]
7 6 A.5 A.2 end cut [EB]
8 6 main.1 m.5 stop ok [EG]
9 7 B.3 m.6 resume stopped [ER]
10 8 B.4 B.2 end cut [EE]
budget 10 A
";

/// A held thread that another one starts and joins.
const HELD: &str = "thread A\nstart B\njoin B\nend\nthread B held\nend\n";

const HELD_ROWS: &str = "1 1 A.1 A.1 begin ok [R-]
2 1 B.1 B.1 begin wait [RB]
3 2 A.2 B.2 start gave B [RG]
4 3 B.2 B.3 resume ok [RR]
5 4 A.3 B.4 join wait [BR]
6 5 B.3 B.5 end ok [GE]
7 6 A.4 B.6 resume ok [RE]
8 7 A.5 A.2 end ok [EE]
done 8
";

/// A writer between two readers.
const READERS: &str =
    "rwlock l\nthread A\nrlock l\nrunlock l\nend\nthread W\nwlock l\nwunlock l\nend\nthread C\nrlock l\nrunlock l\nend\n";

const READERS_ROWS: &str = "1 1 A.1 A.1 begin ok [R--]
2 1 W.1 W.1 begin ok [RR-]
3 1 C.1 C.1 begin ok [RRR]
4 2 A.2 l.1 rlock ok [RRR]
5 3 W.2 l.2 wlock wait [RBR]
6 4 C.2 l.3 rlock wait [RBB]
7 5 A.3 l.4 runlock ok [RGB]
8 6 W.3 l.5 resume ok [RRB]
9 6 A.4 A.2 end ok [ERB]
10 7 W.4 l.6 wunlock ok [ERG]
11 8 C.3 l.7 resume ok [ERR]
12 8 W.5 W.2 end ok [EER]
13 9 C.4 l.8 runlock ok [EER]
14 10 C.5 C.2 end ok [EEE]
done 14
";

/// A held thread that nobody starts, in a text with blanks, a comment and an empty line.
const UNSTARTED: &str = "  mutex   m\r\n# x\n\nthread A held\n lock m\nend\n";

const UNSTARTED_ROWS: &str = "1 1 A.1 A.1 begin wait [B]
2 2 main.1 A.2 stop ok [G]
3 3 A.2 A.3 resume stopped [R]
4 4 A.3 A.4 end cut [E]
stuck 4 A
";

/// A variable at its greatest value.
const GREATEST: &str = "var x 9223372036854775807\nthread A\nadd x 1\nend\n";

const GREATEST_ROWS: &str = "1 1 A.1 A.1 begin ok [R]
2 2 A.2 x.1 add 1 got 9223372036854775807 [R]
3 3 A.3 A.2 end ok [E]
done 3
";

/// The words of a run, the text, what is written, and the status.
const RUNS: [(&str, &str, &str, u8); 11] = [
    ("run", SEMAPHORE, SEMAPHORE_ROWS, 0),
    ("run", BARRIER, BARRIER_ROWS, 0),
    ("run", HOARE, HOARE_ROWS, 0),
    ("run", MESA, MESA_ROWS, 0),
    ("run", SYNC, SYNC_ROWS, 0),
    ("run", ASYNC, ASYNC_ROWS, 0),
    ("run --events 3", LIMIT, LIMIT_ROWS, 7),
    ("run", HELD, HELD_ROWS, 0),
    ("run", READERS, READERS_ROWS, 0),
    ("run", UNSTARTED, UNSTARTED_ROWS, 6),
    ("run", GREATEST, GREATEST_ROWS, 0),
];

#[test]
fn objects_of_each_kind_do_what_textbooks_say(rt: HostRuntime) -> Result<(), Fail> {
    for (words, text, rows, status) in RUNS {
        let (outcome, sink) = command(rt.alloc(), words, text, &[], &[])?;
        assert_eq!(rt; sink.bytes(), rows.as_bytes());
        assert_eq!(rt; outcome.status, status, "for {text:?}");
        assert!(rt; outcome.finished.is_some());
    }
    Ok(())
}
