use super::*;
use std::test::Fail;
use tm_text::print;

/// Plans and the texts of their exercises, with `;` for the end of a line: of each kind and way, mostly with the
/// smallest sizes.
const PLANS: [(Plan, &[u8]); 10] = [
    (
        Plan::Philosophers {
            n: 2,
            rounds: 1,
            way: Way::Naive,
        },
        b"mutex f0;mutex f1;\
thread P0;repeat 1;lock f0;lock f1;unlock f1;unlock f0;end;end;\
thread P1;repeat 1;lock f1;lock f0;unlock f0;unlock f1;end;end;",
    ),
    (
        Plan::Philosophers {
            n: 3,
            rounds: 100,
            way: Way::Asymmetric,
        },
        b"mutex f0;mutex f1;mutex f2;\
thread P0;repeat 100;lock f0;lock f1;unlock f1;unlock f0;end;end;\
thread P1;repeat 100;lock f1;lock f2;unlock f2;unlock f1;end;end;\
thread P2;repeat 100;lock f0;lock f2;unlock f2;unlock f0;end;end;",
    ),
    (
        Plan::Philosophers {
            n: 2,
            rounds: 3,
            way: Way::Chairs,
        },
        b"mutex f0;mutex f1;sem chairs 1;\
thread P0;repeat 3;p chairs;lock f0;lock f1;unlock f1;unlock f0;v chairs;end;end;\
thread P1;repeat 3;p chairs;lock f1;lock f0;unlock f0;unlock f1;v chairs;end;end;",
    ),
    (
        Plan::Buffer {
            producers: 1,
            consumers: 2,
            places: 1000,
            items: 4,
            guard: Guard::Semaphores,
        },
        b"sem empty 1000;sem full 0;mutex m;var count 0;\
thread P1;repeat 4;p empty;lock m;add count 1;unlock m;v full;end;end;\
thread C1;repeat 2;p full;lock m;add count -1;unlock m;v empty;end;end;\
thread C2;repeat 2;p full;lock m;add count -1;unlock m;v empty;end;end;",
    ),
    (
        Plan::Buffer {
            producers: 2,
            consumers: 1,
            places: 3,
            items: 5,
            guard: Guard::Hoare,
        },
        b"monitor b hoare 2;var count 0;\
thread P1;repeat 5;enter b;read count r0;if r0 = 3;wait b 0;end;add count 1;signal b 1;leave b;end;end;\
thread P2;repeat 5;enter b;read count r0;if r0 = 3;wait b 0;end;add count 1;signal b 1;leave b;end;end;\
thread C1;repeat 10;enter b;read count r0;if r0 = 0;wait b 1;end;add count -1;signal b 0;leave b;end;end;",
    ),
    (
        Plan::Buffer {
            producers: 1,
            consumers: 1,
            places: 1,
            items: 1,
            guard: Guard::Mesa,
        },
        b"monitor b mesa 2;var count 0;\
thread P1;repeat 1;enter b;read count r0;while r0 = 1;wait b 0;read count r0;end;\
add count 1;signal b 1;leave b;end;end;\
thread C1;repeat 1;enter b;read count r0;while r0 = 0;wait b 1;read count r0;end;\
add count -1;signal b 0;leave b;end;end;",
    ),
    (
        Plan::Readers {
            readers: 2,
            writers: 1,
            rounds: 7,
        },
        b"rwlock l;var x 0;\
thread R1;repeat 7;rlock l;read x r0;runlock l;end;end;\
thread R2;repeat 7;rlock l;read x r0;runlock l;end;end;\
thread W1;repeat 7;wlock l;add x 1;wunlock l;end;end;",
    ),
    (
        Plan::Coaster { seats: 2, rides: 1 },
        b"sem queue 0;sem boarded 0;sem unload 0;sem out 0;var rides 0;\
thread Car;repeat 1;repeat 2;v queue;end;repeat 2;p boarded;end;add rides 1;\
repeat 2;v unload;end;repeat 2;p out;end;end;end;\
thread P1;p queue;v boarded;p unload;v out;end;\
thread P2;p queue;v boarded;p unload;v out;end;",
    ),
    (
        Plan::Ring { n: 2, rounds: 1 },
        b"sync c0;sync c1;\
thread T0;repeat 1;send c0 1;recv c1 r0;end;end;\
thread T1;repeat 1;recv c0 r0;send c1 r0;end;end;",
    ),
    (
        Plan::Ring { n: 3, rounds: 9 },
        b"sync c0;sync c1;sync c2;\
thread T0;repeat 9;send c0 1;recv c2 r0;end;end;\
thread T1;repeat 9;recv c0 r0;send c1 r0;end;end;\
thread T2;repeat 9;recv c1 r0;send c2 r0;end;end;",
    ),
];

/// The text of the exercise of `large 1` up to its third thread, and the lines of its last thread.
const LARGE_START: &[u8] =
    b"mutex m0;mutex m1;mutex m2;mutex m3;mutex m4;mutex m5;mutex m6;mutex m7;\
sem s0 1;sem s1 2;sem s2 3;sem s3 1;sem s4 2;sem s5 3;sem s6 1;sem s7 2;\
var x0 0;var x1 0;var x2 0;var x3 0;var x4 0;var x5 0;var x6 0;var x7 0;\
thread T1;repeat 50;lock m6;add x6 1;unlock m6;p s1;read x4 r0;v s1;end;end;\
thread T2;repeat 50;lock m6;add x6 1;unlock m6;p s2;read x3 r0;v s2;end;end;";

const LARGE_END: &[u8] =
    b"thread T64;repeat 50;lock m6;add x6 1;unlock m6;p s4;read x1 r0;v s4;end;end;";

/// Whether the bytes from this place on begin with the text, with `;` for the end of a line.
fn shows(bytes: &[u8], place: usize, text: &[u8]) -> bool {
    bytes.iter().skip(place).zip(text).all(|(byte, shown)| *byte
        == (if *shown == b';' { b'\n' } else { *shown }))
}

#[test]
fn plans_make_the_classic_exercises(rt: HostRuntime) -> Result<(), Fail> {
    for (plan, text) in PLANS {
        assert!(rt; plan.is_in_range(), "{plan:?}");
        let exercise = make_exercise(rt.alloc(), plan)?;
        let made = print(rt.alloc(), &exercise)?;
        let bytes = made.as_slice();
        assert_eq!(rt; bytes.len(), text.len(), "{plan:?}");
        assert!(rt; shows(bytes, 0, text), "{plan:?}");
    }
    Ok(())
}

#[test]
fn a_number_makes_a_large_exercise(rt: HostRuntime) -> Result<(), Fail> {
    let exercise = large(rt.alloc(), 1)?;
    let made = print(rt.alloc(), &exercise)?;
    let bytes = made.as_slice();
    assert_eq!(rt; bytes.len(), 5135);
    assert!(rt; shows(bytes, 0, LARGE_START));
    assert!(rt; shows(bytes, 5135 - LARGE_END.len(), LARGE_END));
    Ok(())
}
