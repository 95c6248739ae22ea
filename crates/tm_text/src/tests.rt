use super::*;
use std::alloc::Global;
use std::test::Fail;
use tm_base::{Ask, Kind, Op, Opcode};
use tm_programs::{Comparison, Instruction, Operand};

/// A text of two threads, with an object of each kind and each form of instruction.
const TEXT: &[u8] =
    b"# all\nmutex m\nrwlock w\nsync c\nsem s 7\nmonitor h hoare 2\nmonitor n mesa 16\n\
barrier b 64\nasync a 65535\nvar v -5\nthread A held\nlock m\nset r1 -2\ninc r1 3\nrepeat 2\nsend c r1\n\
if r1 >= 5\nwait h 1\nend\nend\nwhile r1 != 0\n\trecv a r2\r\nend\nend\nthread B\nsend a -1\nstart A\nend";

/// Its objects.
const OBJECTS: [(&[u8], Kind); 11] = [
    (b"m", Kind::Mutex),
    (b"w", Kind::Rw),
    (b"c", Kind::Sync),
    (b"s", Kind::Sem { value: 7 }),
    (b"h", Kind::Hoare { conditions: 2 }),
    (b"n", Kind::Mesa { conditions: 16 }),
    (b"b", Kind::Barrier { parties: 64 }),
    (b"a", Kind::Async { capacity: 65535 }),
    (b"v", Kind::Var { value: -5 }),
    (b"A", Kind::Thread { own: 1, held: true }),
    (
        b"B",
        Kind::Thread {
            own: 2,
            held: false,
        },
    ),
];

/// The program of its first thread.
const PROGRAM: [Instruction; 12] = [
    Instruction::Call {
        object: 0,
        opcode: Opcode::Lock,
        operand: Operand::Nothing,
    },
    Instruction::Set {
        register: 1,
        value: -2,
    },
    Instruction::Inc {
        register: 1,
        value: 3,
    },
    Instruction::Repeat { turns: 2 },
    Instruction::Call {
        object: 2,
        opcode: Opcode::Send,
        operand: Operand::Register(1),
    },
    Instruction::If {
        register: 1,
        comparison: Comparison::AtLeast,
        value: 5,
    },
    Instruction::Call {
        object: 4,
        opcode: Opcode::Wait,
        operand: Operand::Condition(1),
    },
    Instruction::End,
    Instruction::End,
    Instruction::While {
        register: 1,
        comparison: Comparison::NotEqual,
        value: 0,
    },
    Instruction::Call {
        object: 7,
        opcode: Opcode::Recv,
        operand: Operand::Register(2),
    },
    Instruction::End,
];

#[test]
fn an_exercise_is_read_with_its_names_kinds_and_programs(rt: HostRuntime) -> Result<(), Fail> {
    let exercise = read(rt.alloc(), TEXT)?;
    assert_eq!(rt; exercise.threads(), 2);
    assert_eq!(rt; exercise.objects(), 11);
    for (object, (name, kind)) in OBJECTS.iter().enumerate() {
        assert_eq!(rt; exercise.name(object as u32).bytes(), *name);
        assert_eq!(rt; exercise.kind(object as u32), *kind);
    }
    assert_eq!(rt; exercise.own(1), 9);
    assert_eq!(rt; exercise.own(2), 10);
    assert_eq!(rt; exercise.instructions(1), PROGRAM.as_slice());
    let script = Script::make(rt.alloc(), &exercise, 2)?;
    let first = Ask::Call {
        object: 7,
        op: Op::Send(-1),
    };
    assert_eq!(rt; script.asked(), Some(first));
    Ok(())
}

/// Texts with the faulty line that is answered, if one is.
const TEXTS: [(&[u8], Option<(u64, Fault)>); 7] = [
    (b"", None),
    (b"\n# x\x01\n", None),
    (b"thread A\nlock m\nend\nmutex m", None),
    (b"mutex m\n\nm\nmutex m", Some((3, Fault::Word))),
    (b"mutex m\nmutex m\nm", Some((2, Fault::Name))),
    (b"thread A\nlock q\nend", Some((2, Fault::Unknown))),
    (b"thread A\nif r0 < 1\nend", Some((4, Fault::NotEnded))),
];

/// The faulty line that is answered for the text, if one is.
fn refusal(alloc: Global, text: &[u8]) -> Result<Option<(u64, Fault)>, Fail> {
    match read(alloc, text) {
        Ok(_) => Ok(None),
        Err(TextFault::Line { line, kind }) => Ok(Some((line, kind))),
        Err(TextFault::NoMemory) => Err(Fail::from(TextFault::NoMemory)),
    }
}

#[test]
fn a_text_is_refused_with_its_first_faulty_line(rt: HostRuntime) -> Result<(), Fail> {
    for (text, answer) in &TEXTS {
        assert_eq!(rt; refusal(rt.alloc(), text)?, *answer, "in {text:?}");
    }
    let most = vec![in rt.alloc(); b'\n'; MOST_BYTES]?;
    assert_eq!(rt; refusal(rt.alloc(), most.as_slice())?, None);
    let more = vec![in rt.alloc(); b'\n'; MOST_BYTES + 1]?;
    assert_eq!(rt;
        refusal(rt.alloc(), more.as_slice())?,
        Some((0, Fault::Size))
    );
    Ok(())
}

/// A text that declares so many objects: each by the word, a name and these lines.
fn declaring(alloc: Global, word: &str, lines: &str, count: u32) -> Result<String, Fail> {
    let mut text = String::new(alloc);
    for number in 0..count {
        write!(text, "{word} a{number}\n{lines}")?;
    }
    Ok(text)
}

#[test]
fn an_exercise_has_256_objects_and_64_threads_at_most(rt: HostRuntime) -> Result<(), Fail> {
    for (word, lines, most, line) in [("mutex", "", 256u32, 257u64), ("thread", "end\n", 64, 129)] {
        let text = declaring(rt.alloc(), word, lines, most)?;
        assert_eq!(rt; refusal(rt.alloc(), text.as_bytes())?, None);
        let text = declaring(rt.alloc(), word, lines, most + 1)?;
        assert_eq!(rt;
            refusal(rt.alloc(), text.as_bytes())?,
            Some((line, Fault::Limit))
        );
    }
    Ok(())
}

/// Two threads that take one mutex in turn.
const PAIR: &[u8] = b"mutex m\nthread A\nlock m\nunlock m\nend\nthread B\nlock m\nunlock m\nend\n";

/// What is answered for its first bytes: for more of them than in the row before, up to so many.
const BEGINNINGS: [(usize, Option<(u64, Fault)>); 25] = [
    (0, None),
    (4, Some((1, Fault::Word))),
    (6, Some((1, Fault::Count))),
    (8, None),
    (13, Some((2, Fault::Word))),
    (15, Some((2, Fault::Count))),
    (17, Some((3, Fault::NotEnded))),
    (20, Some((3, Fault::Word))),
    (22, Some((3, Fault::Count))),
    (24, Some((4, Fault::NotEnded))),
    (29, Some((4, Fault::Word))),
    (31, Some((4, Fault::Count))),
    (33, Some((5, Fault::NotEnded))),
    (35, Some((5, Fault::Word))),
    (37, None),
    (42, Some((6, Fault::Word))),
    (44, Some((6, Fault::Count))),
    (46, Some((7, Fault::NotEnded))),
    (49, Some((7, Fault::Word))),
    (51, Some((7, Fault::Count))),
    (53, Some((8, Fault::NotEnded))),
    (58, Some((8, Fault::Word))),
    (60, Some((8, Fault::Count))),
    (62, Some((9, Fault::NotEnded))),
    (64, Some((9, Fault::Word))),
];

#[test]
fn each_beginning_of_a_text_is_read_or_refused_at_its_last_line(
    rt: HostRuntime,
) -> Result<(), Fail> {
    for (bytes, text) in (0..=PAIR.len()).map(|n| (n, &PAIR[..n])) {
        let row = BEGINNINGS.iter().find(|row| bytes <= row.0);
        let answer = match row {
            Some(row) => row.1,
            None => None,
        };
        assert_eq!(rt; refusal(rt.alloc(), text)?, answer, "in {text:?}");
    }
    Ok(())
}

/// A text with blanks, comments and a held thread, and its canonical text.
const LOOSE: &[u8] = b"  mutex   m\r\n# x\n\nthread A held\n lock m\nend";

const CANONICAL: &[u8] = b"mutex m\nthread A held\nlock m\nend\n";

/// What a text of each kind of object and each form of instruction prints.
const PRINTED: &[u8] = b"mutex m\nrwlock w\nsync c\nsem s 7\nmonitor h hoare 2\nmonitor n mesa 16\n\
barrier b 64\nasync a 65535\nvar v -5\nthread A held\nlock m\nset r1 -2\ninc r1 3\nrepeat 2\nsend c r1\n\
if r1 >= 5\nwait h 1\nend\nend\nwhile r1 != 0\nrecv a r2\nend\nend\nthread B\nsend a -1\nstart A\nend\n";

#[test]
fn the_canonical_text_has_one_space_between_words_and_no_ignored_lines(
    rt: HostRuntime,
) -> Result<(), Fail> {
    for (text, canonical) in [(LOOSE, CANONICAL), (TEXT, PRINTED)] {
        let exercise = read(rt.alloc(), text)?;
        assert_eq!(rt; print(rt.alloc(), &exercise)?.as_slice(), canonical);
    }
    Ok(())
}
