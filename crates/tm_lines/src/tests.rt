use super::*;
use std::alloc::{AllocError, Global};
use std::test::Fail;
use tm_base::NoMemory;

/// Texts with the first faulty line and its kind. Each kind stands alone, and before a later one that applies
/// to the line too.
const FAULTS: [(&[u8], u64, Fault); 34] = [
    (b"mutex m\x0b", 1, Fault::Byte),
    (b"mutex\r m", 1, Fault::Byte),
    (b"mutex m\r\r\n", 1, Fault::Byte),
    (b"m\xc3\xa4", 1, Fault::Byte),
    (b"mutex m\nm\nmutex m", 2, Fault::Word),
    (b"lock m", 1, Fault::Word),
    (b"end", 1, Fault::Word),
    (b"thread A\nlock q\nmutex q\nend", 3, Fault::Word),
    (b"monitor m fifo", 1, Fault::Word),
    (b"thread A foo x", 1, Fault::Word),
    (b"thread A\nif r9 5\nend\nend", 2, Fault::Word),
    (b"mutex", 1, Fault::Count),
    (b"thread A held x", 1, Fault::Count),
    (b"sem 1s", 1, Fault::Count),
    (b"mutex main", 1, Fault::Name),
    (b"mutex a_name_of_17_____", 1, Fault::Name),
    (b"mutex m\nsem m x", 2, Fault::Name),
    (b"thread A\nlock m\nend", 2, Fault::Unknown),
    (b"thread A\ntrylock m x\nend\n#mutex m", 2, Fault::Unknown),
    (b"sem s 1\nthread A\nlock s\nend", 3, Fault::Kind),
    (b"sem s 1\nthread A\nsend s x\nend", 3, Fault::Kind),
    (
        b"thread A\nbroadcast h 0\nend\nmonitor h hoare 1",
        2,
        Fault::Kind,
    ),
    (b"sem s -1", 1, Fault::Number),
    (b"var v 9223372036854775808", 1, Fault::Number),
    (
        b"monitor h hoare 2\nthread A\nwait h 2\nend",
        3,
        Fault::Number,
    ),
    (b"thread A\nset r8 x\nend", 2, Fault::Number),
    (b"var v 0\nthread A\nread v 0\nend", 3, Fault::Register),
    (b"sync c\nthread A\nsend c rx\nend", 3, Fault::Register),
    (b"thread A\nrepeat 1\nset r0 1\nend\nend", 4, Fault::Idle),
    (
        b"mutex m\nthread A\nwhile r0 = 0\nif r0 = 0\nlock m\nend\nend\nend",
        7,
        Fault::Idle,
    ),
    (b"thread A\nrepeat 1\nend extra\nend", 3, Fault::Count),
    (b"thread A", 2, Fault::NotEnded),
    (b"thread A\n\r", 3, Fault::NotEnded),
    (b"thread A\nif r0 < 1\nend", 4, Fault::NotEnded),
];

/// A text without a fault, with each kind of object and of block, and with lines that are ignored.
const SOUND: &[u8] =
    b"# all\r\n\nmutex m\nrwlock w\nsync c\nsem s 007\nmonitor h hoare 2\nmonitor n mesa 16\n\
barrier b 64\nasync a 65535\nvar v -9223372036854775808\nthread A held\nlock\tm\nwait h 1\nwait n 15\n\
repeat 0\nwhile r7 != -0\nadd v r7\nend\nstart B\nend\nif r0 >= 5\nset r0 -1\nend\nend\nthread B\nend\n#\xff";

/// Texts of a first line, numbered lines and a last one: so many of them, and the fault.
const LIMITS: [(&str, &str, &str, u32, Option<(u64, Fault)>); 8] = [
    ("", "mutex m", "\n", 256, None),
    ("", "mutex m", "\n", 257, Some((257, Fault::Limit))),
    ("", "thread T", "\nend\n", 64, None),
    ("", "thread T", "\nend\n", 65, Some((129, Fault::Limit))),
    (
        "thread A\n",
        "inc r0 ",
        "\n",
        4096,
        Some((4098, Fault::NotEnded)),
    ),
    (
        "thread A\n",
        "inc r0 ",
        "\n",
        4097,
        Some((4098, Fault::Limit)),
    ),
    (
        "thread A\n",
        "repeat ",
        "\n",
        16,
        Some((18, Fault::NotEnded)),
    ),
    ("thread A\n", "repeat ", "\n", 17, Some((18, Fault::Depth))),
];

/// The first fault of a text, as a line and a kind.
fn found(alloc: Global, text: &[u8]) -> Result<Option<(u64, Fault)>, NoMemory> {
    match first_fault(alloc, text)? {
        None => Ok(None),
        Some(fault) => Ok(Some((fault.line, fault.kind))),
    }
}

/// The first line, and then so many lines that are numbered from 0.
fn numbered(
    alloc: Global,
    first: &str,
    line: &str,
    after: &str,
    times: u32,
) -> Result<String, AllocError> {
    let mut text = String::from_str(alloc, first)?;
    for i in 0..times {
        write!(text, "{line}{i}{after}")?;
    }
    Ok(text)
}

#[test]
fn the_lowest_faulty_line_is_answered_with_the_first_kind_that_applies(
    rt: HostRuntime,
) -> Result<(), Fail> {
    for (text, line, kind) in &FAULTS {
        assert_eq!(rt;
            found(rt.alloc(), text)?,
            Some((*line, *kind)),
            "in {text:?}"
        );
    }
    Ok(())
}

#[test]
fn texts_may_have_all_that_the_limits_allow(rt: HostRuntime) -> Result<(), Fail> {
    for (first, line, after, times, fault) in &LIMITS {
        let text = numbered(rt.alloc(), first, line, after, *times)?;
        assert_eq!(rt; found(rt.alloc(), text.as_bytes())?, *fault, "in {line:?}");
    }
    Ok(())
}

#[test]
fn a_sound_text_has_no_fault_and_one_byte_too_many_is_one(rt: HostRuntime) -> Result<(), Fail> {
    assert_eq!(rt; found(rt.alloc(), SOUND)?, None);
    let most = vec![in rt.alloc(); b'\n'; MOST_BYTES]?;
    assert_eq!(rt; found(rt.alloc(), most.as_slice())?, None);
    let more = vec![in rt.alloc(); b'\n'; MOST_BYTES + 1]?;
    assert_eq!(rt; found(rt.alloc(), more.as_slice())?, Some((0, Fault::Size)));
    Ok(())
}
