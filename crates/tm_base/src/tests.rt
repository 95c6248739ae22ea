ghost use Rattle.std.specs.Prelude.{◌≡◌};

use super::*;
use std::test::Fail;

const SEM: Kind = Kind::Sem { value: 0 };

const HOARE: Kind = Kind::Hoare { conditions: 1 };

const MESA: Kind = Kind::Mesa { conditions: 1 };

const BARRIER: Kind = Kind::Barrier { parties: 2 };

const ASYNC: Kind = Kind::Async { capacity: 1 };

const VAR: Kind = Kind::Var { value: -1 };

const THREAD: Kind = Kind::Thread { own: 1, held: true };

#[test]
fn each_kind_has_its_own_operations(rt: HostRuntime) {
    for (op, kind, fits) in [
        (Op::TryLock, Kind::Mutex, true),
        (Op::TryP, Kind::Mutex, false),
        (Op::V, SEM, true),
        (Op::Unlock, SEM, false),
        (Op::Arrive, BARRIER, true),
        (Op::Arrive, SEM, false),
        (Op::WUnlock, Kind::Rw, true),
        (Op::Lock, Kind::Rw, false),
        (Op::Send(7), Kind::Sync, true),
        (Op::Close, ASYNC, true),
        (Op::Recv, VAR, false),
        (Op::Add(-1), VAR, true),
        (Op::Join, THREAD, true),
        (Op::End { cut: true }, THREAD, true),
        (Op::Read, THREAD, false),
    ] {
        assert_eq!(rt; op.fits(kind), fits, "{op:?} at {kind:?}");
    }
}

#[test]
fn conditions_count_from_0(rt: HostRuntime) {
    for (op, kind, fits) in [
        (Op::Enter, HOARE, true),
        (Op::Leave, MESA, true),
        (Op::Wait(0), HOARE, true),
        (Op::Wait(1), HOARE, false),
        (Op::Signal(0), MESA, true),
        (Op::Signal(1), MESA, false),
        (Op::Broadcast(0), MESA, true),
        (Op::Broadcast(1), MESA, false),
        (Op::Broadcast(0), HOARE, false),
        (Op::Wait(0), Kind::Hoare { conditions: 0 }, false),
        (Op::Signal(0), Kind::Mutex, false),
    ] {
        assert_eq!(rt; op.fits(kind), fits, "{op:?} at {kind:?}");
    }
}

#[test]
fn every_kind_has_resume_and_stop(rt: HostRuntime) {
    for kind in [
        Kind::Mutex,
        SEM,
        HOARE,
        MESA,
        BARRIER,
        Kind::Rw,
        Kind::Sync,
        ASYNC,
        VAR,
        THREAD,
    ] {
        assert!(rt; Op::Resume.fits(kind), "{kind:?}");
        assert!(rt; Op::Stop.fits(kind), "{kind:?}");
    }
}

#[test]
fn names_give_their_bytes_back(rt: HostRuntime) -> Result<(), Fail> {
    for bytes in ["a", "A1_", "abcdefghijklmnop"] {
        let name = Name::make(bytes.as_bytes()).ok_or("refused")?;
        assert_eq!(rt; name.bytes(), bytes.as_bytes());
    }
    for bytes in ["", "1a", "_a", "abcdefghijklmnopq", "a-b", "a b"] {
        assert!(rt; Name::make(bytes.as_bytes()).is_none(), "{bytes}");
    }
    assert!(rt; Name::make(&[97, 200]).is_none(), "a byte that is no ASCII");
    Ok(())
}

#[test]
fn equal_names_have_equal_bytes(rt: HostRuntime) -> Result<(), Fail> {
    let name = Name::make(b"lock").ok_or("refused")?;
    for (bytes, equal) in [
        ("lock", true),
        ("loc", false),
        ("lock_", false),
        ("Lock", false),
    ] {
        let other = Name::make(bytes.as_bytes()).ok_or("refused")?;
        assert_eq!(rt; name == other, equal, "{bytes}");
    }
    Ok(())
}

/// The entry of thread 3 at this place, on object 5.
fn entry(place: u64, stamp: u64, op: Op, reply: Reply) -> Entry
    ensures thread { result.thread ≡ 3 }
    ensures place { result.place ≡ place }
{
    Entry {
        thread: 3,
        place,
        object: 5,
        at: place,
        stamp,
        op,
        reply,
    }
}

#[test]
fn a_ticket_waits_until_its_call_is_resumed(rt: HostRuntime) {
    let mut ticket = Ticket::make(3);
    assert_eq!(rt; ticket.thread(), 3);
    assert_eq!(rt; ticket.next(), 1);
    assert_eq!(rt; ticket.clock(), 0);
    assert_eq!(rt; ticket.waits(), None);

    ticket.advance(&entry(1, 4, Op::Lock, Reply::Wait));
    assert_eq!(rt; ticket.next(), 2);
    assert_eq!(rt; ticket.clock(), 4);
    assert_eq!(rt; ticket.waits(), Some(5));

    ticket.advance(&entry(2, 9, Op::Resume, Reply::Ok));
    assert_eq!(rt; ticket.thread(), 3);
    assert_eq!(rt; ticket.next(), 3);
    assert_eq!(rt; ticket.clock(), 9);
    assert_eq!(rt; ticket.waits(), None);
}

#[test]
fn bytes_are_pushed_and_popped_at_the_end(rt: HostRuntime) -> Result<(), Fail> {
    let mut bytes = Bytes::make(rt.alloc());
    assert!(rt; bytes.is_empty());
    assert_eq!(rt; bytes.pop(), None);
    bytes.push(7)?;
    bytes.push(8)?;
    assert_eq!(rt; bytes.as_slice(), [7, 8].as_slice());
    assert_eq!(rt; bytes.len(), 2);
    assert!(rt; !bytes.is_empty());
    assert_eq!(rt; bytes.pop(), Some(8));

    let bytes = Bytes::from_vec(bytes.into_vec());
    assert_eq!(rt; bytes.as_slice(), [7].as_slice());
    Ok(())
}

#[test]
fn entries_are_pushed_and_popped(rt: HostRuntime) -> Result<(), Fail> {
    let mut entries = Entries::make(rt.alloc());
    let one = entry(1, 1, Op::Stop, Reply::Ok);
    entries.push(one)?;
    assert_eq!(rt; entries.as_slice(), [one].as_slice());
    assert_eq!(rt; entries.pop(), Some(one));
    assert!(rt; entries.is_empty());
    Ok(())
}
