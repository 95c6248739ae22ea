/// What sort of object it is, and what it begins with. `own` is the thread that a thread object
/// stands for, from 1.
#[derive(Clone, Copy, Debug, PartialEq, Eq)]
pub enum Kind {
    Mutex,
    Sem { value: u32 },
    Hoare { conditions: u8 },
    Mesa { conditions: u8 },
    Barrier { parties: u32 },
    Rw,
    Sync,
    Async { capacity: u32 },
    Var { value: i64 },
    Thread { own: u32, held: bool },
}
