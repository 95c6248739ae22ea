/// Where a thread is in its life. `main` only stops objects; a program thread hasn't begun, is free
/// to go on, waits at an object until it resumes there, or has ended, by itself or cut.
#[derive(Clone, Copy, Debug, PartialEq, Eq)]
pub enum Phase {
    Main,
    NotBegun,
    Free,
    Waits(u32),
    Ended { cut: bool },
}
