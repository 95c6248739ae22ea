ghost use Rattle.std.specs.Prelude.{◌≡◌, ◌≢◌, MatchOption};
ghost use Rattle.tm_base.specs.declared.opcodes.Opcode.{Opcode as Code};
ghost use Rattle.tm_base.specs.Opcodes.{OpcodesComeBack, WordsAreDistinct, op_with, opcode_of, word_of};

use crate::operations::Op;

/// An operation without its operands.
#[derive(Clone, Copy, Debug, PartialEq, Eq)]
pub enum Opcode {
    Lock,
    TryLock,
    Unlock,
    P,
    TryP,
    V,
    Enter,
    Leave,
    Wait,
    Signal,
    Broadcast,
    Arrive,
    RLock,
    RUnlock,
    WLock,
    WUnlock,
    Send,
    Recv,
    Close,
    Read,
    Write,
    Add,
    Start,
    Join,
    Begin,
    End,
    Resume,
    Stop,
}

impl Opcode {
    /// The word that spells the operation.
    pub fn word(self) -> &'static [u8]
        ensures { result.now ≡ word_of self }
    {
        match self {
            Opcode::Lock => b"lock",
            Opcode::TryLock => b"trylock",
            Opcode::Unlock => b"unlock",
            Opcode::P => b"p",
            Opcode::TryP => b"tryp",
            Opcode::V => b"v",
            Opcode::Enter => b"enter",
            Opcode::Leave => b"leave",
            Opcode::Wait => b"wait",
            Opcode::Signal => b"signal",
            Opcode::Broadcast => b"broadcast",
            Opcode::Arrive => b"arrive",
            Opcode::RLock => b"rlock",
            Opcode::RUnlock => b"runlock",
            Opcode::WLock => b"wlock",
            Opcode::WUnlock => b"wunlock",
            Opcode::Send => b"send",
            Opcode::Recv => b"recv",
            Opcode::Close => b"close",
            Opcode::Read => b"read",
            Opcode::Write => b"write",
            Opcode::Add => b"add",
            Opcode::Start => b"start",
            Opcode::Join => b"join",
            Opcode::Begin => b"begin",
            Opcode::End => b"end",
            Opcode::Resume => b"resume",
            Opcode::Stop => b"stop",
        }
    }

    /// The operation that the word spells. `None` exactly where it spells none.
    pub fn of_word(word: &[u8]) -> Option<Opcode>
        ensures { MatchOption result ((c : Opcode) → word_of c ≢ word.now) (λ found. word_of found ≡ word.now) }
    {
        match word {
            b"lock" => Some(Opcode::Lock),
            b"trylock" => Some(Opcode::TryLock),
            b"unlock" => Some(Opcode::Unlock),
            b"p" => Some(Opcode::P),
            b"tryp" => Some(Opcode::TryP),
            b"v" => Some(Opcode::V),
            b"enter" => Some(Opcode::Enter),
            b"leave" => Some(Opcode::Leave),
            b"wait" => Some(Opcode::Wait),
            b"signal" => Some(Opcode::Signal),
            b"broadcast" => Some(Opcode::Broadcast),
            b"arrive" => Some(Opcode::Arrive),
            b"rlock" => Some(Opcode::RLock),
            b"runlock" => Some(Opcode::RUnlock),
            b"wlock" => Some(Opcode::WLock),
            b"wunlock" => Some(Opcode::WUnlock),
            b"send" => Some(Opcode::Send),
            b"recv" => Some(Opcode::Recv),
            b"close" => Some(Opcode::Close),
            b"read" => Some(Opcode::Read),
            b"write" => Some(Opcode::Write),
            b"add" => Some(Opcode::Add),
            b"start" => Some(Opcode::Start),
            b"join" => Some(Opcode::Join),
            b"begin" => Some(Opcode::Begin),
            b"end" => Some(Opcode::End),
            b"resume" => Some(Opcode::Resume),
            b"stop" => Some(Opcode::Stop),
            _ => None,
        }
    }

    /// The operation, with this condition where it has one, and with this value where it has one. An `end`
    /// isn't cut.
    pub fn with(self, condition: u8, value: i64) -> Op
        ensures { result ≡ op_with self condition value }
    {
        match self {
            Opcode::Lock => Op::Lock,
            Opcode::TryLock => Op::TryLock,
            Opcode::Unlock => Op::Unlock,
            Opcode::P => Op::P,
            Opcode::TryP => Op::TryP,
            Opcode::V => Op::V,
            Opcode::Enter => Op::Enter,
            Opcode::Leave => Op::Leave,
            Opcode::Wait => Op::Wait(condition),
            Opcode::Signal => Op::Signal(condition),
            Opcode::Broadcast => Op::Broadcast(condition),
            Opcode::Arrive => Op::Arrive,
            Opcode::RLock => Op::RLock,
            Opcode::RUnlock => Op::RUnlock,
            Opcode::WLock => Op::WLock,
            Opcode::WUnlock => Op::WUnlock,
            Opcode::Send => Op::Send(value),
            Opcode::Recv => Op::Recv,
            Opcode::Close => Op::Close,
            Opcode::Read => Op::Read,
            Opcode::Write => Op::Write(value),
            Opcode::Add => Op::Add(value),
            Opcode::Start => Op::Start,
            Opcode::Join => Op::Join,
            Opcode::Begin => Op::Begin,
            Opcode::End => Op::End { cut: false },
            Opcode::Resume => Op::Resume,
            Opcode::Stop => Op::Stop,
        }
    }
}

impl Op {
    /// The operation without its operands.
    pub fn opcode(self) -> Opcode
        ensures { result ≡ opcode_of self }
    {
        match self {
            Op::Lock => Opcode::Lock,
            Op::TryLock => Opcode::TryLock,
            Op::Unlock => Opcode::Unlock,
            Op::P => Opcode::P,
            Op::TryP => Opcode::TryP,
            Op::V => Opcode::V,
            Op::Enter => Opcode::Enter,
            Op::Leave => Opcode::Leave,
            Op::Wait(_) => Opcode::Wait,
            Op::Signal(_) => Opcode::Signal,
            Op::Broadcast(_) => Opcode::Broadcast,
            Op::Arrive => Opcode::Arrive,
            Op::RLock => Opcode::RLock,
            Op::RUnlock => Opcode::RUnlock,
            Op::WLock => Opcode::WLock,
            Op::WUnlock => Opcode::WUnlock,
            Op::Send(_) => Opcode::Send,
            Op::Recv => Opcode::Recv,
            Op::Close => Opcode::Close,
            Op::Read => Opcode::Read,
            Op::Write(_) => Opcode::Write,
            Op::Add(_) => Opcode::Add,
            Op::Start => Opcode::Start,
            Op::Join => Opcode::Join,
            Op::Begin => Opcode::Begin,
            Op::End { .. } => Opcode::End,
            Op::Resume => Opcode::Resume,
            Op::Stop => Opcode::Stop,
        }
    }
}

/// No two operations have one word, and what an opcode makes has that opcode.
pub fn words_spell_one_operation()
    ensures distinct { WordsAreDistinct }
    ensures back { OpcodesComeBack }
{}
