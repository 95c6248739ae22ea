use super::*;
use std::test::Fail;
use tm_base::{Ask, Op, Opcode, Reply};

/// Under a lock that it may not get, takes two values and passes each on, raised by 2 while it is below 3.
const PASS_ON: [Instruction; 10] = [
    Instruction::Call {
        object: 0,
        opcode: Opcode::TryLock,
        operand: Operand::Register(0),
    },
    Instruction::If {
        register: 0,
        comparison: Comparison::Equal,
        value: 1,
    },
    Instruction::Repeat { turns: 2 },
    Instruction::Call {
        object: 1,
        opcode: Opcode::Recv,
        operand: Operand::Register(7),
    },
    Instruction::While {
        register: 7,
        comparison: Comparison::Less,
        value: 3,
    },
    Instruction::Inc {
        register: 7,
        value: 2,
    },
    Instruction::Call {
        object: 2,
        opcode: Opcode::Send,
        operand: Operand::Register(7),
    },
    Instruction::End,
    Instruction::End,
    Instruction::End,
];

const fn sends(value: i64) -> Ask {
    Ask::Call {
        object: 2,
        op: Op::Send(value),
    }
}

const RECEIVES: Ask = Ask::Call {
    object: 1,
    op: Op::Recv,
};

#[test]
fn a_program_asks_by_its_registers(rt: HostRuntime) -> Result<(), Fail> {
    let mut program = Interpreter::make(rt.alloc(), &PASS_ON)?;
    let lines = [
        (
            Reply::Ok,
            Ask::Call {
                object: 0,
                op: Op::TryLock,
            },
        ),
        (Reply::Ok, RECEIVES),
        (Reply::Got(1), sends(3)),
        (Reply::Ok, RECEIVES),
        (Reply::Got(-1), sends(1)),
        (Reply::Ok, sends(3)),
        (Reply::Ok, Ask::Over),
    ];
    for (reply, ask) in lines {
        program.answer(reply);
        assert_eq!(rt; program.asked(), Some(ask));
    }
    Ok(())
}

#[test]
fn a_lock_that_is_held_leads_past_the_block(rt: HostRuntime) -> Result<(), Fail> {
    let mut program = Interpreter::make(rt.alloc(), &PASS_ON)?;
    program.answer(Reply::Ok);
    program.answer(Reply::Held);
    assert_eq!(rt; program.asked(), Some(Ask::Over));
    Ok(())
}

#[test]
fn a_stopped_program_asks_nothing(rt: HostRuntime) -> Result<(), Fail> {
    let mut program = Interpreter::make(rt.alloc(), &PASS_ON)?;
    program.answer(Reply::Ok);
    program.answer(Reply::Stopped);
    assert_eq!(rt; program.asked(), None);
    assert_eq!(rt; program.last(), Some(Reply::Stopped));
    Ok(())
}
