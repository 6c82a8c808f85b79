// What an instruction asks for at its effective address.
ghost use Rattle.std.specs.Prelude.{◌≡◌};
ghost use Rattle.exec_address.specs.Requests.{request_of};

use isa::instruction::MemoryOp;
use isa::machine::{File, Register};

// What is made of one word read: a register takes it, A its sum, difference, AND, OR or product with it, or A one byte
// of it.
#[derive(Clone, Copy)]
pub enum Reading {
    LoadA,
    LoadT,
    LoadX,
    Add,
    Subtract,
    And,
    Or,
    Multiply,
    Byte,
}

// What a word is changed to: one more, or A's lower byte put into it.
#[derive(Clone, Copy)]
pub enum Change {
    Increment,
    PutByte,
}

// A jump, or one that leaves P in L; a word to read; a word to write; two or three words, to write if so told, else to
// read; a word to read and then to write.
#[derive(Clone, Copy)]
pub enum Request {
    Jump,
    Link,
    Read(Reading),
    Write(u16),
    Several(bool, u16),
    Update(Change),
}

pub fn request_of(o: MemoryOp, f: File) -> Request
    ensures { result ≡ request_of o f }
{
    match o {
        MemoryOp::Stz => Request::Write(0),
        MemoryOp::Sta => Request::Write(f.get(Register::A)),
        MemoryOp::Stt => Request::Write(f.get(Register::T)),
        MemoryOp::Stx => Request::Write(f.get(Register::X)),
        MemoryOp::Std => Request::Several(true, 2),
        MemoryOp::Ldd => Request::Several(false, 2),
        MemoryOp::Stf => Request::Several(true, 3),
        MemoryOp::Ldf => Request::Several(false, 3),
        MemoryOp::Min => Request::Update(Change::Increment),
        MemoryOp::Lda => Request::Read(Reading::LoadA),
        MemoryOp::Ldt => Request::Read(Reading::LoadT),
        MemoryOp::Ldx => Request::Read(Reading::LoadX),
        MemoryOp::Add => Request::Read(Reading::Add),
        MemoryOp::Sub => Request::Read(Reading::Subtract),
        MemoryOp::And => Request::Read(Reading::And),
        MemoryOp::Ora => Request::Read(Reading::Or),
        MemoryOp::Mpy => Request::Read(Reading::Multiply),
        MemoryOp::Jmp => Request::Jump,
        MemoryOp::Jpl => Request::Link,
    }
}
