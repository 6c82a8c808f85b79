// The class of an instruction word: which instruction, or which kind of them, its top ten bits stand for.
#![tactic(auto)]

ghost use Rattle.std.specs.Prelude.{◌≡◌, ◌<◌};
ghost use Rattle.word_class.specs.Classes.{class_of, sorted_values};

use crate::Class::*;
use crate::table::table;
use isa::instruction::CarryIn::{self, NoCarry, One, Previous};
use isa::instruction::LogicOp::{self, Rand, Rexo, Rora, Swap};
use isa::instruction::MemoryOp::{self, *};
use isa::instruction::Relation::{self, Eql, Geq, Gre, Lss, Lst, Mgre, Mlst, Ueq};

pub mod table;

// What a word of the class stands for, but for its fields; a class of several codes has the one that tells them apart.
// Illegal is a class as the others are: the decoder makes an instruction of it.
#[derive(Clone, Copy)]
pub enum Class {
    Memory(MemoryOp),
    ConditionalJump,
    Skip(Relation),
    Exr,
    Rmpy,
    Rdiv,
    Lbyt,
    Sbyt,
    Mix3,
    Transfer,
    Ident,
    Logic(LogicOp),
    RegisterAdd(CarryIn),
    NoOperation,
    Tra,
    Trr,
    Mcl,
    Mst,
    Switch,
    Wait,
    Srb,
    Lrb,
    Mon,
    Irw,
    Irr,
    Shift,
    Iox,
    SetArgument,
    AddArgument,
    Bit,
    Illegal,
}

// The class by a decision over ranges: the table and it are proved to be one definition, and no program goes by it. The
// numbers are document 002's codes without their last two digits.
#[tactic(auto, unfolding(crate::specs::Classes::class_of, isa::specs::Decode::by_code))]
pub fn decided(n: u16) -> Class
    requires { n < sorted_values }
    ensures { result ≡ class_of n }
{
    match n {
        // 000000 STZ, STA, STT, STX, STD, LDD, STF, LDF, MIN, LDA, LDT, LDX, ADD, SUB, AND, 074000 ORA
        0o0000..=0o0037 => Memory(Stz),
        0o0040..=0o0077 => Memory(Sta),
        0o0100..=0o0137 => Memory(Stt),
        0o0140..=0o0177 => Memory(Stx),
        0o0200..=0o0237 => Memory(Std),
        0o0240..=0o0277 => Memory(Ldd),
        0o0300..=0o0337 => Memory(Stf),
        0o0340..=0o0377 => Memory(Ldf),
        0o0400..=0o0437 => Memory(Min),
        0o0440..=0o0477 => Memory(Lda),
        0o0500..=0o0537 => Memory(Ldt),
        0o0540..=0o0577 => Memory(Ldx),
        0o0600..=0o0637 => Memory(Add),
        0o0640..=0o0677 => Memory(Sub),
        0o0700..=0o0737 => Memory(And),
        0o0740..=0o0777 => Memory(Ora),
        // MPY, JMP, 130000 JAP to 133400 JXN, JPL
        0o1200..=0o1237 => Memory(Mpy),
        0o1240..=0o1277 => Memory(Jmp),
        0o1300..=0o1337 => ConditionalJump,
        0o1340..=0o1377 => Memory(Jpl),
        // SKP EQL, GEQ, EXR, GRE, RMPY, MGRE, RDIV, UEQ, LBYT, LSS, SBYT, LST, MIX3, LDATX to STDTX,
        // MLST, IDENT
        0o1400 => Skip(Eql),
        0o1404 => Skip(Geq),
        0o1406 => Exr,
        0o1410 => Skip(Gre),
        0o1412 => Rmpy,
        0o1414 => Skip(Mgre),
        0o1416 => Rdiv,
        0o1420 => Skip(Ueq),
        0o1422 => Lbyt,
        0o1424 => Skip(Lss),
        0o1426 => Sbyt,
        0o1430 => Skip(Lst),
        0o1432 => Mix3,
        0o1433 => Transfer,
        0o1434 => Skip(Mlst),
        0o1436 => Ident,
        // SWAP, RAND, REXO, RORA; RADD, with AD1, with ADC, with both
        0o1440..=0o1443 => Logic(Swap),
        0o1444..=0o1447 => Logic(Rand),
        0o1450..=0o1453 => Logic(Rexo),
        0o1454..=0o1457 => Logic(Rora),
        0o1460..=0o1463 => RegisterAdd(NoCarry),
        0o1464..=0o1467 => RegisterAdd(One),
        0o1470..=0o1473 => RegisterAdd(Previous),
        0o1474..=0o1477 => NoOperation,
        // TRA, TRR, MCL, MST; 150400 to 150477 the switches, SEX, REX, IOXT, EXAM and DEPO
        0o1500 => Tra,
        0o1501 => Trr,
        0o1502 => Mcl,
        0o1503 => Mst,
        0o1504 => Switch,
        // WAIT, SRB, LRB, MON, IRW, IRR
        0o1510..=0o1513 => Wait,
        0o1524..=0o1525 => Srb,
        0o1526..=0o1527 => Lrb,
        0o1530..=0o1533 => Mon,
        0o1534..=0o1535 => Irw,
        0o1536..=0o1537 => Irr,
        // 154000 SHT to 157600 SAD; IOX
        0o1540..=0o1577 => Shift,
        0o1640..=0o1677 => Iox,
        // SAB to SAX; AAB to AAX; 174000 BSET ZRO to 177600 BORA
        0o1700..=0o1717 => SetArgument,
        0o1720..=0o1737 => AddArgument,
        0o1740..=0o1777 => Bit,
        // every other code is illegal
        _ => Illegal,
    }
}

// The class by the table.
pub fn class_of(n: u16) -> Class
    requires { n < sorted_values }
    ensures { result ≡ class_of n }
{
    table()[n as usize]
}
