// The table of the classes: one for each value of the top ten bits. A comment stands wherever the class changes, with
// the code from which on.
ghost use Rattle.std.specs.Prelude.{◌≡◌, length};
ghost use Rattle.word_class.specs.Classes.{sorted_values, Sorts};

use crate::Class::{self, *};
use isa::instruction::CarryIn::{NoCarry, One, Previous};
use isa::instruction::LogicOp::{Rand, Rexo, Rora, Swap};
use isa::instruction::MemoryOp::*;
use isa::instruction::Relation::{Eql, Geq, Gre, Lss, Lst, Mgre, Mlst, Ueq};

// Short names, so that many entries stand on a line: document 002's, with AD1 and ADC of RADD, and X for each letter of
// JAP to JXN, SAB to SAX and AAB to AAX.
const STZ: Class = Memory(Stz);

const STA: Class = Memory(Sta);

const STT: Class = Memory(Stt);

const STX: Class = Memory(Stx);

const STD: Class = Memory(Std);

const LDD: Class = Memory(Ldd);

const STF: Class = Memory(Stf);

const LDF: Class = Memory(Ldf);

const MIN: Class = Memory(Min);

const LDA: Class = Memory(Lda);

const LDT: Class = Memory(Ldt);

const LDX: Class = Memory(Ldx);

const ADD: Class = Memory(Add);

const SUB: Class = Memory(Sub);

const AND: Class = Memory(And);

const ORA: Class = Memory(Ora);

const MPY: Class = Memory(Mpy);

const JMP: Class = Memory(Jmp);

const JXX: Class = ConditionalJump;

const JPL: Class = Memory(Jpl);

const SKP_EQL: Class = Skip(Eql);

const SKP_GEQ: Class = Skip(Geq);

const SKP_GRE: Class = Skip(Gre);

const SKP_MGRE: Class = Skip(Mgre);

const SKP_UEQ: Class = Skip(Ueq);

const SKP_LSS: Class = Skip(Lss);

const SKP_LST: Class = Skip(Lst);

const SKP_MLST: Class = Skip(Mlst);

const SWAP: Class = Logic(Swap);

const RAND: Class = Logic(Rand);

const REXO: Class = Logic(Rexo);

const RORA: Class = Logic(Rora);

const RADD: Class = RegisterAdd(NoCarry);

const RADD_AD1: Class = RegisterAdd(One);

const RADD_ADC: Class = RegisterAdd(Previous);

const RADD_BOTH: Class = NoOperation;

const SAX: Class = SetArgument;

const AAX: Class = AddArgument;

pub static CLASSES: [Class; 1024] = [
    // 000000 STZ
    STZ, STZ, STZ, STZ, STZ, STZ, STZ, STZ, STZ, STZ, STZ, STZ, STZ, STZ, STZ, STZ, STZ, STZ, STZ,
    STZ, STZ, STZ, STZ, STZ, STZ, STZ, STZ, STZ, STZ, STZ, STZ, STZ,
    // 004000 STA
    STA, STA, STA, STA, STA, STA, STA, STA, STA, STA, STA, STA, STA, STA, STA, STA, STA, STA, STA,
    STA, STA, STA, STA, STA, STA, STA, STA, STA, STA, STA, STA, STA,
    // 010000 STT
    STT, STT, STT, STT, STT, STT, STT, STT, STT, STT, STT, STT, STT, STT, STT, STT, STT, STT, STT,
    STT, STT, STT, STT, STT, STT, STT, STT, STT, STT, STT, STT, STT,
    // 014000 STX
    STX, STX, STX, STX, STX, STX, STX, STX, STX, STX, STX, STX, STX, STX, STX, STX, STX, STX, STX,
    STX, STX, STX, STX, STX, STX, STX, STX, STX, STX, STX, STX, STX,
    // 020000 STD
    STD, STD, STD, STD, STD, STD, STD, STD, STD, STD, STD, STD, STD, STD, STD, STD, STD, STD, STD,
    STD, STD, STD, STD, STD, STD, STD, STD, STD, STD, STD, STD, STD,
    // 024000 LDD
    LDD, LDD, LDD, LDD, LDD, LDD, LDD, LDD, LDD, LDD, LDD, LDD, LDD, LDD, LDD, LDD, LDD, LDD, LDD,
    LDD, LDD, LDD, LDD, LDD, LDD, LDD, LDD, LDD, LDD, LDD, LDD, LDD,
    // 030000 STF
    STF, STF, STF, STF, STF, STF, STF, STF, STF, STF, STF, STF, STF, STF, STF, STF, STF, STF, STF,
    STF, STF, STF, STF, STF, STF, STF, STF, STF, STF, STF, STF, STF,
    // 034000 LDF
    LDF, LDF, LDF, LDF, LDF, LDF, LDF, LDF, LDF, LDF, LDF, LDF, LDF, LDF, LDF, LDF, LDF, LDF, LDF,
    LDF, LDF, LDF, LDF, LDF, LDF, LDF, LDF, LDF, LDF, LDF, LDF, LDF,
    // 040000 MIN
    MIN, MIN, MIN, MIN, MIN, MIN, MIN, MIN, MIN, MIN, MIN, MIN, MIN, MIN, MIN, MIN, MIN, MIN, MIN,
    MIN, MIN, MIN, MIN, MIN, MIN, MIN, MIN, MIN, MIN, MIN, MIN, MIN,
    // 044000 LDA
    LDA, LDA, LDA, LDA, LDA, LDA, LDA, LDA, LDA, LDA, LDA, LDA, LDA, LDA, LDA, LDA, LDA, LDA, LDA,
    LDA, LDA, LDA, LDA, LDA, LDA, LDA, LDA, LDA, LDA, LDA, LDA, LDA,
    // 050000 LDT
    LDT, LDT, LDT, LDT, LDT, LDT, LDT, LDT, LDT, LDT, LDT, LDT, LDT, LDT, LDT, LDT, LDT, LDT, LDT,
    LDT, LDT, LDT, LDT, LDT, LDT, LDT, LDT, LDT, LDT, LDT, LDT, LDT,
    // 054000 LDX
    LDX, LDX, LDX, LDX, LDX, LDX, LDX, LDX, LDX, LDX, LDX, LDX, LDX, LDX, LDX, LDX, LDX, LDX, LDX,
    LDX, LDX, LDX, LDX, LDX, LDX, LDX, LDX, LDX, LDX, LDX, LDX, LDX,
    // 060000 ADD
    ADD, ADD, ADD, ADD, ADD, ADD, ADD, ADD, ADD, ADD, ADD, ADD, ADD, ADD, ADD, ADD, ADD, ADD, ADD,
    ADD, ADD, ADD, ADD, ADD, ADD, ADD, ADD, ADD, ADD, ADD, ADD, ADD,
    // 064000 SUB
    SUB, SUB, SUB, SUB, SUB, SUB, SUB, SUB, SUB, SUB, SUB, SUB, SUB, SUB, SUB, SUB, SUB, SUB, SUB,
    SUB, SUB, SUB, SUB, SUB, SUB, SUB, SUB, SUB, SUB, SUB, SUB, SUB,
    // 070000 AND
    AND, AND, AND, AND, AND, AND, AND, AND, AND, AND, AND, AND, AND, AND, AND, AND, AND, AND, AND,
    AND, AND, AND, AND, AND, AND, AND, AND, AND, AND, AND, AND, AND,
    // 074000 ORA
    ORA, ORA, ORA, ORA, ORA, ORA, ORA, ORA, ORA, ORA, ORA, ORA, ORA, ORA, ORA, ORA, ORA, ORA, ORA,
    ORA, ORA, ORA, ORA, ORA, ORA, ORA, ORA, ORA, ORA, ORA, ORA, ORA,
    // 100000 illegal
    Illegal, Illegal, Illegal, Illegal, Illegal, Illegal, Illegal, Illegal, Illegal, Illegal,
    Illegal, Illegal, Illegal, Illegal, Illegal, Illegal, Illegal, Illegal, Illegal, Illegal,
    Illegal, Illegal, Illegal, Illegal, Illegal, Illegal, Illegal, Illegal, Illegal, Illegal,
    Illegal, Illegal, Illegal, Illegal, Illegal, Illegal, Illegal, Illegal, Illegal, Illegal,
    Illegal, Illegal, Illegal, Illegal, Illegal, Illegal, Illegal, Illegal, Illegal, Illegal,
    Illegal, Illegal, Illegal, Illegal, Illegal, Illegal, Illegal, Illegal, Illegal, Illegal,
    Illegal, Illegal, Illegal, Illegal, Illegal, Illegal, Illegal, Illegal, Illegal, Illegal,
    Illegal, Illegal, Illegal, Illegal, Illegal, Illegal, Illegal, Illegal, Illegal, Illegal,
    Illegal, Illegal, Illegal, Illegal, Illegal, Illegal, Illegal, Illegal, Illegal, Illegal,
    Illegal, Illegal, Illegal, Illegal, Illegal, Illegal, Illegal, Illegal, Illegal, Illegal,
    Illegal, Illegal, Illegal, Illegal, Illegal, Illegal, Illegal, Illegal, Illegal, Illegal,
    Illegal, Illegal, Illegal, Illegal, Illegal, Illegal, Illegal, Illegal, Illegal, Illegal,
    Illegal, Illegal, Illegal, Illegal, Illegal, Illegal, Illegal, Illegal,
    // 120000 MPY
    MPY, MPY, MPY, MPY, MPY, MPY, MPY, MPY, MPY, MPY, MPY, MPY, MPY, MPY, MPY, MPY, MPY, MPY, MPY,
    MPY, MPY, MPY, MPY, MPY, MPY, MPY, MPY, MPY, MPY, MPY, MPY, MPY,
    // 124000 JMP
    JMP, JMP, JMP, JMP, JMP, JMP, JMP, JMP, JMP, JMP, JMP, JMP, JMP, JMP, JMP, JMP, JMP, JMP, JMP,
    JMP, JMP, JMP, JMP, JMP, JMP, JMP, JMP, JMP, JMP, JMP, JMP, JMP,
    // 130000 JAP to JXN
    JXX, JXX, JXX, JXX, JXX, JXX, JXX, JXX, JXX, JXX, JXX, JXX, JXX, JXX, JXX, JXX, JXX, JXX, JXX,
    JXX, JXX, JXX, JXX, JXX, JXX, JXX, JXX, JXX, JXX, JXX, JXX, JXX,
    // 134000 JPL
    JPL, JPL, JPL, JPL, JPL, JPL, JPL, JPL, JPL, JPL, JPL, JPL, JPL, JPL, JPL, JPL, JPL, JPL, JPL,
    JPL, JPL, JPL, JPL, JPL, JPL, JPL, JPL, JPL, JPL, JPL, JPL, JPL,
    // 140000 SKP EQL
    SKP_EQL,
    // 140100 illegal
    Illegal, Illegal, Illegal,
    // 140400 SKP GEQ
    SKP_GEQ,
    // 140500 illegal
    Illegal,
    // 140600 EXR
    Exr,
    // 140700 illegal
    Illegal,
    // 141000 SKP GRE
    SKP_GRE,
    // 141100 illegal
    Illegal,
    // 141200 RMPY
    Rmpy,
    // 141300 illegal
    Illegal,
    // 141400 SKP MGRE
    SKP_MGRE,
    // 141500 illegal
    Illegal,
    // 141600 RDIV
    Rdiv,
    // 141700 illegal
    Illegal,
    // 142000 SKP UEQ
    SKP_UEQ,
    // 142100 illegal
    Illegal,
    // 142200 LBYT
    Lbyt,
    // 142300 illegal
    Illegal,
    // 142400 SKP LSS
    SKP_LSS,
    // 142500 illegal
    Illegal,
    // 142600 SBYT
    Sbyt,
    // 142700 illegal
    Illegal,
    // 143000 SKP LST
    SKP_LST,
    // 143100 illegal
    Illegal,
    // 143200 MIX3
    Mix3,
    // 143300 LDATX to 143376 STDTX
    Transfer,
    // 143400 SKP MLST
    SKP_MLST,
    // 143500 illegal
    Illegal,
    // 143600 IDENT
    Ident,
    // 143700 illegal
    Illegal,
    // 144000 SWAP
    SWAP, SWAP, SWAP, SWAP,
    // 144400 RAND
    RAND, RAND, RAND, RAND,
    // 145000 REXO
    REXO, REXO, REXO, REXO,
    // 145400 RORA
    RORA, RORA, RORA, RORA,
    // 146000 RADD
    RADD, RADD, RADD, RADD,
    // 146400 RADD AD1
    RADD_AD1, RADD_AD1, RADD_AD1, RADD_AD1,
    // 147000 RADD ADC
    RADD_ADC, RADD_ADC, RADD_ADC, RADD_ADC,
    // 147400 RADD AD1 ADC
    RADD_BOTH, RADD_BOTH, RADD_BOTH, RADD_BOTH,
    // 150000 TRA
    Tra,
    // 150100 TRR
    Trr,
    // 150200 MCL
    Mcl,
    // 150300 MST
    Mst,
    // 150400 the switches, IOXT, EXAM, DEPO
    Switch,
    // 150500 illegal
    Illegal, Illegal, Illegal,
    // 151000 WAIT
    Wait, Wait, Wait, Wait,
    // 151400 illegal
    Illegal, Illegal, Illegal, Illegal, Illegal, Illegal, Illegal, Illegal,
    // 152400 SRB
    Srb, Srb,
    // 152600 LRB
    Lrb, Lrb,
    // 153000 MON
    Mon, Mon, Mon, Mon,
    // 153400 IRW
    Irw, Irw,
    // 153600 IRR
    Irr, Irr,
    // 154000 SHT to SAD
    Shift, Shift, Shift, Shift, Shift, Shift, Shift, Shift, Shift, Shift, Shift, Shift, Shift,
    Shift, Shift, Shift, Shift, Shift, Shift, Shift, Shift, Shift, Shift, Shift, Shift, Shift,
    Shift, Shift, Shift, Shift, Shift, Shift,
    // 160000 illegal
    Illegal, Illegal, Illegal, Illegal, Illegal, Illegal, Illegal, Illegal, Illegal, Illegal,
    Illegal, Illegal, Illegal, Illegal, Illegal, Illegal, Illegal, Illegal, Illegal, Illegal,
    Illegal, Illegal, Illegal, Illegal, Illegal, Illegal, Illegal, Illegal, Illegal, Illegal,
    Illegal, Illegal,
    // 164000 IOX
    Iox, Iox, Iox, Iox, Iox, Iox, Iox, Iox, Iox, Iox, Iox, Iox, Iox, Iox, Iox, Iox, Iox, Iox, Iox,
    Iox, Iox, Iox, Iox, Iox, Iox, Iox, Iox, Iox, Iox, Iox, Iox, Iox,
    // 170000 SAB to SAX
    SAX, SAX, SAX, SAX, SAX, SAX, SAX, SAX, SAX, SAX, SAX, SAX, SAX, SAX, SAX, SAX,
    // 172000 AAB to AAX
    AAX, AAX, AAX, AAX, AAX, AAX, AAX, AAX, AAX, AAX, AAX, AAX, AAX, AAX, AAX, AAX,
    // 174000 BSET to BORA
    Bit, Bit, Bit, Bit, Bit, Bit, Bit, Bit, Bit, Bit, Bit, Bit, Bit, Bit, Bit, Bit, Bit, Bit, Bit,
    Bit, Bit, Bit, Bit, Bit, Bit, Bit, Bit, Bit, Bit, Bit, Bit, Bit, // 177700
];

// An entry for each place, and each the class of its place.
pub fn table() -> &'static [Class; 1024]
    ensures long { length result.now ≡ sorted_values }
    ensures sorts { Sorts result.now }
{
    &CLASSES
}
