// The decoder: the word is sorted by its top ten bits into a class, then where needed by its low six.
#![tactic(auto)]

ghost use Rattle.std.specs.Prelude.{◌≡◌};
ghost use Rattle.isa.specs.Decode.{decode};

use crate::fields::{four_of, source_of};
use crate::privileged::{
    block_of, ident, iox, irr, irw, masked_of, switch_of, tra_of, transfer_of, trr_of,
};
use crate::user::{
    add_argument, adding, bit_instruction, divide, jump, logic, memory, monitor, multiply,
    set_argument, shift_of, skip,
};
use isa::instruction::{ControlOp, Instruction, System, User};
use word_class::{Class, class_of};

mod fields;
mod privileged;
mod user;

// The instruction that a word stands for, by its class.
#[tactic(auto, using(word_class::proofs::Classes::by_class_law), unfolding(isa::specs::Decode::srb_of, isa::specs::Decode::lrb_of))]
pub fn decode(w: u16) -> Instruction
    ensures { result ≡ decode w }
{
    match class_of(w / 64) {
        Class::Memory(o) => memory(o, w),
        // 130000 JAP to 133400 JXN
        Class::ConditionalJump => jump(w),
        // The skips, of which bits 7 and 6 are zero, and between them EXR, RMPY, RDIV, LBYT, SBYT, MIX3, LDATX to
        // STDTX, IDENT.
        Class::Skip(r) => skip(r, w),
        Class::Exr => Instruction::Execute(source_of(w)),
        Class::Rmpy => multiply(w),
        Class::Rdiv => divide(w),
        Class::Lbyt => Instruction::Unprivileged(User::LoadByte),
        Class::Sbyt => Instruction::Unprivileged(User::StoreByte),
        Class::Mix3 => Instruction::Unprivileged(User::Mix3),
        Class::Transfer => transfer_of(w),
        Class::Ident => ident(w),
        // The register operations: 146000 is RADD, 146400 with AD1, 147000 with ADC, 147400 with both.
        Class::Logic(o) => logic(o, w),
        Class::RegisterAdd(c) => adding(c, w),
        Class::NoOperation => Instruction::Unprivileged(User::NoOperation),
        // TRA, TRR, MCL and MST of an internal register; 150400 to 150477 the switches, SEX, REX, IOXT,
        // EXAM and DEPO.
        Class::Tra => tra_of(w),
        Class::Trr => trr_of(w),
        Class::Mcl => masked_of(false, w),
        Class::Mst => masked_of(true, w),
        Class::Switch => switch_of(w),
        Class::Wait => Instruction::Privileged(System::Control(ControlOp::Wait)),
        Class::Srb => block_of(2, System::Srb(four_of(w)), w),
        Class::Lrb => block_of(0, System::Lrb(four_of(w)), w),
        Class::Mon => monitor(w),
        Class::Irw => irw(w),
        Class::Irr => irr(w),
        // 154000 SHT to 157600 SAD: the shifts.
        Class::Shift => shift_of(w),
        Class::Iox => iox(w),
        // SAB, SAA, SAT, SAX; AAB, AAA, AAT, AAX; 174000 BSET ZRO to 177600 BORA.
        Class::SetArgument => set_argument(w),
        Class::AddArgument => add_argument(w),
        Class::Bit => bit_instruction(w),
        Class::Illegal => Instruction::Illegal,
    }
}
