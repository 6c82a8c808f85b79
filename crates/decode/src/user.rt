// Unprivileged instructions and MON, with their fields: each in one line, as the definition of its row has it.
ghost use Rattle.std.specs.Prelude.{◌≡◌};
ghost use Rattle.isa.specs.declared.instruction.User.TheVariants.{Jump, Shift, SetArgument, AddArgument};
ghost use Rattle.isa.specs.declared.instruction.User.TheVariants.{Bit, Multiply, Divide};
ghost use Rattle.isa.specs.declared.instruction.Instruction.TheVariants.{Unprivileged, Monitor};
ghost use Rattle.isa.specs.Decode.{memory, skip, logic, adding, shift_of};
ghost use Rattle.isa.specs.Decode.{condition_of, displacement_of, source_of, destination_of, argument_of};
ghost use Rattle.isa.specs.Decode.{bit_op_of, four_of, shiftable_of, kind_of, count_of};

use crate::fields::{
    argument_of, bit_op_of, cld_of, cm1_of, condition_of, destination_of, four_of, kind_of,
    mode_of, shiftable_of, source_of,
};
use isa::instruction::{CarryIn, Instruction, LogicOp, MemoryOp, Relation, User};

// A memory operation, with its address mode and displacement.
pub fn memory(o: MemoryOp, w: u16) -> Instruction
    ensures { result ≡ memory o w }
{
    Instruction::Unprivileged(User::Memory(o, mode_of(w), arithmetic::signed::displacement(w)))
}

// A conditional jump.
pub fn jump(w: u16) -> Instruction
    ensures { result ≡ Unprivileged (Jump (condition_of w) (displacement_of w)) }
{
    Instruction::Unprivileged(User::Jump(condition_of(w), arithmetic::signed::displacement(w)))
}

// A skip, by its relation.
pub fn skip(r: Relation, w: u16) -> Instruction
    ensures { result ≡ skip r w }
{
    Instruction::Unprivileged(User::Skip(r, source_of(w), destination_of(w)))
}

// SWAP, RAND, REXO, RORA.
pub fn logic(o: LogicOp, w: u16) -> Instruction
    ensures { result ≡ logic o w }
{
    Instruction::Unprivileged(User::Logic(o, cld_of(w), cm1_of(w), source_of(w), destination_of(w)))
}

// RADD, by what it adds beside its operands.
pub fn adding(c: CarryIn, w: u16) -> Instruction
    ensures { result ≡ adding c w }
{
    Instruction::Unprivileged(User::RegisterAdd(
        c,
        cld_of(w),
        cm1_of(w),
        source_of(w),
        destination_of(w),
    ))
}

// RMPY.
pub fn multiply(w: u16) -> Instruction
    ensures { result ≡ Unprivileged (Multiply (source_of w) (destination_of w)) }
{
    Instruction::Unprivileged(User::Multiply(source_of(w), destination_of(w)))
}

// RDIV.
pub fn divide(w: u16) -> Instruction
    ensures { result ≡ Unprivileged (Divide (source_of w)) }
{
    Instruction::Unprivileged(User::Divide(source_of(w)))
}

// A shift, by its register, kind and count.
fn shift(w: u16) -> Instruction
    ensures { result ≡ Unprivileged (Shift (shiftable_of w) (kind_of w) (count_of w)) }
{
    Instruction::Unprivileged(User::Shift(
        shiftable_of(w),
        kind_of(w),
        arithmetic::signed::count(w),
    ))
}

// A shift word with bit 6 set is illegal.
#[tactic(auto, unfolding(isa::specs::Decode::shift_of))]
pub fn shift_of(w: u16) -> Instruction
    ensures { result ≡ shift_of w }
{
    if w / 64 % 2 == 0 {
        shift(w)
    } else {
        Instruction::Illegal
    }
}

// SAB, SAA, SAT, SAX.
pub fn set_argument(w: u16) -> Instruction
    ensures { result ≡ Unprivileged (SetArgument (argument_of w) (displacement_of w)) }
{
    Instruction::Unprivileged(User::SetArgument(
        argument_of(w),
        arithmetic::signed::displacement(w),
    ))
}

// AAB, AAA, AAT, AAX.
pub fn add_argument(w: u16) -> Instruction
    ensures { result ≡ Unprivileged (AddArgument (argument_of w) (displacement_of w)) }
{
    Instruction::Unprivileged(User::AddArgument(
        argument_of(w),
        arithmetic::signed::displacement(w),
    ))
}

// MON, by its number.
pub fn monitor(w: u16) -> Instruction
    ensures { result ≡ Monitor (displacement_of w) }
{
    Instruction::Monitor(arithmetic::signed::displacement(w))
}

// A bit instruction.
pub fn bit_instruction(w: u16) -> Instruction
    ensures { result ≡ Unprivileged (Bit (bit_op_of w) (four_of w) (destination_of w)) }
{
    Instruction::Unprivileged(User::Bit(bit_op_of(w), four_of(w), destination_of(w)))
}
