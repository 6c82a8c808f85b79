// The unprivileged instructions that make no access.
ghost use Rattle.std.specs.Prelude.{◌≡◌};
ghost use Rattle.event.specs.Events.{ending_of};
ghost use Rattle.exec_register.specs.Completion.{register_completion};

use crate::{bit, calculation, jump, operand, shift};
use arithmetic::signed::word_of;
use event::{Ending, fine};
use isa::instruction::User;
use isa::machine::File;

// The instruction u at the address `at`, in the file f, of which P is one further. One that makes accesses changes
// nothing here.
pub fn complete(u: User, f: File, at: u16) -> Ending
    ensures { result ≡ ending_of (register_completion u f at) }
{
    match u {
        User::Memory(_, _, _) => fine(f),
        User::Jump(o, d) => fine(jump::jumped(o, at.wrapping_add(word_of(d)), f)),
        User::Skip(r, s, d) => fine(operand::skipped(f, r, s, d)),
        User::Logic(o, cld, cm1, s, d) => {
            let x = operand::source_operand(f, cm1, s);
            fine(operand::combined(o, f, x, operand::destination_operand(f, cld, d), s, d))
        }
        User::RegisterAdd(c, cld, cm1, s, d) => {
            let y = operand::destination_operand(f, cld, d);
            let x = operand::source_operand(f, cm1, s);
            fine(operand::added(f, d, y, x, operand::carry_in(c, f)))
        }
        User::NoOperation => fine(f),
        User::Shift(t, k, n) => fine(shift::shifted(f, t, k, n)),
        User::SetArgument(r, n) => fine(calculation::set_argument(f, r, n)),
        User::AddArgument(r, n) => fine(calculation::add_argument(f, r, n)),
        User::Bit(o, n, r) => fine(bit::bit_done(o, f, n, r)),
        User::LoadByte => fine(f),
        User::StoreByte => fine(f),
        User::Mix3 => fine(calculation::mixed(f)),
        User::Multiply(s, d) => fine(calculation::register_product(f, s, d)),
        User::Divide(s) => calculation::divided(f, operand::operand(f, s)),
    }
}
