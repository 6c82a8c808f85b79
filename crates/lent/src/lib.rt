// Step and raise on a machine that the caller lends and finds updated. Each copies the record out, calls the form by
// value and stores back what that hands back; nothing is required of the caller, and a refused call leaves record,
// memory and page tables as they came.
#![tactic(auto)]

ghost use Rattle.std.specs.Prelude.{◌≡◌};
ghost use Rattle.isa.specs.Answers.{step_call, raise_call, step_numbers, step_told, answer_numbers, raise_told};
ghost use Rattle.lent.specs.Lent.{lent_step, lent_raise};

use isa::answer::Refusal;
use isa::machine::State;
use operations::raise::raise;
use operations::step::step;

// One step. Refusals 1 and 2.
pub fn step_lent(m: &mut State, mem: &mut [u16], tables: &mut [u16]) -> Result<u16, Refusal>
    ensures tables_after { lent_step result m.new mem.new tables.new
        ≡ step_call m.old mem.old tables.old }
    ensures result_value { step_numbers result ≡ step_told m.old mem.old tables.old }
{
    let r = step(*m, mem, tables);
    *m = r.state;
    r.answer
}

// A device's interrupt. Refusals 1, 2 and 3.
pub fn raise_lent(m: &mut State, level: u16, mem: &[u16], tables: &[u16]) -> Result<(), Refusal>
    ensures m_after { lent_raise result m.new
        ≡ raise_call m.old level mem.now tables.now }
    ensures result_value { answer_numbers result ≡ raise_told m.old level mem.now tables.now }
{
    let r = raise(*m, level, mem, tables);
    *m = r.state;
    r.answer
}
