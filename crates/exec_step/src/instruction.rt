// The word that was fetched: decoded, and executed as far as the level's registers, memory and tables go.
ghost use Rattle.std.specs.Prelude.{◌≡◌, ◌<◌, true};
ghost use Rattle.isa.specs.Decode.{decode};
ghost use Rattle.isa.specs.Machine.{reg};
ghost use Rattle.isa.specs.declared.machine.Register.TheVariants.{Sts};
ghost use Rattle.paging.specs.Levels.{by_flags};
ghost use Rattle.event.specs.Events.{tells_fault};
ghost use Rattle.exec_step.specs.Steps.{InstructionStage, FineAlone, ExecutedWord, followed};

use event::{Ending, Event, with_event};
use exec_memory::user::user_stage;
use exec_register::operand::operand;
use isa::access::Rights;
use isa::instruction::Instruction;
use isa::machine::{File, PageTables};

// An instruction after EXR was followed: EXR itself is illegal here. By the rights r with PTM 1.
#[tactic(auto, using(crate::proofs::Steps::event_left, crate::proofs::Steps::privileged_part), unfolding(isa::specs::Step::instruction_stage, event::specs::Events::event_part, event::specs::Events::by_privilege))]
fn instruction_stage(
    f: File,
    at: u16,
    r: Rights,
    mem: &mut [u16],
    tables: &mut PageTables,
    i: Instruction,
) -> Ending
    requires normal_bound { (r.normal < 4) × (r.alternate < 4) }
    ensures instruction_stage { InstructionStage f at (by_flags r (reg f Sts)) i mem.old tables.old result
        mem.new tables.new }
    ensures fine_alone { FineAlone i result }
    ensures told { tells_fault result.event ≡ true }
{
    match i {
        Instruction::Unprivileged(u) => user_stage(f, at, r, mem, tables, u),
        Instruction::Privileged(q) => with_event(f, Some(Event::Privileged(q))),
        Instruction::Execute(_) => with_event(f, Some(Event::Illegal)),
        Instruction::Monitor(n) => with_event(f, Some(Event::Monitor(n))),
        Instruction::Illegal => with_event(f, Some(Event::Illegal)),
    }
}

// The instruction that the word w stands for; EXR's is that of its register's word, 0 for register 0. A loop of at most
// two rounds: so the decoder is called at one place, and a word that is no EXR is not tested for it.
fn followed(f: File, w: u16) -> Instruction
    ensures { result ≡ decode (followed f w) }
{
    let mut word = w;
    let mut first = true;
    loop {
        match decode::decode(word) {
            Instruction::Execute(s) if first => {
                word = operand(f, s);
                first = false;
            }
            i => return i,
        }
    }
}

// The word w, fetched from the address `at`, by the rights r with PTM 1; the file has P one further.
pub fn executed_word(
    f: File,
    at: u16,
    r: Rights,
    mem: &mut [u16],
    tables: &mut PageTables,
    w: u16,
) -> Ending
    requires normal_bound { (r.normal < 4) × (r.alternate < 4) }
    ensures executed_word { ExecutedWord f at r w mem.old tables.old result mem.new
        tables.new }
    ensures fine_alone { FineAlone (decode (followed f w)) result }
    ensures told { tells_fault result.event ≡ true }
{
    instruction_stage(f, at, r, mem, tables, followed(f, w))
}
