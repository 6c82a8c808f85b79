// What an event makes of the running level: interrupts, and the privileged instructions.
#![tactic(auto)]

ghost use Rattle.isa.specs.Machine.{level_count};
ghost use Rattle.std.specs.Prelude.{◌≡◌, List, ℕ, ◌+◌, ◌^◌, ◌<◌};
ghost use Rattle.isa.specs.Step.{counted, faulted, failed, trapped, part, examined, deposited, system_stage};
ghost use Rattle.isa.specs.Step.{physical_address, transfer_stage};
ghost use Rattle.isa.specs.Machine.{reg};
ghost use Rattle.isa.specs.declared.machine.Register.TheVariants.{T};
ghost use Rattle.event.specs.Events.{event_part};
ghost use Rattle.trap.specs.Parts.{near_part, event_stage};

use control::instruction::controlled;
use control::interrupt::gives;
use devices::event::{DeviceEvent, act};
use event::Event;
use exec_physical::{transfer, words_of};
use isa::access::{AccessKind, Fault};
use isa::answer::{Far, Near};
use isa::constant::{
    INTERRUPT_ERROR, INTERRUPT_ILLEGAL, INTERRUPT_IOX, INTERRUPT_MON, INTERRUPT_PRIVILEGED,
    WORD_RANGE,
};
use isa::instruction::{System, Transfer};
use isa::machine::{Control, Core, PageTables, Register};
use paging::place::{fault_of, first_status, held_after, pgs_after, store_at, word_at};
use paging::translation::physical;

// Whatever memory and tables hold.
fn left(c: Core, gave: u16, far: Option<Far>) -> Near
    ensures { (m t : List ℕ) → near_part result m t ≡ part c gave far m t }
{
    Near {
        core: c,
        gave,
        far,
        references: 0,
    }
}

// The same after n references.
fn counted(n: u32, r: Near) -> Near
    requires { n + r.references < 2 ^ 32 }
    ensures { (m t : List ℕ) → near_part result m t ≡ counted n (near_part r m t) }
{
    Near {
        references: n + r.references,
        ..r
    }
}

// An access: 2 and 3 set PGS and hold it, unless it is held; one that passed changes neither.
#[tactic(auto, unfolding(isa::specs::Step::faulted))]
pub fn faulted(x: Option<Fault>, c: Core) -> Core
    ensures { result ≡ faulted x c }
{
    let mut k = c.control;
    k.pgs = first_status(k.held, k.pgs, pgs_after(k.pgs, x));
    k.held = held_after(k.held, x);
    gives(fault_of(x), c.with_control(k))
}

fn failed(c: Core, x: Option<Fault>) -> Near
    ensures { (m t : List ℕ) → near_part result m t ≡ failed c x m t }
{
    left(faulted(x, c), fault_of(x), None)
}

fn trapped(n: u16, c: Core) -> Near
    requires { n < 16 }
    ensures { (m t : List ℕ) → near_part result m t ≡ trapped n c m t }
{
    left(gives(n, c), n, None)
}

// What a word is below, as a size.
const RANGE: usize = WORD_RANGE as usize;

// EXAM and DEPO: T from and to the physical address A * 65,536 + D.
fn physical_address(c: Core) -> usize
    ensures { result ≡ physical_address c.file }
{
    c.file.get(Register::A) as usize * RANGE + c.file.get(Register::D) as usize
}

fn examined(c: Core, mem: &[u16], tables: &PageTables) -> Near
    ensures { (t : List ℕ) → near_part result mem.now t ≡ examined c mem.now t }
{
    match physical(mem.len(), AccessKind::Read, physical_address(c)) {
        Ok(from) => {
            let f = c.file.with(Register::T, word_at(mem, tables, Some(from)));
            counted(1, left(c.with_file(f), 0, None))
        }
        Err(e) => counted(1, failed(c, Some(e))),
    }
}

fn deposited(c: Core, mem: &mut [u16], tables: &mut PageTables) -> Near
    ensures { near_part result mem.new tables.new
        ≡ deposited c mem.old tables.old }
{
    match physical(mem.len(), AccessKind::Write, physical_address(c)) {
        Ok(to) => {
            store_at(mem, tables, Some(to), c.file.get(Register::T));
            counted(1, left(c, 0, None))
        }
        Err(x) => counted(1, failed(c, Some(x))),
    }
}

// LDATX to STDTX.
fn transferred(c: Core, mem: &mut [u16], tables: &mut PageTables, o: Transfer, d: u16) -> Near
    ensures { near_part result mem.new tables.new
        ≡ transfer_stage c mem.old tables.old o d }
{
    match transfer(c.file, c.control.extended == 1, mem, tables, o, d) {
        Ok(f) => counted(words_of(o), left(c.with_file(f), 0, None)),
        Err(e) => counted(e.made, failed(c, Some(e.fault))),
    }
}

// IOX, IOXT and IDENT: what a device answers, or interrupt 7.
fn device_stage(c: Core, e: DeviceEvent) -> Near
    ensures { (m t : List ℕ) → near_part result m t ≡ event_stage c m t e }
{
    let k = c.control;
    match act(k.devices, k.pid, c.file.get(Register::A), e) {
        Some(x) => {
            let control = Control {
                pid: x.pid,
                devices: x.devices,
                ..k
            };
            let file = c.file.with(Register::A, x.a);
            left(c.with_file(file).with_control(control), 0, None)
        }
        None => trapped(INTERRUPT_IOX, c),
    }
}

// IOXT's address: all bits of T.
fn device_address(c: Core) -> u64
    ensures { result ≡ reg c.file T }
{
    let f = c.file;
    f.get(Register::T) as u64
}

// A privileged instruction: done here, or left to be done outside the level.
fn system_stage(level: u16, c: Core, mem: &mut [u16], tables: &mut PageTables, q: System) -> Near
    requires level_lt_level_count { level < level_count }
    ensures { near_part result mem.new tables.new
        ≡ system_stage level c mem.old tables.old q }
{
    match q {
        System::Control(o) => left(controlled(level, c, o), 0, None),
        System::TraPgc => left(c, 0, Some(Far::ReadPcr)),
        System::TrrPcr => left(c, 0, Some(Far::WritePcr)),
        System::Irr(n, r) => left(c, 0, Some(Far::ReadRegister(n, r))),
        System::Irw(n, r) => left(c, 0, Some(Far::WriteRegister(n, r))),
        System::Srb(n) => left(c, 0, Some(Far::StoreBlock(n))),
        System::Lrb(n) => left(c, 0, Some(Far::LoadBlock(n))),
        System::Exam => examined(c, mem, tables),
        System::Depo => deposited(c, mem, tables),
        System::Physical(o, d) => transferred(c, mem, tables, o, d),
        System::Iox(n) => device_stage(c, DeviceEvent::Exchange(n)),
        System::Ioxt => device_stage(c, DeviceEvent::Exchange(device_address(c))),
        System::Ident(n) => device_stage(c, DeviceEvent::Identify(n)),
    }
}

// The event e in the core c, of which P is where the step leaves it.
pub fn after_event(
    level: u16,
    c: Core,
    mem: &mut [u16],
    tables: &mut PageTables,
    e: Option<Event>,
) -> Near
    requires level_lt_level_count { level < level_count }
    ensures { near_part result mem.new tables.new
        ≡ event_part level c mem.old tables.old e }
{
    match e {
        None => left(c, 0, None),
        Some(Event::Failed(x)) => failed(c, x),
        Some(Event::Error) => trapped(INTERRUPT_ERROR, c),
        Some(Event::Privileged(q)) => system_stage(level, c, mem, tables, q),
        Some(Event::NotPrivileged) => trapped(INTERRUPT_PRIVILEGED, c),
        Some(Event::Monitor(n)) => left(
            gives(INTERRUPT_MON, c),
            INTERRUPT_MON,
            Some(Far::Call(arithmetic::signed::word_of(n))),
        ),
        Some(Event::Illegal) => trapped(INTERRUPT_ILLEGAL, c),
    }
}
