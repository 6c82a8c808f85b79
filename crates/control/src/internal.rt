// TRA, TRR, MCL and MST: the internal registers.
ghost use Rattle.std.specs.Prelude.{◌≡◌, ◌<◌};
ghost use Rattle.isa.specs.System.{status_word, internal_word, after_reading, read, with_sts, written, maskable_word};
ghost use Rattle.isa.specs.System.{with_maskable, bits_cleared, bits_set, with_pid, with_pie, with_internal};
ghost use Rattle.isa.specs.Machine.{level_count, with_control};

use arithmetic::bits::highest;
use isa::constant::{LEVELS, STATUS_RANGE};
use isa::instruction::{Maskable, Readable, Writable};
use isa::machine::{Control, Core, Register};

// The full status word.
fn status_word(level: u16, k: Control, sts: u16) -> u16
    ensures { result ≡ status_word level k sts }
{
    k.interrupts % 2 * 0o100000
        + k.paging % 2 * 0o040000
        + k.extended % 2 * 0o020000
        + 0o010000
        + level % LEVELS * 0o400
        + sts % STATUS_RANGE
}

// TRA: what A gets.
fn internal_word(level: u16, c: Core, r: Readable) -> u16
    requires { level < level_count }
    ensures { result ≡ internal_word level c r }
{
    let k = c.control;
    match r {
        Readable::Status => status_word(level, k, c.file.get(Register::Sts)),
        Readable::Pgs => k.pgs,
        Readable::Pvl => 0o153602 + k.pvl % LEVELS * 0o10,
        Readable::Iic => highest(k.iid),
        Readable::Pid => k.pid,
        Readable::Pie => k.pie,
        Readable::Actl => 1 << level,
    }
}

// TRA IIC clears IID. TRA PGS releases PGS: it keeps its value, and the next 2 or 3 sets it.
fn after_reading(k: Control, r: Readable) -> Control
    ensures { result ≡ after_reading k r }
{
    match r {
        Readable::Pgs => Control { held: 0, ..k },
        Readable::Iic => Control { iid: 0, ..k },
        Readable::Status | Readable::Pvl | Readable::Pid | Readable::Pie | Readable::Actl => k,
    }
}

pub fn read(level: u16, c: Core, r: Readable) -> Core
    requires { level < level_count }
    ensures { result ≡ read level c r }
{
    let f = c.file.with(Register::A, internal_word(level, c, r));
    c.with_file(f).with_control(after_reading(c.control, r))
}

fn with_sts(c: Core, w: u16) -> Core
    ensures { result ≡ with_sts c w }
{
    c.with_file(c.file.with(Register::Sts, w % STATUS_RANGE))
}

// One line each, here and in with_pid, with_pie and with_extended: with a closure they would be no shorter.
fn with_iie(c: Core, iie: u16) -> Core
    ensures { result ≡ with_control c (with_internal c.control c.control.iid iie) }
{
    c.with_control(Control { iie, ..c.control })
}

fn with_pid(c: Core, pid: u16) -> Core
    ensures { result ≡ with_control c (with_pid c.control pid) }
{
    c.with_control(Control { pid, ..c.control })
}

fn with_pie(c: Core, pie: u16) -> Core
    ensures { result ≡ with_control c (with_pie c.control pie) }
{
    c.with_control(Control { pie, ..c.control })
}

// TRR of A.
pub fn written(c: Core, r: Writable) -> Core
    ensures { result ≡ written c r }
{
    let a = c.file.get(Register::A);
    match r {
        Writable::Status => with_sts(c, a),
        Writable::Iie => with_iie(c, a / 2 % 1024 * 2),
        Writable::Pid => with_pid(c, a),
        Writable::Pie => with_pie(c, a),
    }
}

// What a register that MCL and MST reach holds.
fn maskable_word(c: Core, r: Maskable) -> u16
    ensures { result ≡ maskable_word c r }
{
    match r {
        Maskable::Status => c.file.get(Register::Sts),
        Maskable::Pid => c.control.pid,
        Maskable::Pie => c.control.pie,
    }
}

fn with_maskable(c: Core, r: Maskable, w: u16) -> Core
    ensures { result ≡ with_maskable c r w }
{
    match r {
        Maskable::Status => with_sts(c, w),
        Maskable::Pid => with_pid(c, w),
        Maskable::Pie => with_pie(c, w),
    }
}

// MCL clears the bits that are set in A.
pub fn bits_cleared(c: Core, r: Maskable) -> Core
    ensures { result ≡ bits_cleared c r }
{
    with_maskable(c, r, maskable_word(c, r) & !c.file.get(Register::A))
}

// MST sets them.
pub fn bits_set(c: Core, r: Maskable) -> Core
    ensures { result ≡ bits_set c r }
{
    with_maskable(c, r, maskable_word(c, r) | c.file.get(Register::A))
}
