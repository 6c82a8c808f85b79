// The bodies of an image, put into the words of a kind; and a state of words in image order.
ghost use Rattle.std.specs.Prelude.{◌≡◌, cond, [], ◌+◌, ◌≤◌, length, eqb};
ghost use Rattle.std.proofs.Math.Seq.{paste};
ghost use Rattle.isa.specs.Devices.{device_count};
ghost use Rattle.isa.specs.Machine.{register_words, state_words, control_count, control_of, state_of, state_in};
ghost use Rattle.isa.specs.Images.{kind_registers, kind_control, kind_devices, loaded_words, loaded_state};
ghost use Rattle.image_directory.specs.Entries.{kind_number};
ghost use Rattle.image_load.specs.Placing.{Placeable};

use image_directory::entry::{Kind, Span, entry_at, entry_count};
use isa::constant::{
    CONTROL_COUNT, DEVICE_COUNT, ENTRY_SIZE, FIRST_ADDED, FIRST_PCR, REGISTER_WORDS,
};
use isa::device::{DeviceWords, Devices};
use isa::machine::{Control, Pcrs, RegisterWords, State};
use words::copy_words;

// An entry's body, if it is of the kind.
fn place(kind: Kind, e: Span, body: &[u16], target: &mut [u16])
    requires body_len { length body.now ≡ e.count }
    requires target_in_bounds { e.kind ≡ kind_number kind → e.start + e.count ≤ length target.old }
    ensures { target.new
        ≡ cond (eqb e.kind (kind_number kind)) (paste target.old e.start body.now e.count)
        target.old }
{
    if e.kind == u16::from(kind) {
        copy_words(body, &mut target[e.start as usize..e.end()]);
    }
}

// All words of a kind: those not named are 0.
#[tactic(auto, unfolding(isa::specs::Images::loaded_words))]
pub(crate) fn fill(kind: Kind, image: &[u16], target: &mut [u16])
    requires { Placeable (kind_number kind) (length target.old) image.now }
    ensures { target.new ≡ loaded_words (kind_number kind) (length target.old) image.now }
{
    target.fill(0);
    let n = entry_count(image);
    let mut bodies = &image[1 + n * ENTRY_SIZE..];
    for k in 0..n {
        let e = entry_at(image, k);
        let (body, rest) = bodies.split_at(e.count as usize);
        place(kind, e, body, target);
        bodies = rest;
    }
}

// Control words 1 to 9, 26 and 27, and the devices, of all control words and devices' words in image order.
pub fn control_of(words: &[u16], devices: &[u16]) -> Control
    requires words_len { length words.now ≡ control_count }
    requires devices_len { length devices.now ≡ device_count }
    ensures { result ≡ control_of (state_of [] words.now devices.now) }
{
    Control {
        interrupts: words[1],
        paging: words[2],
        stopped: words[3],
        pid: words[4],
        pie: words[5],
        pvl: words[6],
        iid: words[7],
        iie: words[8],
        pgs: words[9],
        held: words[FIRST_ADDED],
        extended: words[FIRST_ADDED + 1],
        devices: Devices::from(DeviceWords::try_from(devices).unwrap()),
    }
}

// The PCRs, of all control words in image order.
pub fn pcrs_of(words: &[u16]) -> Pcrs
    requires { length words.now ≡ control_count }
    ensures { result ≡ (state_of [] words.now []).pcr }
{
    Pcrs::try_from(&words[FIRST_PCR..FIRST_ADDED]).unwrap()
}

// The state of registers, control words and devices' words in image order.
fn state_of(regs: RegisterWords, words: &[u16], devices: &[u16]) -> State
    requires words_len { length words.now ≡ control_count }
    requires devices_len { length devices.now ≡ device_count }
    ensures { result ≡ state_of regs words.now devices.now }
{
    State::with(words[0], control_of(words, devices), regs, pcrs_of(words))
}

// The state of 168 words: the registers, then the control words, then the devices' words, each in image order.
pub fn state_in(words: &[u16]) -> State
    requires { length words.now ≡ state_words }
    ensures { result ≡ state_in words.now }
{
    let (regs, rest) = words.split_at(REGISTER_WORDS);
    let (control, devices) = rest.split_at(CONTROL_COUNT);
    state_of(RegisterWords::try_from(regs).unwrap(), control, devices)
}

// The state that an image has.
pub fn loaded_state(image: &[u16]) -> State
    requires registers_placeable { Placeable kind_registers register_words image.now }
    requires control_placeable { Placeable kind_control control_count image.now }
    requires devices_placeable { Placeable kind_devices device_count image.now }
    ensures { result ≡ loaded_state image.now }
{
    let mut regs = [0; REGISTER_WORDS];
    let mut words = [0; CONTROL_COUNT];
    let mut devices = [0; DEVICE_COUNT];
    fill(Kind::Registers, image, &mut regs);
    fill(Kind::Control, image, &mut words);
    fill(Kind::Devices, image, &mut devices);
    state_of(regs, &words, &devices)
}
