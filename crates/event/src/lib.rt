// How a step of the running level ends.
#![tactic(auto)]

ghost use Rattle.std.specs.Prelude.{◌≡◌, not, ◌+◌, ◌<◌, ◌^◌};
ghost use Rattle.event.specs.Events.{is_fine, by_privilege, after_references};
ghost use Rattle.std.specs.declared.option.Option.TheVariants.{None, Some};
ghost use Rattle.event.specs.declared.Event.TheVariants.{Failed};

use isa::access::Fault;
use isa::instruction::System;
use isa::machine::File;

// How an instruction ended otherwise than well: by an access that failed, of which it has the fault; with the error
// interrupt, 5; with a privileged instruction, on a ring that may execute it or on one that may not (6); with MON; or
// with an illegal code.
#[derive(Clone, Copy)]
pub enum Event {
    Failed(Option<Fault>),
    Error,
    Privileged(System),
    NotPrivileged,
    Monitor(i16),
    Illegal,
}

// The references made, how the instruction ended, None where well, and the level's registers after it.
#[derive(Clone, Copy)]
pub struct Ending {
    pub references: u32,
    pub event: Option<Event>,
    pub file: File,
}

pub fn fine(f: File) -> Ending
    ensures { result ≡ record { references = 0; event = None; file = f } }
{
    done(f, 0)
}

// Well, after so many accesses.
pub fn done(f: File, made: u32) -> Ending
    ensures { result ≡ record { references = made; event = None; file = f } }
{
    Ending {
        references: made,
        event: None,
        file: f,
    }
}

pub fn with_event(f: File, e: Option<Event>) -> Ending
    ensures { result ≡ record { references = 0; event = e; file = f } }
{
    Ending {
        references: 0,
        event: e,
        file: f,
    }
}

// An access failed, by its fault; so many were made, it among them.
pub fn failed(f: File, x: Option<Fault>, made: u32) -> Ending
    ensures { result ≡ record { references = made; event = Some (Failed x); file = f } }
{
    Ending {
        references: made,
        event: Some(Event::Failed(x)),
        file: f,
    }
}

// The same, with n references before it.
pub fn after(n: u32, e: Ending) -> Ending
    requires { n + e.references < 2 ^ 32 }
    ensures { result ≡ after_references n e }
{
    Ending {
        references: n + e.references,
        ..e
    }
}

// Whether an event leaves something to be done.
pub fn ends(e: Option<Event>) -> bool
    ensures { result ≡ not (is_fine e) }
{
    e.is_some()
}

// The event, where a privileged instruction needs that the ring is privileged.
#[tactic(auto, unfolding(crate::specs::Events::by_privilege))]
pub fn by_privilege(privileged: bool, e: Option<Event>) -> Option<Event>
    ensures { result ≡ by_privilege privileged e }
{
    match e {
        Some(Event::Privileged(_)) if !privileged => Some(Event::NotPrivileged),
        _ => e,
    }
}
