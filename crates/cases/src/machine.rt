// The machine of a case: what its operations tell, and the line that answers the case.
use crate::base::{PagingMode, fill_pattern, fill_tables, state_words};
use crate::case::Case;
use crate::checksum::Checksum;
use crate::told::Told;
use image_load::bodies::state_in;
use image_write::{added_of, scalars_of};
use isa::answer::{Ran, Refusal, Target};
use isa::constant::{FILE_SIZE, LEVEL_COUNT, PAGE_WORDS, STATE_WORDS};
use isa::device::DeviceWords;
use isa::machine::State;
use isa::number::{answer_number, character_sent_of};
use std::io;

#[derive(Drop)]
pub(crate) struct Machine<'a> {
    state: State,
    memory: &'a mut [u16],
    tables: &'a mut [u16],
}

// Changes a word, where there is one.
fn set(words: &mut [u16], at: usize, to: u16) {
    if let Some(word) = words.get_mut(at) {
        *word = to;
    }
}

fn answered(answer: Result<(), Refusal>) -> Told {
    Told {
        refusal: u64::from(answer_number(answer)),
        ..Told::default()
    }
}

fn ran(answer: Result<Ran, Refusal>) -> Told {
    match answer {
        Ok(r) => Told {
            refusal: 0,
            first: u64::from(u16::from(r.reason)),
            second: r.steps,
            third: r.references,
        },
        Err(refusal) => Told::from(refusal),
    }
}

impl<'a> Machine<'a> {
    // The machine that a case starts from: the base machine, with as much of the lent memory and page tables as the
    // case names, and with its changes: of registers, control words and devices first, of page tables from 512 on, of
    // memory from 1,024 on.
    pub(crate) fn of(case: Case<'_>, memory: &'a mut [u16], tables: &'a mut [u16]) -> Machine<'a> {
        let mode = case.mode();
        let memory_words = case.memory_words().min(memory.len());
        let table_words = case.table_words().min(tables.len());
        let memory = &mut memory[..memory_words];
        let tables = &mut tables[..table_words];
        let mut state = state_words(mode);
        fill_pattern(memory);
        fill_tables(mode, memory_words, tables);
        for place in case.changes().step_by(2) {
            let (at, to) = case.change(place);
            match at {
                0..512 => set(&mut state, at, to),
                512..1024 => set(tables, at - 512, to),
                _ => set(memory, at - 1024, to),
            }
        }
        Machine {
            state: state_in(&state),
            memory,
            tables,
        }
    }

    // Memory and page tables, of which some operations only ask the sizes.
    fn lent(&self) -> (&[u16], &[u16]) {
        (self.memory, self.tables)
    }

    pub(crate) fn step(&mut self) -> Told {
        let stepped = operations::step::step(self.state, self.memory, self.tables);
        self.state = stepped.state;
        match stepped.answer {
            Ok(interrupt) => Told {
                first: u64::from(interrupt),
                ..Told::default()
            },
            Err(refusal) => Told::from(refusal),
        }
    }

    pub(crate) fn run(&mut self, limit: u64) -> Told {
        let left = operations::runs::through(self.state, self.memory, self.tables, limit);
        self.state = left.state;
        ran(left.answer)
    }

    pub(crate) fn run_to_interrupt(&mut self, limit: u64) -> Told {
        let left = operations::runs::to_interrupt(self.state, self.memory, self.tables, limit);
        self.state = left.state;
        ran(left.answer)
    }

    // Beside the reason it tells the checksum of what the inputs handed in were told.
    pub(crate) fn run_with_input(
        &mut self,
        limit: u64,
        steps: &[u64],
        words: &[u16],
        told: &mut [u16],
    ) -> Told {
        let left = operations::input::run_with_input(
            self.state,
            self.memory,
            self.tables,
            limit,
            steps,
            words,
            told,
        );
        self.state = left.state;
        let answer = ran(left.answer);
        match left.answer {
            Ok(r) => Told {
                first: u64::from(u16::from(r.reason))
                    + 8 * Checksum::of(&told[..left.handed]).value(),
                ..answer
            },
            Err(_) => answer,
        }
    }

    pub(crate) fn raise(&mut self, level: u16) -> Told {
        let (memory, tables) = self.lent();
        let left = operations::raise::raise(self.state, level, memory, tables);
        self.state = left.state;
        answered(left.answer)
    }

    pub(crate) fn load(&mut self, image: &[u16]) -> Told {
        let left = operations::load(self.state, image, self.memory, self.tables);
        self.state = left.state;
        answered(left.answer)
    }

    // The output has the pattern's words before, so that those past the image show.
    pub(crate) fn write(&self, output: &mut [u16]) -> Told {
        fill_pattern(output);
        let answer = operations::write(self.state, self.memory, self.tables, output);
        Told {
            first: Checksum::of(output).value(),
            ..answered(answer)
        }
    }

    pub(crate) fn view(&self, target: Target, start: usize, len: usize) -> Told {
        let answer = operations::view_answer(target, start, len, self.memory, self.tables);
        let part = operations::view(target, start, len, self.memory, self.tables);
        Told {
            first: part.len() as u64,
            second: Checksum::of(part).value(),
            ..answered(answer)
        }
    }

    // Written, then loaded over a cleared state and other words; tells what the load answered, then what the write did.
    pub(crate) fn write_and_load(&mut self, output: &mut [u16]) -> Told {
        let written = self.write(output);
        self.state = state_in(&[0; STATE_WORDS]);
        fill_tables(PagingMode::NineteenBit, PAGE_WORDS, self.memory);
        fill_pattern(self.tables);
        let loaded = self.load(output);
        Told {
            refusal: loaded.refusal,
            first: written.first,
            second: written.refusal,
            third: 0,
        }
    }

    // What the devices are handed between steps.
    pub(crate) fn tick(&mut self) -> Told {
        let (memory, tables) = self.lent();
        let left = operations::device::tick(self.state, memory, tables);
        self.state = left.state;
        answered(left.answer)
    }

    pub(crate) fn type_character(&mut self, character: u8) -> Told {
        let (memory, tables) = self.lent();
        let left = operations::device::type_character(self.state, character, memory, tables);
        self.state = left.state;
        answered(left.answer)
    }

    // Tells the character, or 256 for none.
    pub(crate) fn read_out(&mut self) -> Told {
        let (memory, tables) = self.lent();
        let left = operations::device::read_out(self.state, memory, tables);
        self.state = left.state;
        match left.answer {
            Err(refusal) => Told::from(refusal),
            sent => Told {
                first: u64::from(character_sent_of(sent)),
                ..Told::default()
            },
        }
    }

    // Of the control words and the devices' words in image order.
    fn control_checksum(&self) -> Checksum {
        let control = self.state.control_words();
        Checksum::of(&scalars_of(self.state.level, control))
            .with(&self.state.pcr)
            .with(&added_of(control))
            .with(&DeviceWords::from(self.state.devices))
    }

    // What was told; checksums of registers, control words with devices, page tables and memory; then level and
    // registers of the running level, a level out of range counting modulo 16.
    pub(crate) fn show(&self, rt: &impl Print, told: Told) -> io::Result<()> {
        let Told {
            refusal,
            first,
            second,
            third,
        } = told;
        let registers = Checksum::of(&self.state.regs);
        let control = self.control_checksum();
        let tables = Checksum::of(self.tables);
        let memory = Checksum::of(self.memory);
        let level = self.state.level;
        print!(rt;
            "{refusal} {first} {second} {third} {registers} {control} {tables} {memory} {level}"
        )?;
        let start = level as usize % LEVEL_COUNT * FILE_SIZE;
        for word in &self.state.regs[start..start + FILE_SIZE] {
            print!(rt; " {word:06o}")?;
        }
        println!(rt)
    }
}
