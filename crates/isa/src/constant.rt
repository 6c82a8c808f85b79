// Numbers of document 01 that have a name. The definitions have the same under the same names, in specs/Machine.antt,
// specs/Images.antt, and for the devices specs/Devices.antt, specs/InputOutput.antt and specs/DeviceInput.antt.

// A word and a double word: bits; and what a word is below.
pub const WORD_BITS: u32 = 16;

pub const DOUBLE_BITS: u32 = 32;

pub const WORD_RANGE: u32 = 65536;

pub const ALL_ONES: u16 = 0o177777;

// Levels; registers of a level and of all levels; among the control words the first PCR, the first of those that
// document 02 adds behind the PCRs, and how many these are; all control words; the devices' words, the first of them
// among a state's, and all of these.
pub const LEVEL_COUNT: usize = 16;

pub const FILE_SIZE: usize = 8;

pub const REGISTER_WORDS: usize = LEVEL_COUNT * FILE_SIZE;

pub const FIRST_PCR: usize = 10;

pub const FIRST_ADDED: usize = FIRST_PCR + LEVEL_COUNT;

pub const ADDED_COUNT: usize = 2;

pub const CONTROL_COUNT: usize = FIRST_ADDED + ADDED_COUNT;

pub const DEVICE_COUNT: usize = 12;

pub const FIRST_DEVICE: usize = REGISTER_WORDS + CONTROL_COUNT;

pub const STATE_WORDS: usize = FIRST_DEVICE + DEVICE_COUNT;

// A level is below this; the level of internal interrupts; STS of a file is below this.
pub const LEVELS: u16 = LEVEL_COUNT as u16;

pub const INTERNAL_LEVEL: u16 = 14;

pub const STATUS_RANGE: u16 = 256;

// A character is below this, and a length code below that; the levels of terminal output, terminal input and the clock,
// and the identification code of each; an input as a word: a tick, a read out, and character 0 typed.
pub const CHARACTER_RANGE: u16 = 256;

pub const LENGTH_RANGE: u16 = 4;

pub const OUTPUT_LEVEL: u16 = 10;

pub const INPUT_LEVEL: u16 = 12;

pub const CLOCK_LEVEL: u16 = 13;

pub const IDENT_CODE: u16 = 1;

pub const TICK_WORD: u16 = 256;

pub const READ_OUT_WORD: u16 = 257;

pub const TYPED_WORD: u16 = 512;

// Lent words: a page, the largest memory, the page tables; the entries of a table.
pub const PAGE_WORDS: usize = 1024;

pub const LARGEST_MEMORY: usize = 16777216;

pub const TABLE_WORDS: usize = 512;

pub const ENTRIES_IN_TABLE: usize = 64;

// The tables' window, in 19-bit and in extended mode: its first address and its words.
pub const WINDOW_START: u16 = 0o177400;

pub const WINDOW_WORDS: usize = 256;

pub const EXTENDED_WINDOW_START: u16 = 0o177000;

pub const EXTENDED_WINDOW_WORDS: usize = TABLE_WORDS;

// The registers' numbers.
pub const NUMBER_STS: usize = 0;

pub const NUMBER_D: usize = 1;

pub const NUMBER_P: usize = 2;

pub const NUMBER_B: usize = 3;

pub const NUMBER_L: usize = 4;

pub const NUMBER_A: usize = 5;

pub const NUMBER_T: usize = 6;

pub const NUMBER_X: usize = 7;

// The flags that instructions set and test: bits of STS.
pub const FLAG_K: u16 = 2;

pub const FLAG_Z: u16 = 3;

pub const FLAG_Q: u16 = 4;

pub const FLAG_O: u16 = 5;

pub const FLAG_C: u16 = 6;

pub const FLAG_M: u16 = 7;

// The internal interrupts.
// Numbers, as document 01 names interrupts: `control::interrupt::gives` answers for each number below 16.
pub const INTERRUPT_MON: u16 = 1;

pub const INTERRUPT_PROTECTION: u16 = 2;

pub const INTERRUPT_PAGE_FAULT: u16 = 3;

pub const INTERRUPT_ILLEGAL: u16 = 4;

pub const INTERRUPT_ERROR: u16 = 5;

pub const INTERRUPT_PRIVILEGED: u16 = 6;

pub const INTERRUPT_IOX: u16 = 7;

pub const INTERRUPT_OUT_OF_RANGE: u16 = 9;

// An image: the words of an entry, the most entries, the kinds; what the writer puts: five entries, the words of the
// list of contents, and all words beside memory.
pub const ENTRY_SIZE: usize = 5;

pub const MOST_ENTRIES: usize = 32;

// The kinds are numbers in an image and to C alone: the code has `image_directory::entry::Kind`.
pub const KIND_MEMORY: u16 = 1;

pub const KIND_REGISTERS: u16 = 2;

pub const KIND_CONTROL: u16 = 3;

pub const KIND_TABLES: u16 = 4;

pub const KIND_DEVICES: u16 = 5;

pub const WRITTEN_ENTRIES: usize = 5;

pub const CONTENTS_SIZE: usize = 1 + WRITTEN_ENTRIES * ENTRY_SIZE;

pub const BESIDE_MEMORY: usize = CONTENTS_SIZE + STATE_WORDS + TABLE_WORDS;
