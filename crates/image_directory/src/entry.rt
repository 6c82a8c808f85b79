// The entries of an image, read from its list of contents.
ghost use Rattle.std.specs.Prelude.{◌≡◌, ◌+◌, ◌*◌, ◌≤◌, ◌<◌, length, get_or};
ghost use Rattle.isa.specs.Images.{high_low, contents_fit, size_of, meets};
ghost use Rattle.image_directory.specs.Entries.{kind_number, KindOf, span_entry, image_entry_at};

use isa::answer::Refusal;
use isa::constant::{
    CONTROL_COUNT, DEVICE_COUNT, ENTRY_SIZE, KIND_CONTROL, KIND_DEVICES, KIND_MEMORY,
    KIND_REGISTERS, KIND_TABLES, MOST_ENTRIES, REGISTER_WORDS, TABLE_WORDS, WORD_RANGE,
};

// What an entry's body is.
#[derive(Clone, Copy, PartialEq, Eq)]
pub enum Kind {
    Memory,
    Registers,
    Control,
    Tables,
    Devices,
}

impl From<Kind> for u16 {
    ghost from_gives = { λ k n. n ≡ kind_number k };

    fn from(k: Kind) -> u16 {
        match k {
            Kind::Memory => KIND_MEMORY,
            Kind::Registers => KIND_REGISTERS,
            Kind::Control => KIND_CONTROL,
            Kind::Tables => KIND_TABLES,
            Kind::Devices => KIND_DEVICES,
        }
    }
}

// Refusal 5: a number of no kind.
impl TryFrom<u16> for Kind {
    type Error = Refusal;

    ghost try_from_gives = { KindOf };

    fn try_from(n: u16) -> Result<Kind, Refusal> {
        match n {
            KIND_MEMORY => Ok(Kind::Memory),
            KIND_REGISTERS => Ok(Kind::Registers),
            KIND_CONTROL => Ok(Kind::Control),
            KIND_TABLES => Ok(Kind::Tables),
            KIND_DEVICES => Ok(Kind::Devices),
            _ => Err(Refusal::Kind),
        }
    }
}

impl Kind {
    // The kind's size, beside so many words of memory.
    pub fn size(self, words: usize) -> usize
        ensures { result ≡ size_of words (kind_number self) }
    {
        match self {
            Kind::Memory => words,
            Kind::Registers => REGISTER_WORDS,
            Kind::Control => CONTROL_COUNT,
            Kind::Tables => TABLE_WORDS,
            Kind::Devices => DEVICE_COUNT,
        }
    }
}

// An entry: the number of its kind, start and length.
#[derive(Clone, Copy)]
pub struct Span {
    pub kind: u16,
    pub start: u32,
    pub count: u32,
}

impl Span {
    // Start plus length, which no words make wrap.
    pub fn end(self) -> usize
        ensures { result ≡ self.start + self.count }
    {
        self.start as usize + self.count as usize
    }

    // Whether two entries cover one word.
    #[tactic(auto, unfolding(isa::specs::Images::meets))]
    pub fn meets(self, b: Span) -> bool
        ensures { result ≡ meets (span_entry self) (span_entry b) }
    {
        self.kind == b.kind
            && 0 < self.count
            && 0 < b.count
            && (self.start as usize) < b.end()
            && (b.start as usize) < self.end()
    }
}

// Two words, high first.
fn two_words(high: u16, low: u16) -> u32
    ensures { result ≡ high_low high low }
{
    high as u32 * WORD_RANGE + low as u32
}

// The number of entries.
pub fn entry_count(image: &[u16]) -> usize
    requires { 0 < length image.now }
    ensures { result ≡ get_or image.now 0 0 }
{
    image[0] as usize
}

// Entry k.
#[tactic(auto, using(crate::proofs::Entries::entry_read))]
pub fn entry_at(image: &[u16], k: usize) -> Span
    requires { k * 5 + 6 ≤ length image.now }
    ensures { span_entry result ≡ image_entry_at k image.now }
{
    let at = 1 + k * ENTRY_SIZE;
    Span {
        kind: image[at],
        start: two_words(image[at + 1], image[at + 2]),
        count: two_words(image[at + 3], image[at + 4]),
    }
}

// Refusal 4: the contents are short or over 32 entries.
#[tactic(auto, unfolding(isa::specs::Images::contents_fit))]
pub fn contents_fit(image: &[u16]) -> bool
    ensures { result ≡ contents_fit image.now }
{
    if image.is_empty() {
        return false;
    }
    let n = entry_count(image);
    n <= MOST_ENTRIES && 1 + n * ENTRY_SIZE <= image.len()
}
