// A case: a kind's name, sizes, and sections, each a letter and its numbers. What has another form is malformed.
use crate::store::Items;
use protocol::kinds::{LARGE_FRAME, MOST_UNSIGNED};
use test_cases::case::digit;

// The longest output, and the most bytes that are given: more than the largest frame.
pub const ROOM: usize = LARGE_FRAME + 3;

// The most numbers that are given: one more than any list can have.
pub const MANY: usize = MOST_UNSIGNED + 1;

const BIND: usize = 2;

pub const ROW_DESCRIPTION: usize = 17;

const STARTUP: usize = 31;

// The kinds of the boundary's call with lists; and 0, which is none.
pub fn has_list(kind: usize) -> bool {
    matches!(kind, 0..=2 | 18..=19 | 22..=26 | 31)
}

// The parts of a line, in their order.
#[derive(Clone, Copy, PartialEq, Eq, PartialOrd, Ord)]
pub enum Section {
    Sizes,
    Byte,
    One,
    Two,
    Joined,
    Numbers,
    Formats,
    Results,
}

impl Section {
    fn of(letter: u8) -> Option<Section> {
        match letter {
            b'b' => Some(Section::Byte),
            b'o' => Some(Section::One),
            b't' => Some(Section::Two),
            b'j' => Some(Section::Joined),
            b'n' => Some(Section::Numbers),
            b'f' => Some(Section::Formats),
            b'r' => Some(Section::Results),
            _ => None,
        }
    }

    // What its digits count.
    fn radix(self) -> u8 {
        match self {
            Section::Byte | Section::One | Section::Two | Section::Joined => 16,
            _ => 10,
        }
    }

    // How many of its type's numbers are below zero, where it is signed; as many are not.
    fn half(self) -> u64 {
        match self {
            Section::Sizes | Section::Numbers => 2147483648,
            Section::Formats | Section::Results => 32768,
            _ => 128,
        }
    }

    // A number in digits, in two's complement of 64 bits. None where it is no number, or does not fit: 0 with a minus is none.
    fn number(self, word: &[u8]) -> Option<u64> {
        let half = self.half();
        let Some(digits) = word.strip_prefix(b"-") else {
            return self.magnitude(word).filter(|size| size / 2 < half);
        };
        let size = self.magnitude(digits)?;
        if size == 0 || half < size {
            return None;
        }
        Some(size.wrapping_neg())
    }

    fn magnitude(self, digits: &[u8]) -> Option<u64> {
        let radix = self.radix();
        digits.iter().try_fold(0, |size: u64, letter| {
            let digit = digit(*letter).filter(|digit| *digit < radix)?;
            size.checked_mul(radix as u64)?.checked_add(digit as u64)
        })
    }
}

#[derive(Clone, Copy)]
pub struct Case {
    // The last section of the line.
    section: Section,
    sizes: Items<usize, 6>,
    // One at most; read as the others are.
    byte: Items<u8, 1>,
    pub one: Items<u8, 64>,
    pub two: Items<u8, 64>,
    pub joined: Items<u8, 64>,
    pub words: Items<u32, 8>,
    pub numbers: Items<i32, 8>,
    pub formats: Items<i16, 8>,
    pub results: Items<i16, 8>,
}

impl Case {
    fn new() -> Case {
        Case {
            section: Section::Sizes,
            sizes: Items::new(0),
            byte: Items::new(0),
            one: Items::new(0),
            two: Items::new(0),
            joined: Items::new(0),
            words: Items::new(0),
            numbers: Items::new(0),
            formats: Items::new(0),
            results: Items::new(0),
        }
    }

    // None where the line is malformed.
    pub fn read(line: &[u8]) -> Option<Case> {
        let mut case = Case::new();
        // The first word is the kind's name, for the eye.
        for word in line.split(|letter| *letter == b' ').skip(1) {
            case.read_word(word)?;
        }
        case.is_whole().then_some(case)
    }

    // The letters of later sections, and a number.
    fn read_word(&mut self, word: &[u8]) -> Option<()> {
        let count = word
            .iter()
            .position(|letter| *letter == b'-' || digit(*letter).is_some())
            .unwrap_or(word.len());
        let (letters, number) = word.split_at(count);
        for letter in letters {
            self.enter(Section::of(*letter)?)?;
        }
        if number.is_empty() {
            return Some(());
        }
        self.push(self.section.number(number)?)
    }

    fn enter(&mut self, section: Section) -> Option<()> {
        if section <= self.section {
            return None;
        }
        self.section = section;
        Some(())
    }

    fn push(&mut self, number: u64) -> Option<()> {
        let [.., a, b, c, d] = number.to_be_bytes();
        let word = u32::from_be_bytes([a, b, c, d]);
        let short = i16::from_be_bytes([c, d]);
        match self.section {
            Section::Sizes => self.sizes.push(number as usize),
            Section::Byte => self.byte.push(d),
            Section::One => self.one.push(d),
            Section::Two => self.two.push(d),
            Section::Joined => self.joined.push(d),
            Section::Numbers => {
                self.words.push(word)?;
                self.numbers.push(word.cast_signed())
            }
            Section::Formats => self.formats.push(short),
            Section::Results => self.results.push(short),
        }
    }

    fn size(&self, place: usize) -> usize {
        self.sizes.get(place).unwrap_or(0)
    }

    pub fn kind(&self) -> usize {
        self.size(0)
    }

    // How long the output is.
    pub fn room(&self) -> usize {
        self.size(1)
    }

    // Where a column's name begins in the run, and its length; or a byte, and how often it is given.
    pub fn start(&self) -> usize {
        self.size(2)
    }

    pub fn len(&self) -> usize {
        self.size(3)
    }

    // The same of a second column.
    pub fn next_start(&self) -> usize {
        self.size(4)
    }

    pub fn next_len(&self) -> usize {
        self.size(5)
    }

    // The byte, or the format's bits: 0, where none is given.
    pub fn byte(&self) -> u8 {
        self.byte.get(0).unwrap_or(0)
    }

    pub fn number(&self, place: usize) -> i32 {
        self.numbers.get(place).unwrap_or(0)
    }

    pub fn is_row_description(&self) -> bool {
        self.kind() == ROW_DESCRIPTION
    }

    // With another kind four sizes give a byte and how often.
    pub fn has_two_pairs(&self) -> bool {
        self.sizes.len() == 6
    }

    pub fn is_repeated(&self) -> bool {
        !self.is_row_description() && self.sizes.len() == 4
    }

    // Whether the line gives the lengths of a start-up's strings, and no joined bytes.
    pub fn has_lengths(&self) -> bool {
        self.kind() == STARTUP && self.section == Section::Numbers && self.joined.is_empty()
    }

    // The list of a Bind whose letter ends the line, with nothing behind it: that list alone is given.
    pub fn named_list(&self) -> Option<Section> {
        let no_bytes = self.one.is_empty() && self.two.is_empty() && self.joined.is_empty();
        let no_numbers = self.words.is_empty()
            && self.formats.is_empty()
            && self.results.is_empty();
        let named = self.kind() == BIND && Section::Numbers <= self.section;
        (named && no_bytes && no_numbers).then_some(self.section)
    }

    // Whether a byte and how often is all that is given, but for the section Byte, a start-up's lengths, or the letter of a Bind's list.
    fn is_repeated_alone(&self) -> bool {
        let most = if has_list(self.kind()) { MANY } else { ROOM };
        let alone = self.section <= Section::Byte
            || self.has_lengths()
            || self.named_list().is_some();
        self.is_repeated() && self.start() < 256 && self.len() <= most && alone
    }

    // Whether it has as many sizes as its kind takes.
    fn is_whole(&self) -> bool {
        if self.is_row_description() {
            return matches!(self.sizes.len(), 4 | 6);
        }
        self.sizes.len() == 2 || self.is_repeated_alone()
    }
}
