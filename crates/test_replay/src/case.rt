// A case, read letter by letter: "MODE HH HH .. = N N .." and, where the library is not to refuse, "| N N N". HH is a byte in hexadecimal digits. The
// first N are the numbers that tusweram_decode is to give, without the zeros at their end; those after the bar are the Rust's answer: its status, and
// the bytes consumed and the kind where it took a message. Whatever has another form is malformed.
use test_cases::case::{digit, first};

// Room for a frame.
const ROOM: usize = 128;

// How many numbers an answer has.
pub const ROW: usize = 16;

// An answer and the Rust's, which begins at ROW.
const BOTH: usize = 19;

// What a line says.
#[derive(Clone, Copy)]
pub struct Case<'a> {
    pub mode: u8,
    pub frame: &'a [u8],
    pub numbers: &'a Numbers,
}

fn decimal(letter: u8) -> Option<u8> {
    digit(letter).filter(|digit| *digit <= 9)
}

// The bytes that are read so far, and the first digit of the next one. Spaces stand anywhere between the digits, which no other test's input has.
#[derive(Drop)]
struct Frame {
    bytes: [u8; ROOM],
    count: usize,
    high: Option<u8>,
}

impl Frame {
    fn step(&mut self, letter: u8) -> Option<()> {
        let value = digit(letter)?;
        match self.high.take() {
            None => self.high = Some(value),
            Some(high) => {
                *self.bytes.get_mut(self.count)? = (high << 4) | value;
                self.count += 1;
            }
        }
        Some(())
    }
}

// The numbers that are read so far, and the digits of the next one.
#[derive(Clone, Copy)]
pub struct Numbers {
    all: [usize; BOTH],
    count: usize,
    next: Option<usize>,
}

impl Numbers {
    fn step(&mut self, letter: u8) -> Option<()> {
        match letter {
            b' ' => self.end(),
            b'|' => self.bar(),
            _ => self.digit(decimal(letter)?),
        }
    }

    // Twelve digits are enough: a number is at most 32 bits.
    fn digit(&mut self, digit: u8) -> Option<()> {
        let before = self.next.unwrap_or(0);
        if 99999999999 < before {
            return None;
        }
        self.next = Some(before * 10 + digit as usize);
        Some(())
    }

    // The end of a number, if there is one.
    fn end(&mut self) -> Option<()> {
        if let Some(number) = self.next.take() {
            *self.all.get_mut(self.count)? = number;
            self.count += 1;
        }
        Some(())
    }

    // What follows is the Rust's.
    fn bar(&mut self) -> Option<()> {
        if ROW < self.count {
            return None;
        }
        self.count = ROW;
        Some(())
    }

    // What the library is to give.
    pub fn answer(&self) -> &[usize] {
        &self.all[..ROW]
    }

    // What the Rust gave, where the line has it.
    pub fn rust(&self) -> Option<&[usize]> {
        if ROW < self.count {
            Some(&self.all[ROW..])
        } else {
            None
        }
    }
}

// The part of a line that is being read.
#[derive(Clone, Copy)]
enum Part {
    Mode,
    Bytes,
    Numbers,
    Malformed,
}

// What is read of a line so far.
#[derive(Drop)]
pub struct Line {
    part: Part,
    mode: u8,
    frame: Frame,
    numbers: Numbers,
}

impl Line {
    pub fn new() -> Line {
        Line {
            part: Part::Mode,
            mode: 0,
            frame: Frame {
                bytes: [0; ROOM],
                count: 0,
                high: None,
            },
            numbers: Numbers {
                all: [0; BOTH],
                count: 0,
                next: None,
            },
        }
    }

    // The next letter; None where it cannot stand there. The mode is a number: of more digits than one, the last.
    fn next(&mut self, letter: u8) -> Option<()> {
        match (self.part, letter) {
            (Part::Mode, b' ') => self.part = Part::Bytes,
            (Part::Mode, _) => self.mode = decimal(letter)?,
            (Part::Bytes, b' ') => {}
            (Part::Bytes, b'=') => self.part = Part::Numbers,
            (Part::Bytes, _) => self.frame.step(letter)?,
            (Part::Numbers, _) => self.numbers.step(letter)?,
            (Part::Malformed, _) => {}
        }
        Some(())
    }

    // A line with a letter that cannot stand there stays malformed.
    pub fn step(&mut self, letter: u8) {
        if self.next(letter).is_none() {
            self.part = Part::Malformed;
        }
    }

    // What the line says, at its end; None where it is malformed.
    pub fn case(&mut self) -> Option<Case<'_>> {
        let Part::Numbers = self.part else {
            return None;
        };
        self.numbers.end()?;
        Some(Case {
            mode: self.mode,
            frame: first(&self.frame.bytes, self.frame.count),
            numbers: &self.numbers,
        })
    }
}
