// Cases in text: the lines of an input, and the bytes of a line in hexadecimal digits.
ghost use Rattle.std.specs.Prelude.{◌≡◌, ◌≤◌, ◌-◌, IfSome, drop, length, min};
ghost use Rattle.std.specs.Iterator.{at_most};

// Where the line that begins at `start` ends; from the input's end on, there.
fn line_end(input: &[u8], start: usize) -> usize
    ensures { (min start (length input.now) ≤ result) × (result ≤ length input.now) }
{
    let Some(rest) = input.get(start..) else {
        return input.len();
    };
    match rest.iter().position(|letter| *letter == b'\n') {
        Some(count) => start + count,
        None => input.len(),
    }
}

// The lines of an input, without their ends. There is none behind the last end, where the library's `split` has an empty one.
#[derive(Drop)]
pub struct Lines<'a> {
    input: &'a [u8],
    start: usize,
}

impl<'a> Lines<'a> {
    pub fn of(input: &'a [u8]) -> Lines<'a> {
        Lines { input, start: 0 }
    }
}

impl<'a> Iterator for Lines<'a> {
    type Item = &'a [u8];

    ghost remaining = { λ s. at_most (length s.input.now - s.start) };

    fn next(&mut self) -> Option<&'a [u8]> {
        if self.input.len() <= self.start {
            return None;
        }
        let end = line_end(self.input, self.start);
        let line = &self.input[self.start..end];
        self.start = end + 1;
        Some(line)
    }
}

// A hexadecimal digit. A small letter is none.
pub fn digit(letter: u8) -> Option<u8>
    ensures { IfSome result (λ digit. digit ≤ 15) }
{
    match letter {
        b'0'..=b'9' => Some(letter - b'0'),
        b'A'..=b'F' => Some(letter - b'A' + 10),
        _ => None,
    }
}

fn byte_of(high: u8, low: u8) -> Option<u8> {
    Some(digit(high)? * 16 + digit(low)?)
}

// The bytes of `digits`, a space and two digits each, put at the start of `room`.
pub fn read_bytes<'a>(digits: &[u8], room: &'a mut [u8]) -> Option<&'a [u8]> {
    let (groups, rest) = digits.as_chunks::<3>();
    if !rest.is_empty() {
        return None;
    }
    let bytes = room.get_mut(..groups.len())?;
    for (byte, group) in bytes.iter_mut().zip(groups) {
        let [b' ', high, low] = *group else {
            return None;
        };
        *byte = byte_of(high, low)?;
    }
    Some(bytes)
}

// A line's head: its name, numbers in decimal digits, and a colon, behind which its bytes stand.
#[derive(Clone, Copy)]
pub struct Head<'a> {
    // The last two numbers, 0 where there is none.
    pub first: usize,
    pub second: usize,
    // What stands behind the colon.
    pub digits: &'a [u8],
}

// The number of a word's digits, letters being passed over. One that is too large is the largest.
fn number_in(word: &[u8]) -> usize {
    word.iter()
        .filter(|letter| letter.is_ascii_digit())
        .fold(0, |number: usize, letter| {
            number
                .saturating_mul(10)
                .saturating_add((*letter - b'0') as usize)
        })
}

pub fn read_head(line: &[u8]) -> Head<'_>
    ensures within { length result.digits.now ≤ length line.now }
    ensures behind { result.digits.now ≡ drop (length line.now - length result.digits.now) line.now }
{
    let end = line
        .iter()
        .position(|letter| *letter == b':')
        .unwrap_or(line.len());
    let (head, rest) = line.split_at(end);
    let mut words = head.rsplit(|letter| *letter == b' ');
    let second = words.next().map_or(0, number_in);
    let first = words.next().map_or(0, number_in);
    let digits = rest.get(1..).unwrap_or(&[]);
    Head {
        first,
        second,
        digits,
    }
}

// The first `count` of them; none, where there are fewer.
pub fn first<T>(items: &[T], count: usize) -> &[T] {
    items.get(..count).unwrap_or(&[])
}
