// The tables, line by line, as text; and the line of a type byte, an answer byte or a code.
use protocol::kinds::Line;
use protocol::tables::{letters_in, line_at};
use test_cases::Output;

// More lines than any table has.
const MOST: usize = 64;

// In modes 2 and 5 a code tells the kind, in place of a byte.
pub fn has_codes(mode: u8) -> bool {
    matches!(mode, 2 | 5)
}

// In modes 3 and 4 a frame is one byte.
pub fn is_bare(mode: u8) -> bool {
    matches!(mode, 3 | 4)
}

fn write_line(to: &mut Output, mode: u8, line: Line) {
    let Line(name, tag, smallest, limit, number) = line;
    let letters = letters_in(name);
    write!(to, "{mode} ");
    to.write_all(decode::part(&name, 0, letters));
    if has_codes(mode) {
        write!(to, " {tag}");
    } else {
        write!(to, " {}", (tag % 256) as u8 as char);
    }
    writeln!(to, " {smallest} {limit} {number}");
}

pub fn write_table(to: &mut Output, mode: u8) {
    for line in (0..MOST).map_while(|index| line_at(mode, index)) {
        write_line(to, mode, line);
    }
}

// The mode's line with this type byte, answer byte or code.
pub fn find(mode: u8, tag: u32) -> Option<Line> {
    (0..MOST)
        .map_while(|index| line_at(mode, index))
        .find(|line| line.1 == tag)
}
