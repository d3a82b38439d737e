// What an encoder is given. Each kind's takes of it what it has.
use crate::case::Case;
use protocol::data::FieldDescription;

#[derive(Clone, Copy)]
pub struct Call<'a> {
    pub kind: usize,
    // The byte, or the format's bits.
    pub byte: u8,
    pub first: i32,
    pub second: i32,
    pub one: &'a [u8],
    pub two: &'a [u8],
    pub joined: &'a [u8],
    pub words: &'a [u32],
    pub lengths: &'a [i32],
    pub formats: &'a [i16],
    pub results: &'a [i16],
    pub fields: &'a [FieldDescription],
}

impl<'a> Call<'a> {
    // With as many bytes and numbers as the case has, and no fields.
    pub fn of(case: &'a Case) -> Call<'a> {
        Call {
            kind: case.kind(),
            byte: case.byte(),
            first: case.number(0),
            second: case.number(1),
            one: case.one.as_slice(),
            two: case.two.as_slice(),
            joined: case.joined.as_slice(),
            words: case.words.as_slice(),
            lengths: case.numbers.as_slice(),
            formats: case.formats.as_slice(),
            results: case.results.as_slice(),
            fields: &[],
        }
    }

    pub fn format(&self) -> i8 {
        self.byte.cast_signed()
    }
}
