// A row's fields, each with its name in a lent run of bytes: one pass over them measures, and the same pass writes.
// Inner: for crates of this library alone (docs/INNER.md).
#![tactic(auto)]

ghost use Rattle.std.specs.Prelude.{◌+◌, ◌≤◌, ◌<◌, ◌≡◌, MatchOption, drop, length, take};
ghost use Rattle.protocol.specs.Encode.{row_field_given};
ghost use Rattle.protocol.specs.Fields.{item_bytes};
ghost use Rattle.protocol.specs.Kinds.{row_field};
ghost use Rattle.protocol.specs.Told.{encoded};
ghost use Rattle.writers.specs.Writing.{Wrote};
ghost use Rattle.row_fields.specs.Passes as P;

use protocol::data::{FieldDescription, MESSAGE_TYPE_BYTE_ROW_DESCRITION};
use protocol::kinds::{LARGE, MOST_SIGNED};
use protocol::refusal::Refused;
use writers::{bits16, bits32, no_zero, plus, put_half, put_head, put_pairs, put_text, verdict};

// How far a pass is: the next byte's place, whether every name so far can be written, and whether the pass writes. The place goes on where a name
// cannot be written, as the definitions tell it (specs/Passes.antt): so `at` is no Option in place of `ok`. `writing` is a flag and no closure: what a field measures
// and what it writes are said of one step, and so cannot differ.
#[derive(Clone, Copy)]
pub struct Pass {
    pub at: usize,
    pub ok: bool,
    pub writing: bool,
}

// A field's name, where it stands in the run.
fn name_in(f: FieldDescription, run: &[u8]) -> Option<&[u8]>
    ensures { MatchOption result
        (length run.now < f.name.start + f.name.len)
        (λ name. (f.name.start + f.name.len ≤ length run.now) × (name.now ≡ take f.name.len (drop f.name.start run.now))) }
{
    run.get(f.name.start..)?.get(..f.name.len)
}

// Whether a pass may go on past a field. The pass that writes comes after one that has looked at every byte of the names.
fn name_able(f: FieldDescription, run: &[u8], writing: bool) -> bool
    ensures { result ≡ P.passed writing f run.now }
{
    let Some(name) = name_in(f, run) else {
        return false;
    };
    writing || no_zero(name)
}

// One field: its name, a zero byte and the numbers, the signed ones as their bits.
fn put_field(f: &FieldDescription, run: &[u8], out: &mut [u8], at: usize) -> usize
    requires { (f.now.name.start + f.now.name.len ≤ length run.now) × (at + (f.now.name.len + 19) ≤ length out.old) }
    ensures { Wrote out.old at (item_bytes row_field (row_field_given f.now run.now)) (f.now.name.len + 19) out.new result }
{
    let start = f.name.start;
    let at = put_text(out, at, &run[start..start + f.name.len]);
    let table = bits32(f.table_id);
    let column = bits16(f.column_id);
    let size = bits16(f.type_size);
    let modifier = bits32(f.type_modifier);
    let format = bits16(f.format_code);
    put_pairs(out, at, table, column, f.type_id, size, modifier, format)
}

// One field's turn in a pass: it is measured, and written where the pass writes. Tests are joined by `&`, as in `encode`. The field is lent, so that the pass
// that measures reads its name alone.
fn step(c: Pass, f: &FieldDescription, run: &[u8], out: &mut [u8]) -> Pass
    ensures { (result ≡ P.step_pass c f.now run.now) × (out.new ≡ P.step_out c f.now run.now out.old) }
{
    let at = plus(c.at, plus(f.name.len, 19));
    let able = name_able(*f, run, c.writing);
    if c.writing & able & (at <= out.len()) {
        put_field(f, run, out, c.at);
    }
    let ok = c.ok & able;
    Pass { at, ok, ..c }
}

// A pass over all fields.
pub fn each(fields: &[FieldDescription], run: &[u8], out: &mut [u8], c: Pass) -> Pass
    ensures { (result ≡ P.all_pass fields.now run.now c)
        × (out.new ≡ P.all_out fields.now run.now out.old c) }
{
    let mut c = c;
    for f in fields {
        c = step(c, f, run, out);
    }
    c
}

// The answer to what was measured; where it is a number of bytes, the frame's head and the count are written.
pub fn begin(measured: Pass, count: usize, out: &mut [u8]) -> Result<usize, Refused>
    ensures { (encoded result ≡ P.answered measured count (length out.old)) × (out.new ≡ P.begun (encoded result) count out.old) }
{
    let able = (count <= MOST_SIGNED) & measured.ok;
    let size = plus(measured.at, 6);
    let n = verdict(able, LARGE, size, out.len())?;
    let at = put_head(out, MESSAGE_TYPE_BYTE_ROW_DESCRITION, n);
    put_half(out, at, count as u16);
    Ok(n)
}

// The second pass at its start: it writes where the answer is a number of bytes. Why there is none it does not ask.
pub fn writing_pass<E: Copy>(r: Result<usize, E>) -> Pass
    ensures { result ≡ P.writing_pass (P.told r) }
{
    Pass {
        at: 7,
        ok: true,
        writing: r.is_ok(),
    }
}
