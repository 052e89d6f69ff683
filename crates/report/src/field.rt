// A line per field: name, level, `whole` or `partial`, value.
ghost use Rattle.std.specs.Prelude.{◌≡◌, ◌+◌, ◌≤◌, length};
ghost use Rattle.names.specs.Names.{NameIn};
ghost use Rattle.store.specs.Marks.{mark_of};
ghost use Rattle.store.specs.Stores.{cell_at, store_length};
ghost use Rattle.report.specs.Inside.Given.{Entries};
ghost use Rattle.report.specs.Inside.Putting.{Put};
ghost use Rattle.report.specs.Text.{without_zero, name_of, mark_word, mark_text, cell_text, field_line, field_lines};

use crate::number::{put_byte, put_part, put_signed, put_text};

// A byte of a name, if it is not zero.
fn put_unless_zero(out: &mut [u8], at: usize, byte: u8) -> usize
    ensures { Put out.old out.new at (without_zero byte) result }
{
    if byte == 0 {
        at
    } else {
        put_byte(out, at, byte)
    }
}

// Field i's name.
fn put_name(out: &mut [u8], at: usize, fields: &[u8], i: usize) -> usize
    requires { NameIn fields.now i }
    ensures { Put out.old out.new at (name_of fields.now i) result }
{
    let mut end = at;
    for &byte in &fields[i * 8..i * 8 + 8] {
        end = put_unless_zero(out, end, byte);
    }
    end
}

// Whether a mark is whole or partial.
fn mark_word(mark: u32) -> &'static [u8]
    ensures { result.now ≡ mark_word (mark_of mark) }
{
    if store::is_partial(mark) {
        b"partial"
    } else {
        b"whole"
    }
}

// A mark's level, and whether it is whole or partial.
fn put_mark(out: &mut [u8], at: usize, mark: u32) -> usize
    ensures { Put out.old out.new at (mark_text (mark_of mark)) result }
{
    let level = put_part(out, at, store::level_said(mark));
    let blank = put_byte(out, level, b' ');
    put_text(out, blank, mark_word(mark))
}

// Field i's mark and value.
fn put_cell(out: &mut [u8], at: usize, store: &[u8], i: usize) -> usize
    requires { store_length (i + 1) ≤ length store.now }
    ensures { Put out.old out.new at (cell_text (cell_at store.now i)) result }
{
    let mark = put_mark(out, at, store::mark_at(store, i));
    let blank = put_byte(out, mark, b' ');
    put_signed(out, blank, store::value_at(store, i))
}

// Field i's line.
fn put_line(out: &mut [u8], at: usize, fields: &[u8], store: &[u8], i: usize) -> usize
    requires { NameIn fields.now i × (store_length (i + 1) ≤ length store.now) }
    ensures { Put out.old out.new at (field_line fields.now store.now i) result }
{
    let name = put_name(out, at, fields, i);
    let cell = put_cell(out, name, store, i);
    put_byte(out, cell, b'\n')
}

/// All fields' lines.
pub fn put_lines(out: &mut [u8], at: usize, fields: &[u8], store: &[u8]) -> usize
    requires { Entries fields.now store.now }
    ensures { Put out.old out.new at (field_lines fields.now store.now) result }
{
    let mut end = at;
    for i in 0..fields.len() / 8 {
        end = put_line(out, end, fields, store, i);
    }
    end
}
