// The lines that are printed, laid out in a lent slice.
ghost use Rattle.std.specs.Prelude.{false, [], ◌∷◌, ◌+◌, ◌-◌, ◌≤◌, length, replicate};
ghost use Rattle.lines.specs.Printed.{decimal, signed, integer, right, head_line, line_for, refused_line, bad_line, Laid};

use record::Record;

// Lays a text out from place `at` on, and answers the place behind it.
fn put_text(out: &mut [u8], at: usize, text: &[u8]) -> usize
    requires { at + length text.now ≤ length out.old }
    ensures { Laid out.old out.new at result text.now }
{
    let end = at + text.len();
    out[at..end].copy_from_slice(text);
    end
}

// Lays one character out.
fn put_byte(out: &mut [u8], at: usize, c: u8) -> usize
    requires { at + 1 ≤ length out.old }
    ensures { Laid out.old out.new at result (c ∷ []) }
{
    out[at] = c;
    at + 1
}

// Lays out the blanks in front of a text of `used` characters, up to the width.
fn put_blanks(out: &mut [u8], at: usize, width: usize, used: usize) -> usize
    requires { at + (width - used) ≤ length out.old }
    ensures { Laid out.old out.new at result (replicate (width - used) 32) }
{
    let end = at + width.saturating_sub(used);
    out[at..end].fill(b' ');
    end
}

// Lays digits out right-justified, with a minus sign in front of the first or without.
fn put_digits(out: &mut [u8], at: usize, width: usize, negative: bool, digits: &[u8]) -> usize
    requires { (at + width ≤ length out.old) × (at + (1 + length digits.now) ≤ length out.old) }
    ensures { Laid out.old out.new at result (right width (signed negative digits.now)) }
{
    if negative {
        let p = put_blanks(out, at, width, digits.len() + 1);
        let q = put_byte(out, p, b'-');
        put_text(out, q, digits)
    } else {
        let p = put_blanks(out, at, width, digits.len());
        put_text(out, p, digits)
    }
}

// Lays n out in decimal, right-justified, with a minus sign or without.
fn put_number(out: &mut [u8], at: usize, width: usize, negative: bool, n: u32) -> usize
    requires { (width ≤ 11) × (at + 11 ≤ length out.old) }
    ensures { Laid out.old out.new at result (right width (signed negative (decimal n))) × (result ≤ at + 11) }
{
    let mut text = [0u8; 20];
    let k = io::decimal(u64::from(n), &mut text);
    put_digits(out, at, width, negative, &text[..k])
}

// Lays an integer out right-justified.
fn put_integer(out: &mut [u8], at: usize, width: usize, z: i32) -> usize
    requires { (width ≤ 11) × (at + 11 ≤ length out.old) }
    ensures { Laid out.old out.new at result (right width (integer z)) × (result ≤ at + 11) }
{
    put_number(out, at, width, z < 0, z.unsigned_abs())
}

// A record's line, of at most 56 characters.
pub fn lay_record(out: &mut [u8], at: usize, level: u32, r: Record) -> usize
    requires { at + 56 ≤ length out.old }
    ensures { Laid out.old out.new at result (line_for level r) × (result ≤ at + 56) }
{
    let a = put_number(out, at, 6, false, level);
    let b = put_number(out, a, 6, false, r.start);
    let c = put_number(out, b, 6, false, r.span);
    let d = put_number(out, c, 6, false, r.word);
    let e = put_integer(out, d, 10, r.intercept);
    put_byte(out, e, b'\n')
}

// The head line of a listing.
pub fn lay_head(out: &mut [u8]) -> usize
    requires { 35 ≤ length out.old }
    ensures { Laid out.old out.new 0 result head_line }
{
    put_text(out, 0, b" LEVEL START  SPAN  WORD INTERCEPT\n")
}

// The line of a refusal.
pub fn lay_refused(out: &mut [u8], n: u32) -> usize
    requires { 20 ≤ length out.old }
    ensures { Laid out.old out.new 0 result (refused_line n) }
{
    let a = put_text(out, 0, b"refused ");
    let b = put_number(out, a, 0, false, n);
    put_byte(out, b, b'\n')
}

// The line for a bad line.
pub fn lay_bad(out: &mut [u8]) -> usize
    requires { 9 ≤ length out.old }
    ensures { Laid out.old out.new 0 result bad_line }
{
    put_text(out, 0, b"bad line\n")
}
