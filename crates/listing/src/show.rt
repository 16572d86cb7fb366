// What a line prints, laid out in a lent slice; each function answers how many characters that is.
ghost use Rattle.std.specs.Prelude.{◌≡◌, ◌++◌, ◌+◌, ◌*◌, ◌≤◌, length};
ghost use Rattle.octets.specs.Little.{le16};
ghost use Rattle.record.specs.Coding.{record_at};
ghost use Rattle.lines.specs.Printed.{head_line, line_for, Laid};
ghost use Rattle.listing.specs.Sizes.{reply_room};
ghost use Rattle.listing.specs.Session.{refusal_print};
ghost use Rattle.listing.specs.Listing.{lines_in};
ghost use Rattle.listing.specs.Memory.{refusal_in};

use answers::Refusal;
use lines::print::{lay_head, lay_record, lay_refused};

// "refused" and the number; an accepted call prints nothing.
pub fn lay_refusal(out: &mut [u8], answer: Result<(), Refusal>) -> usize
    requires { 20 ≤ length out.old }
    ensures { Laid out.old out.new 0 result (refusal_print (refusal_in answer)) }
{
    match answer {
        Ok(()) => 0,
        Err(refusal) => lay_refused(out, u32::from(refusal)),
    }
}

// Lays out, from place `at` on, the line of record i of a listing, of ten bytes each: the record's eight, then its level in two.
fn lay_listed(out: &mut [u8], at: usize, listing: &[u8], i: usize) -> usize
    requires { (at + 56 ≤ length out.old) × (10 * i + 10 ≤ length listing.now) }
    ensures { Laid out.old out.new at result
        (line_for (le16 listing.now (10 * i + 8)) (record_at listing.now (10 * i))) × (result ≤ at + 56) }
{
    let p = 10 * i;
    let r = record::decode(listing, p);
    let level = octets::get_u16(listing, p + 8);
    lay_record(out, at, level, r)
}

// A listing's head line, then the lines of its first n records.
pub fn lay_listing(out: &mut [u8], listing: &[u8], n: usize) -> usize
    requires { (length out.old ≡ reply_room) × (n ≤ 512) × (10 * n ≤ length listing.now) }
    ensures { Laid out.old out.new 0 result (head_line ++ lines_in n listing.now) }
{
    let mut at = lay_head(out);
    for i in 0..n {
        at = lay_listed(out, at, listing, i);
    }
    at
}
