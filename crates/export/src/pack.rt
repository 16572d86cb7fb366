// A call's answer as one number: `refusal × 2^60 + …`.
ghost use Rattle.std.specs.Prelude.{◌≡◌, IfOk, MatchResult};
ghost use Rattle.calls.specs.Outcome.{flushed, collected, refused};
ghost use Rattle.calls.specs.Bounds.{Bounded};
ghost use Rattle.answers.specs.Answers.{refusal_of, found_or_not, plainly_found};
ghost use Rattle.export.specs.Packing.{packed, page_alone};

use answers::{Collected, Flushed, Looked, Refusal};

// The places of the fields behind the first.
const BIT20: u64 = 1048576;

const BIT40: u64 = 1099511627776;

const BIT56: u64 = 72057594037927936;

const BIT60: u64 = 1152921504606846976;

// A call's answer: the fields of what was accepted, or the refusal's number in the highest.
pub fn packed<T, F: FnOnce(T) -> u64>(answer: Result<T, Refusal>, fields: F) -> u64
    requires { IfOk answer (F.pre fields) }
    ensures { MatchResult answer (λ a. F.post fields a result) (λ r. result ≡ packed (refused (refusal_of r))) }
{
    match answer {
        Ok(accepted) => fields(accepted),
        Err(refusal) => u64::from(u32::from(refusal)) * BIT60,
    }
}

pub fn flushed(f: Flushed) -> u64
    ensures { result ≡ packed (flushed f.first f.count) }
{
    u64::from(f.count) * BIT20 + u64::from(f.first)
}

pub fn looked(a: Looked) -> u64
    requires { Bounded (found_or_not a) }
    ensures { result ≡ packed (found_or_not a) }
{
    match a {
        Looked::Found(f) => {
            BIT56 + u64::from(f.levels) * BIT40 + u64::from(f.predicted) * BIT20 + u64::from(f.page)
        }
        Looked::NotWritten(levels) => u64::from(levels) * BIT40,
    }
}

// A plain lookup's fields: the page alone.
pub fn page(a: Option<u32>) -> u64
    ensures { result ≡ packed (page_alone (plainly_found a)) }
{
    match a {
        Some(p) => BIT56 + u64::from(p),
        None => 0,
    }
}

pub fn collected(c: Collected) -> u64
    requires { Bounded (collected c.first c.count c.erased) }
    ensures { result ≡ packed (collected c.first c.count c.erased) }
{
    u64::from(c.erased) * BIT40 + u64::from(c.count) * BIT20 + u64::from(c.first)
}
