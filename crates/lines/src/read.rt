// Which call a line of a script is.
ghost use Rattle.std.specs.Prelude.{◌≡◌, ◌+◌, ◌*◌, ◌≤◌, length, position};
ghost use Rattle.model.specs.Lists.{store};
ghost use Rattle.model.specs.Options.{as_option};
ghost use Rattle.lines.specs.Script.{digits_from, number_in, field_at, numbers_from, line_of, numbers_of};
ghost use Rattle.lines.specs.Script.{takes as takes_numbers};
ghost use Rattle.lines.specs.Reading.{number_of_operation, operation_of, line_answer, other, is_there, values_from};

// What a line asks for.
#[derive(Clone, Copy, PartialEq, Eq)]
pub enum Operation {
    Format,
    Flush,
    LookUp,
    Collect,
    Compact,
    List,
}

impl Operation {
    // The operation of that number.
    fn from_number(n: u32) -> Option<Operation>
        ensures { result ≡ operation_of n }
    {
        match n {
            1 => Some(Operation::Format),
            2 => Some(Operation::Flush),
            3 => Some(Operation::LookUp),
            4 => Some(Operation::Collect),
            5 => Some(Operation::Compact),
            6 => Some(Operation::List),
            _ => None,
        }
    }

    // Whether it takes that many numbers.
    fn takes(self, count: usize) -> bool
        ensures { result ≡ takes_numbers (number_of_operation self) count }
    {
        match self {
            Operation::Format => count == 4,
            Operation::Flush => count <= 64,
            Operation::Collect => count == 0,
            Operation::LookUp | Operation::Compact | Operation::List => count == 1,
        }
    }
}

// An operation and how many numbers it has.
#[derive(Clone, Copy, PartialEq, Eq)]
pub struct Call {
    pub operation: Operation,
    pub count: usize,
}

// The number of these digits.
fn digits(text: &[u8]) -> Option<u32>
    requires { length text.now ≤ 9 }
    ensures { as_option result ≡ digits_from 0 text.now }
{
    let mut v: u32 = 0;
    for c in text {
        if !c.is_ascii_digit() {
            return None;
        }
        v = 10 * v + u32::from(*c - b'0');
    }
    Some(v)
}

// Where the first character stands that is no blank.
fn behind_blanks(field: &[u8]) -> Option<usize>
    ensures { result ≡ position other field.now }
{
    field.iter().position(|c| *c != b' ')
}

// The number that is right-justified in a field.
fn number(field: &[u8]) -> Option<u32>
    requires { length field.now ≤ 9 }
    ensures { as_option result ≡ number_in field.now }
{
    let i = behind_blanks(field)?;
    digits(&field[i..])
}

// Number i of the line.
fn number_at(line: &[u8], i: usize) -> Option<u32>
    requires { 10 + 8 * i ≤ length line.now }
    ensures { as_option result ≡ number_in (field_at line.now i) }
{
    let a = 2 + 8 * i;
    number(&line[a..a + 8])
}

// Whether each of the first `count` fields holds a number.
fn all_numbers(line: &[u8], count: usize) -> bool
    requires { 2 + 8 * count ≤ length line.now }
    ensures { result ≡ is_there (numbers_from line.now 0 count) }
{
    for i in 0..count {
        if number_at(line, i).is_none() {
            return false;
        }
    }
    true
}

// Stores the values of the first `count` fields, 0 where a field holds none.
fn fill(line: &[u8], count: usize, numbers: &mut [u32])
    requires { (2 + 8 * count ≤ length line.now) × (count ≤ length numbers.old) }
    ensures { numbers.new ≡ store numbers.old 0 (values_from line.now 0 count) }
{
    for i in 0..count {
        numbers[i] = number_at(line, i).unwrap_or(0);
    }
}

// Which call the line is; its numbers are stored at the start of the slice. A bad line is none, and stores none.
pub fn read(line: &[u8], numbers: &mut [u32]) -> Option<Call>
    requires { 64 ≤ length numbers.old }
    ensures { (result ≡ line_answer (line_of line.now))
        × (numbers.new ≡ store numbers.old 0 (numbers_of (line_of line.now))) }
{
    if line.len() < 2 || (line.len() - 2) % 8 != 0 {
        return None;
    }
    let count = (line.len() - 2) / 8;
    let operation = Operation::from_number(number(&line[..2])?)?;
    if !operation.takes(count) || !all_numbers(line, count) {
        return None;
    }
    fill(line, count, numbers);
    Some(Call { operation, count })
}
