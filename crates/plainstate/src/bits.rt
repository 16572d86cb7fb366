// A bit for each page of the device, lowest first in its byte.
ghost use Rattle.std.specs.Prelude.{◌≡◌, ◌+◌, ◌-◌, ◌*◌, ◌%◌, ◌≤◌, ◌<◌, length};
ghost use Rattle.model.specs.Lists.{select};
ghost use Rattle.model.specs.Marks.{is_marked, mark};
ghost use Rattle.plainstate.specs.Bits.{bit_values, Marked};

// Page p is marked, by the values of a byte's bits.
pub fn name_page(bits: &mut [u8], values: &[u32], p: u32)
    requires { (p < 8 * length bits.old) × (values.now ≡ bit_values) }
    ensures { bits.new ≡ mark p bits.old }
{
    let i = (p / 8) as usize;
    let byte = octets::get_u8(bits, i);
    let value = values[(p % 8) as usize];
    octets::put_u8(bits, i, byte | value);
}

// The pages of the bytes i and i + 1 are marked.
pub fn fill_two(bits: &mut [u8], i: usize)
    requires { i + 1 < length bits.old }
    ensures { Marked (8 * i) (8 * (i + 2)) bits.old bits.new }
{
    bits[i] = 255;
    bits[i + 1] = 255;
}

// How many of the pages from a up to e are marked, one by one.
fn one_by_one(bits: &[u8], a: u32, e: u32) -> u32
    requires { (a ≤ e) × (e ≤ 8 * length bits.now) × (e ≤ 1048576) }
    ensures { result ≡ length (select (is_marked bits.now) (e - a) a) }
{
    let mut n = 0;
    for p in a..e {
        let byte = octets::get_u8(bits, (p / 8) as usize);
        n += (byte >> (p % 8)) % 2;
    }
    n
}

// How many of the pages from a, the first of a byte, up to e are marked: 32 at a time, as long as there are.
fn by_words(bits: &[u8], a: u32, e: u32) -> u32
    requires { (a ≤ e) × (e ≤ 8 * length bits.now) × (e ≤ 1048576) × (a % 8 ≡ 0) }
    ensures { result ≡ length (select (is_marked bits.now) (e - a) a) }
{
    let words = (e - a) / 32;
    let mut n = 0;
    for i in 0..words {
        let word = octets::get_u32(bits, (a / 8 + 4 * i) as usize);
        n += word.count_ones();
    }
    n + one_by_one(bits, a + 32 * words, e)
}

// How many of the pages from a up to e are marked.
pub fn ones(bits: &[u8], a: u32, e: u32) -> u32
    requires { (a ≤ e) × (e ≤ 8 * length bits.now) × (e ≤ 1048576) }
    ensures { result ≡ length (select (is_marked bits.now) (e - a) a) }
{
    let m = a.next_multiple_of(8);
    if e <= m {
        one_by_one(bits, a, e)
    } else {
        one_by_one(bits, a, m) + by_words(bits, m, e)
    }
}
