// Little-endian numbers and packed slots in a lent slice of bytes.
#![tactic(auto)]

ghost use Rattle.std.specs.Prelude.{◌≡◌, [], ◌∷◌, ◌+◌, ◌-◌, ◌*◌, ◌<◌, ◌≤◌, length, get_or};
ghost use Rattle.model.specs.Lists.{store};
ghost use Rattle.octets.specs.Little.{le16, le32, signed32, le32s, bits32, bytes2, bytes4};
ghost use Rattle.octets.specs.Slots.{moved};

// The byte at p.
pub fn get_u8(s: &[u8], p: usize) -> u32
    requires { p < length s.now }
    ensures { (result ≡ get_or s.now p 0) × (result < 256) }
{
    s[p] as u32
}

// The number in the two bytes at p.
pub fn get_u16(s: &[u8], p: usize) -> u32
    requires { p + 2 ≤ length s.now }
    ensures { (result ≡ le16 s.now p) × (result < 65536) }
{
    u32::from(u16::from_le_bytes([s[p], s[p + 1]]))
}

// The number in the four bytes at p.
pub fn get_u32(s: &[u8], p: usize) -> u32
    requires { p + 4 ≤ length s.now }
    ensures { result ≡ le32 s.now p }
{
    u32::from_le_bytes([s[p], s[p + 1], s[p + 2], s[p + 3]])
}

// The signed number in the four bytes at p.
pub fn get_i32(s: &[u8], p: usize) -> i32
    requires { p + 4 ≤ length s.now }
    ensures { result ≡ le32s s.now p }
{
    get_u32(s, p).cast_signed()
}

// Stores the byte v at p.
pub fn put_u8(s: &mut [u8], p: usize, v: u32)
    requires { (p < length s.old) × (v < 256) }
    ensures { s.new ≡ store s.old p (v ∷ []) }
{
    s[p] = v as u8;
}

// Stores v in the two bytes at p.
pub fn put_u16(s: &mut [u8], p: usize, v: u32)
    requires { (p + 2 ≤ length s.old) × (v < 65536) }
    ensures { s.new ≡ store s.old p (bytes2 v) }
{
    s[p..p + 2].copy_from_slice(&(v as u16).to_le_bytes());
}

// Stores v in the four bytes at p.
pub fn put_u32(s: &mut [u8], p: usize, v: u32)
    requires { p + 4 ≤ length s.old }
    ensures { s.new ≡ store s.old p (bytes4 v) }
{
    s[p..p + 4].copy_from_slice(&v.to_le_bytes());
}

// Stores the signed number z in the four bytes at p.
pub fn put_i32(s: &mut [u8], p: usize, z: i32)
    requires { p + 4 ≤ length s.old }
    ensures { s.new ≡ store s.old p (bytes4 (bits32 z)) }
{
    put_u32(s, p, z.cast_unsigned());
}

// Moves the n bytes from place q on up by w places.
// Kept: tried and slower: `copy_within` takes a third longer for a few slots, and twice as long for a whole group.
fn move_up(s: &mut [u8], q: usize, n: usize, w: usize)
    requires { q + n + w ≤ length s.old }
    ensures { s.new ≡ moved s.old (q + w) q n }
{
    for j in (0..n).rev() {
        s[q + w + j] = s[q + j];
    }
}

// Moves the n bytes that stand w places above place q down to it.
fn move_down(s: &mut [u8], q: usize, n: usize, w: usize)
    requires { q + n + w ≤ length s.old }
    ensures { s.new ≡ moved s.old q (q + w) n }
{
    for j in 0..n {
        s[q + j] = s[q + w + j];
    }
}

// Of `used` slots of `width` bytes from base on, moves those from slot i on up by one slot.
pub fn open_slot(s: &mut [u8], base: usize, width: usize, used: usize, i: usize)
    requires { (i ≤ used) × (base + (used + 1) * width ≤ length s.old) }
    ensures { s.new ≡ moved s.old (base + i * width + width) (base + i * width) ((used - i) * width) }
{
    let q = base + i * width;
    move_up(s, q, (used - i) * width, width);
}

// Of `used` slots of `width` bytes from base on, moves those behind slot i down by one slot.
pub fn close_slot(s: &mut [u8], base: usize, width: usize, used: usize, i: usize)
    requires { (i < used) × (base + used * width ≤ length s.old) }
    ensures { s.new ≡ moved s.old (base + i * width) (base + i * width + width) ((used - (i + 1)) * width) }
{
    let q = base + i * width;
    move_down(s, q, (used - (i + 1)) * width, width);
}
