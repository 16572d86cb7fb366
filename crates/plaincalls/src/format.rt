// Format: the device numbers, all blocks free, no logical page written.
ghost use Rattle.std.specs.Prelude.{◌≡◌, length, replicate};
ghost use Rattle.plain.specs.Table.{with_counts, with_entries, table_length, no_page};
ghost use Rattle.plain.specs.Calls.{format, blank_table};
ghost use Rattle.front.specs.Read.{numbers_of};
ghost use Rattle.answers.specs.Answers.{format_answer};
ghost use Rattle.plainstate.specs.Reading.{read_table};
ghost use Rattle.plainstate.specs.Shaped.{Shaped};
ghost use Rattle.plainstate.specs.Ran.{state_slices, Ran};

use answers::Refusal;
use front::device::write_numbers;
use front::{Head, Numbers};
use plainstate::counts::set_count;
use plainstate::entries::{NO_PAGE, set_entry};
use plainstate::places::table_len;

// Every block becomes free.
fn free_blocks(state: &mut [u8], d: Numbers)
    requires { Shaped (numbers_of d) (read_table state.old) }
    ensures { read_table state.new ≡ with_counts (replicate d.m 0) (read_table state.old) }
{
    for k in 0..d.m {
        set_count(state, d, k, 0);
    }
}

// No logical page is written any more.
fn clear_entries(state: &mut [u8], d: Numbers)
    requires { Shaped (numbers_of d) (read_table state.old) }
    ensures { read_table state.new ≡ with_entries (replicate d.n no_page) (read_table state.old) }
{
    for x in 0..d.n {
        set_entry(state, d, x, NO_PAGE);
    }
}

// The state of a device that holds nothing.
fn blank(state: &mut [u8], d: Numbers)
    requires { length state.old ≡ table_length (numbers_of d) }
    ensures { read_table state.new ≡ blank_table (numbers_of d) }
{
    write_numbers(state, d.head());
    free_blocks(state, d);
    clear_entries(state, d);
}

// Document 02's format of the plain engine.
pub fn format(m: u32, b: u32, n: u32, g: u32, state: &mut [u8]) -> Result<(), Refusal>
    ensures { Ran (format (record { M = m; B = b; N = n; g = g })) state.old (format_answer result) (state_slices state.new) }
{
    let Some(d) = Head { m, b, n, g }.checked() else {
        return Err(Refusal::BadNumbers);
    };
    if state.len() != table_len(d) {
        return Err(Refusal::BadLength);
    }
    blank(state, d);
    Ok(())
}
