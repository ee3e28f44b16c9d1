// The listing's lines, in ASCII, one behind another.
ghost use Rattle.std.specs.Prelude.{◌≡◌, ◌+◌, ◌*◌, ◌≤◌, ◌++◌, length};
ghost use Rattle.lister.specs.Text.{decimal, unit_line, total_line, lines_by, modulo};

use arrayvec::ArrayVec;

// A line for each mark, and the total, fit. What each function needs of it stands in its requires, since each needs another length.
const TEXT_SPACE: usize = 65_536;

// The memory is fixed, whatever the stream: so this is no String.
pub(crate) type Text = ArrayVec<u8, TEXT_SPACE>;

fn put(text: &mut Text, word: &[u8])
    requires { length text.old.items + length word.now ≤ TEXT_SPACE }
    ensures { text.new.items ≡ text.old.items ++ word.now }
{
    text.try_extend_from_slice(word).unwrap()
}

// A number, which has twenty digits at most.
#[tactic(auto, using(crate::proofs::Digits::decimal_is))]
fn put_decimal(text: &mut Text, n: u64)
    requires { length text.old.items + 20 ≤ TEXT_SPACE }
    ensures digits { text.new.items ≡ text.old.items ++ decimal n }
    ensures few { length text.new.items ≤ length text.old.items + 20 }
{
    let mut digits = [0; 20];
    let count = io::decimal(n, &mut digits);
    put(text, &digits[..count]);
}

// The line `unit I LENGTH`, of 47 bytes at most.
fn unit_line(text: &mut Text, index: u64, bytes: u64)
    requires { length text.old.items + 47 ≤ TEXT_SPACE }
    ensures line { text.new.items ≡ text.old.items ++ unit_line index bytes }
    ensures few { length text.new.items ≤ length text.old.items + 47 }
{
    put(text, b"unit ");
    put_decimal(text, index);
    put(text, b" ");
    put_decimal(text, bytes);
    put(text, b"\n");
}

// A line for each of these lengths; `first` is the index of the first unit.
pub(crate) fn unit_lines(text: &mut Text, lengths: &[u64], first: u64)
    requires { length text.old.items + length lengths.now * 47 ≤ TEXT_SPACE }
    ensures lines { text.new.items ≡ text.old.items ++ lines_by modulo first lengths.now }
    ensures few { length text.new.items ≤ length text.old.items + length lengths.now * 47 }
{
    for (i, bytes) in lengths.iter().enumerate() {
        unit_line(text, first.wrapping_add(i as u64), *bytes);
    }
}

// The line `units N`, of 27 bytes at most, behind the others.
pub(crate) fn total_line(lines: &mut Text, n: u64)
    requires { length lines.old.items + 27 ≤ TEXT_SPACE }
    ensures { lines.new.items ≡ lines.old.items ++ total_line n }
{
    put(lines, b"units ");
    put_decimal(lines, n);
    put(lines, b"\n");
}
