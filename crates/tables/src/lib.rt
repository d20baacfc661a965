// Tables of things of one width in bytes: taking one out, and a row of words put.
#![tactic(auto)]

ghost use Rattle.std.specs.Prelude.{◌≡◌, ◌++◌, ◌+◌, ◌-◌, ◌*◌, ◌≤◌, length, take, drop};
ghost use Rattle.wire.specs.Words.{word_bytes};
ghost use Rattle.tables.specs.Tables.{cells};
ghost use Rattle.tables.specs.Cut.{cut_out, Cell};

// Takes the w bytes at `at` out of the first `end`: the later ones move down, and the last w of them are zero.
fn cut_out(s: &mut [u8], at: usize, w: usize, end: usize)
    requires { Cell s.old at w end }
    ensures { s.new ≡ cut_out w end at s.old }
{
    s.copy_within(at + w..end, at);
    let from = end - w;
    s[from..end].fill(0);
}

// Takes the w bytes at `at` out of the first `end` bytes of the cells of a table, which then has `left` things.
pub fn remove(table: &mut [u8], at: usize, w: usize, end: usize, left: u32)
    requires { Cell table.old (4 + at) w (4 + end) }
    ensures { table.new ≡ word_bytes left ++ cut_out w end at (drop 4 table.old) }
{
    cut_out(&mut table[4..], at, w, end);
    wire::put_u32(table, 0, left);
}

// Writes the words one after the other from `at` on.
pub fn put_words(s: &mut [u8], at: usize, words: &[u32])
    requires { at + 4 * length words.now ≤ length s.old }
    ensures { s.new ≡ take at s.old ++ (cells word_bytes words.now ++ drop (at + 4 * length words.now) s.old) }
{
    for (k, word) in words.iter().enumerate() {
        wire::put_u32(s, at + 4 * k, *word);
    }
}
