// The work slice: where its tables begin (specs/Layout says what each holds, and that those that stand together lie apart), and how words of it are
// read and cleared. No crate above names a word by its number. The tables share one slice, since it is lent by the caller, in C too, and there is no heap;
// that it reaches to a table's end stays a clause, by table, as a stage writes some of them and keeps the others.
#![tactic(auto)]

ghost use Rattle.std.specs.Prelude.{◌≡◌, ◌+◌, ◌≤◌, ◌<◌, length, get_or, replicate};
ghost use Rattle.work.specs.Aside.{Cleared};

pub const ENTERED: usize = 0;

pub const ENTERED_END: usize = 128;

pub const STAMPS: usize = 128;

pub const ROOTS_END: usize = 512;

pub const LINES: usize = 512;

pub const CHILDREN: usize = 640;

pub const MARKS: usize = 768;

pub const TABLES_END: usize = 896;

pub const POINTS: usize = 896;

pub const PARENTS: usize = 1408;

pub const PARENTS_END: usize = 1536;

pub const USES: usize = 1536;

pub const USES_END: usize = 2048;

pub const STATUSES: usize = 2048;

pub const ABSORBS: usize = 2560;

pub const IDS: usize = 3072;

pub const INPUT_IDS: usize = 3072;

pub const OUTPUT_IDS: usize = 3200;

pub const RESULT_IDS: usize = 3328;

pub const LABEL_IDS: usize = 3840;

pub const IDS_END: usize = 4352;

pub const HEADS: usize = 4352;

pub const NEXTS: usize = 4864;

pub const ORIGINS: usize = 5888;

// Word i of a table.
pub fn word(work: &[u32], table: usize, i: usize) -> u32
    requires { table + i < length work.now }
    ensures { result ≡ get_or work.now (table + i) 0 }
{
    work[table + i]
}

// The same, as an index.
pub fn number(work: &[u32], table: usize, i: usize) -> usize
    requires { table + i < length work.now }
    ensures { result ≡ get_or work.now (table + i) 0 }
{
    word(work, table, i) as usize
}

// The words from `from` up to `to` are 0.
pub fn clear(work: &mut [u32], from: usize, to: usize)
    requires { (from ≤ to) × (to ≤ length work.old) }
    ensures cleared { Cleared from to work.old work.new }
    ensures work_len_unchanged { length work.new ≡ length work.old }
{
    work[from..to].fill(0);
}

// Every word of a lent slice is 0.
pub fn clear_all(words: &mut [u32])
    ensures { words.new ≡ replicate (length words.old) 0 }
{
    words.fill(0);
}
