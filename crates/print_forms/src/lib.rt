// The forms `(imms ..)` and `(ids ..)` of an instruction, from its words. Words that the instruction's own counts ask for and that are not there are
// left out.
#![tactic(auto)]

ghost use Rattle.std.specs.Prelude.{◌≡◌, get_or, take, drop};
ghost use Rattle.lifting.specs.Words.{inst_from};
ghost use Rattle.print_bytes.specs.Prints.{Prints};
ghost use Rattle.print_bytes.specs.Lines.{imm_form_bytes, id_form_bytes};

use print_bytes::Printer;
use print_operands::{put_ids, put_imms};

// The word at a place, 0 past the end.
pub fn word(words: &[u32], at: usize) -> u32
    ensures { result ≡ get_or words.now at 0 }
{
    words.get(at).copied().unwrap_or(0)
}

// The first n words, or all of them where there are fewer.
fn front(words: &[u32], n: usize) -> &[u32]
    ensures { result.now ≡ take n words.now }
{
    &words[..n.min(words.len())]
}

// The words from the n-th on, none where there are fewer.
fn rest(words: &[u32], n: usize) -> &[u32]
    ensures { result.now ≡ drop n words.now }
{
    &words[n.min(words.len())..]
}

// ` (imms ..)` of the instruction whose words stand at the front of these.
pub fn put_imm_form(out: &mut Printer, words: &[u32])
    ensures { Prints out.old (imm_form_bytes (inst_from words.now).got.imms) out.new }
{
    out.put_bytes(b" (imms");
    put_imms(out, rest(words, 5), word(words, 4));
    out.put_byte(b')');
}

// ` (ids ..)` of that instruction.
pub fn put_id_form(out: &mut Printer, words: &[u32])
    ensures { Prints out.old (id_form_bytes (inst_from words.now).got.ids) out.new }
{
    let imms = word(words, 4) as usize;
    let ids = word(words, 5 + 3 * imms) as usize;
    out.put_bytes(b" (ids");
    put_ids(out, front(rest(words, 6 + 3 * imms), ids));
    out.put_byte(b')');
}
