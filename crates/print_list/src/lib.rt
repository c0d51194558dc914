// The lines of a list, from its words, put into a slice of bytes that the caller lends. The result is the count of the bytes, of which those past the
// slice's end are not stored.
#![tactic(auto)]

ghost use Rattle.std.specs.Prelude.{◌≡◌, ◌<◌, length};
ghost use Rattle.lifting.specs.Words.{inst_from, list_from};
ghost use Rattle.print_bytes.specs.Put.{PutBytes};
ghost use Rattle.print_bytes.specs.Prints.{Prints};
ghost use Rattle.print_bytes.specs.Shown.{inst_bytes, list_bytes};
ghost use Rattle.print_bytes.specs.Lines.{head_bytes};
ghost use Rattle.print_bytes.specs.Taken.{head_from, inst_size, Next};

use print_bytes::Printer;
use print_forms::{put_id_form, put_imm_form, word};

// `(OPCODE ATTRS TYPE RESULT`.
fn put_head(out: &mut Printer, opcode: u32, attrs: u32, ty: u32, res: u32)
    ensures { Prints out.old (head_bytes opcode attrs ty res) out.new }
{
    out.put_byte(b'(');
    out.put_number(opcode);
    out.put_field(attrs);
    out.put_field(ty);
    out.put_field(res);
}

// `(OPCODE ATTRS TYPE RESULT` of the instruction whose words stand at the front of these.
fn put_front(out: &mut Printer, words: &[u32])
    ensures { Prints out.old (head_from words.now) out.new }
{
    put_head(
        out,
        word(words, 0),
        word(words, 1),
        word(words, 2),
        word(words, 3),
    );
}

// The line of that instruction.
fn put_inst(out: &mut Printer, words: &[u32])
    ensures { Prints out.old (inst_bytes (inst_from words.now).got) out.new }
{
    put_front(out, words);
    put_imm_form(out, words);
    put_id_form(out, words);
    out.put_bytes(b")\n");
}

// How many words that instruction has.
fn inst_size(words: &[u32]) -> usize
    ensures { result ≡ inst_size words.now }
{
    let imms = word(words, 4) as usize;
    6 + 3 * imms + word(words, 5 + 3 * imms) as usize
}

// The place behind the instruction at a place, or the end of the words.
fn next_inst(words: &[u32], from: usize) -> usize
    requires { from < length words.now }
    ensures { Next words.now from result }
{
    let size = inst_size(&words[from..]);
    if size < words.len() - from {
        return from + size;
    }
    words.len()
}

// The lines of the instructions whose words these are.
pub fn list(words: &[u32], out: &mut [u8]) -> usize
    ensures { PutBytes out.old 0 (list_bytes (list_from words.now)) out.new result }
{
    let mut lines = Printer { out, at: 0 };
    let mut from: usize = 0;
    while from < words.len() {
        put_inst(&mut lines, &words[from..]);
        from = next_inst(words, from);
    }
    lines.at
}
