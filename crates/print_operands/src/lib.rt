// The operands of an instruction, from their words: immediates and ids.
#![tactic(auto)]

ghost use Rattle.lifting.specs.Words.{imms_from};
ghost use Rattle.print_bytes.specs.Prints.{Prints};
ghost use Rattle.print_bytes.specs.Lines.{imm_bytes, imms_bytes, ids_bytes};
ghost use Rattle.print_bytes.specs.Taken.{taken_imm};

use print_bytes::Printer;

// ` (KIND OPERANDKIND WORD)`.
fn put_imm(out: &mut Printer, kind: u32, operand: u32, word: u32)
    ensures { Prints out.old (imm_bytes (taken_imm kind operand word)) out.new }
{
    out.put_bytes(b" (");
    out.put_number(kind);
    out.put_field(operand);
    out.put_field(word);
    out.put_byte(b')');
}

// The first n immediates of these words.
pub fn put_imms(out: &mut Printer, words: &[u32], n: u32)
    ensures { Prints out.old (imms_bytes (imms_from n words.now).got) out.new }
{
    let mut left = words;
    for _ in 0..n {
        let [kind, operand, word, rest @ ..] = left else {
            break;
        };
        put_imm(out, *kind, *operand, *word);
        left = rest;
    }
}

// Each of these words after a space.
pub fn put_ids(out: &mut Printer, words: &[u32])
    ensures { Prints out.old (ids_bytes words.now) out.new }
{
    for word in words {
        out.put_field(*word);
    }
}
