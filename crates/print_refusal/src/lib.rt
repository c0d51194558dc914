// The line of a refusal, and the line of the reader's answer, put into a slice of bytes that the caller lends. The result is the count of the bytes,
// of which those past the slice's end are not stored.
#![tactic(auto)]

ghost use Rattle.refusals.specs.declared.Refusal.TheVariants.{Forms};
ghost use Rattle.refusals.specs.Numbers.{refusal_number};
ghost use Rattle.print_bytes.specs.Put.{PutBytes};
ghost use Rattle.print_bytes.specs.Shown.{refused_bytes};
ghost use Rattle.print_refusal.specs.Line.{line_of};

use print_bytes::Printer;
use refusals::Refusal;

// The line of a refusal.
pub fn refused(n: u32, out: &mut [u8]) -> usize
    ensures { PutBytes out.old 0 (refused_bytes n) out.new result }
{
    let mut line = Printer { out, at: 0 };
    line.put_bytes(b"(refused");
    line.put_field(n);
    line.put_bytes(b")\n");
    line.at
}

// That of an input with a bad first line, which is refusal 2.
pub fn bad_line(out: &mut [u8]) -> usize
    ensures { PutBytes out.old 0 (refused_bytes (refusal_number Forms)) out.new result }
{
    refused(u32::from(Refusal::Forms), out)
}

// The bytes of the line for an answer stand in `bytes`: how many.
pub fn put_line(bytes: &mut [u8], parsed: Result<(), Refusal>) -> usize
    ensures { PutBytes bytes.old 0 (line_of parsed) bytes.new result }
{
    let mut line = Printer { out: bytes, at: 0 };
    match parsed {
        Ok(()) => line.put_bytes(b"accepted\n"),
        Err(r) => {
            line.put_number(u32::from(r));
            line.put_byte(b'\n');
        }
    }
    line.at
}
