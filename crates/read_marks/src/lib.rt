// Where a case ends in the bytes of a batch, by the line `%%` behind it, and the bytes that are kept of it.
#![tactic(auto)]

ghost use Rattle.std.specs.Prelude.{◌≡◌, ◌+◌, ◌≤◌, ◌<◌, length, drop};
ghost use Rattle.std.proofs.Math.Seq.{paste};
ghost use Rattle.read_marks.specs.Cut.{matched_after, cut_of, fitting_bytes};

// Where the bytes of a case end that were read, and how many bytes of "\n%%\n" they end with: a count, to which a byte adds one, so no enum.
#[derive(Clone, Copy)]
pub struct Place {
    pub end: usize,
    pub matched: u32,
}

// How many bytes of "\n%%\n" were matched, after one byte more.
#[tactic(auto, unfolding(crate::specs::Cut::matched_after, crate::specs::Cut::percent_after))]
fn matched_after(m: u32, b: u8) -> u32
    ensures { result ≡ matched_after m b }
{
    match (b, m) {
        (b'\n', 3) => 4,
        (b'\n', _) => 1,
        (b'%', 1) => 2,
        (b'%', 4) => 2,
        (b'%', 2) => 3,
        _ => 0,
    }
}

// The bytes from a place on, up to the end of a line `%%` that ends a case, or to the end of those that were read. `matched` says how many bytes
// of "\n%%\n" stand before the place, 1 at the start of a batch; where the answer has 4 a case ends.
pub fn cut(batch: &[u8], from: usize, matched: u32) -> Place
    requires { from ≤ length batch.now }
    ensures matched_value { (result.end, result.matched) ≡ cut_of from matched (drop from batch.now) }
    ensures end_in_bounds { (result.end ≤ length batch.now) × (from ≤ result.end) × (from < length batch.now → from < result.end) }
{
    let mut seen = matched;
    for at in from..batch.len() {
        seen = matched_after(seen, batch[at]);
        if seen == 4 {
            return Place {
                end: at + 1,
                matched: 4,
            };
        }
    }
    Place {
        end: batch.len(),
        matched: seen,
    }
}

// Puts as much of a part as fits behind the first `len` bytes of a case, and gives the new count.
#[tactic(auto, unfolding(crate::specs::Cut::fitting_bytes))]
pub fn keep(text: &mut [u8], len: usize, part: &[u8]) -> usize
    requires { len ≤ length text.old }
    ensures value { result ≡ len + fitting_bytes text.old len part.now }
    ensures text_after { text.new ≡ paste text.old len part.now (fitting_bytes text.old len part.now) }
    ensures text_len_unchanged { (length text.new ≡ length text.old) × (result ≤ length text.old) }
{
    let n = part.len().min(text.len() - len);
    text[len..len + n].copy_from_slice(&part[..n]);
    len + n
}
