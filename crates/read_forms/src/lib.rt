// The part of the text between a form's brackets, which is lent and not copied.
#![tactic(auto)]

ghost use Rattle.std.specs.Prelude.{◌≡◌, ◌+◌, ◌≤◌, ◌<◌};
ghost use Rattle.read_forms.specs.Form.{deeper, closes, form_at};

#[tactic(auto, using(crate::proofs::Laws::deeper_open, crate::proofs::Laws::deeper_close, crate::proofs::Laws::deeper_other))]
fn deeper(b: u8, d: usize) -> usize
    requires { d < 18446744073709551615 }
    ensures { (result ≡ deeper b d) × (result ≤ d + 1) }
{
    match b {
        b'(' => d + 1,
        b')' => d.saturating_sub(1),
        _ => d,
    }
}

#[tactic(auto, using(crate::proofs::Laws::closes_yes, crate::proofs::Laws::closes_no))]
fn closes(b: u8, d: usize) -> bool
    ensures { result ≡ closes b d }
{
    b == b')' && d == 0
}

// The part of the text between the bracket at a place and the one that closes it: no part where none does.
pub fn form(text: &[u8], at: usize) -> &[u8]
    ensures { result.now ≡ form_at text.now at }
{
    if text.len() <= at {
        return &[];
    }
    let start = at + 1;
    let mut d: usize = 0;
    for i in start..text.len() {
        let b = text[i];
        if closes(b, d) {
            return &text[start..i];
        }
        d = deeper(b, d);
    }
    &[]
}
