// Reads the bytes, words and numbers of which a line of the text is made. A cursor is a place of the text, by value; each of its steps answers
// with what it read and the next cursor, or with nothing, and the promise of each is the grammar's own reader for that form (`ReadsOn`,
// specs/Answers.antt). Fields, forms, values and the heads of lines are read by crates above, each from a cursor.
#![tactic(auto)]

ghost use Rattle.std.specs.Prelude.{[], ◌∷◌, ◌≤◌, length};
ghost use Rattle.lifting.specs.Bytes.{bytes};
ghost use Rattle.lifting.specs.Digits.{number};
ghost use Rattle.read_cursor.specs.Read.{TextEnded, literal};
ghost use Rattle.read_cursor.specs.Answers.{ReadsOn, StepsOn};

#[derive(Clone, Copy)]
pub struct Cursor<'a> {
    pub text: &'a [u8],
    pub at: usize,
}

impl<'a> Cursor<'a> {
    // One byte.
    fn byte(self, b: u8) -> Option<Cursor<'a>>
        ensures { StepsOn (literal (b ∷ [])) self.entry result }
    {
        if *self.text.get(self.at)? == b {
            return Some(Cursor {
                text: self.text,
                at: self.at + 1,
            });
        }
        None
    }

    pub fn skip_space(self) -> Option<Cursor<'a>>
        ensures { StepsOn (literal (bytes " ")) self.entry result }
    {
        self.byte(b' ')
    }

    pub fn open(self) -> Option<Cursor<'a>>
        ensures { StepsOn (literal (bytes "(")) self.entry result }
    {
        self.byte(b'(')
    }

    pub fn close(self) -> Option<Cursor<'a>>
        ensures { StepsOn (literal (bytes ")")) self.entry result }
    {
        self.byte(b')')
    }

    // At the end of the text?
    pub fn end(self) -> bool
        ensures { TextEnded result self.entry.text.now self.entry.at }
    {
        self.text.len() <= self.at
    }

    // A literal, of at least one byte.
    pub fn word(self, s: &[u8]) -> Option<Cursor<'a>>
        requires { 1 ≤ length s.now }
        ensures { StepsOn (literal s.now) self.entry result }
    {
        if !self.text.get(self.at..)?.starts_with(s) {
            return None;
        }
        Some(Cursor {
            text: self.text,
            at: self.at + s.len(),
        })
    }

    // A number: a 0 alone, or digits that begin with another, below 2 ^ 32.
    pub fn number(self) -> Option<(u32, Cursor<'a>)>
        ensures { ReadsOn number self.entry result }
    {
        let first = *self.text.get(self.at)?;
        if !first.is_ascii_digit() {
            return None;
        }
        let start = self.at + 1;
        if first == b'0' {
            return Some((
                0,
                Cursor {
                    text: self.text,
                    at: start,
                },
            ));
        }
        let mut n = u32::from(first - b'0');
        for i in start..self.text.len() {
            let b = self.text[i];
            if !b.is_ascii_digit() {
                return Some((
                    n,
                    Cursor {
                        text: self.text,
                        at: i,
                    },
                ));
            }
            n = n.checked_mul(10)?.checked_add(u32::from(b - b'0'))?;
        }
        Some((
            n,
            Cursor {
                text: self.text,
                at: self.text.len(),
            },
        ))
    }
}
