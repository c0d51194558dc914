// Bytes appended to a slice at a place. A byte past the slice's end is counted and not stored, so that the place where the bytes would end is known
// whatever room there is.
#![tactic(auto)]

ghost use Rattle.std.specs.Prelude.{[], ◌∷◌};
ghost use Rattle.lifting.specs.Digits.{digits};
ghost use Rattle.print_bytes.specs.Prints.{Prints};
ghost use Rattle.print_bytes.specs.Lines.{field_bytes};

// The slice that is printed into, and the place of the next byte.
#[derive(Drop)]
pub struct Printer<'a> {
    pub out: &'a mut [u8],
    pub at: usize,
}

impl Printer<'_> {
    // A byte, stored where there is room. The place stays at the last one. It is read once: behind a store into the slice the compiler would read it again.
    #[inline(always)]
    pub fn put_byte(&mut self, b: u8)
        ensures { Prints self.old (b ∷ []) self.new }
    {
        let at = self.at;
        if at < self.out.len() {
            self.out[at] = b;
        }
        self.at = at.saturating_add(1);
    }

    pub fn put_bytes(&mut self, s: &[u8])
        ensures { Prints self.old s.now self.new }
    {
        for b in s {
            self.put_byte(*b);
        }
    }

    // A number in base ten: the digits of its tenth, and its last one.
    pub fn put_number(&mut self, n: u32)
        ensures { Prints self.old (digits n) self.new }
    {
        if n >= 10 {
            self.put_number(n / 10);
        }
        self.put_byte((48 + n % 10) as u8);
    }

    // A number after a space.
    pub fn put_field(&mut self, n: u32)
        ensures { Prints self.old (field_bytes n) self.new }
    {
        self.put_byte(b' ');
        self.put_number(n);
    }
}
