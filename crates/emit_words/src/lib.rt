// Words appended to the output slice at a place. A word past the slice's end is counted and not stored, so that a run over an empty slice counts. A
// writer is no part of what is written from, since that is lent to many and it to one.
#![tactic(auto)]

ghost use Rattle.std.specs.Prelude.{◌≡◌, [], ◌∷◌, set};
ghost use Rattle.emit_words.specs.Put.Item.{word, id};
ghost use Rattle.emit_words.specs.Writes.{Writes};
ghost use Rattle.emit_words.specs.Items.{head_items};

// The place of the next word; 1 once an id was missing, else 0. That is a word as wide as the place: the compiler copies a narrower field with
// its padding, by stores that overlap, and the loads behind them wait.
#[derive(Clone, Copy)]
pub struct Cursor {
    pub at: usize,
    pub missed: usize,
}

// The slice that is written, and how far it is.
#[derive(Drop)]
pub struct Writer<'a> {
    pub out: &'a mut [u32],
    pub cursor: Cursor,
}

// Stores a word where there is room. By an index: of a slice that `get_mut` lent from, proofs know the length alone.
fn store(out: &mut [u32], at: usize, x: u32)
    ensures { out.new ≡ set out.old at x }
{
    if at < out.len() {
        out[at] = x;
    }
}

impl Writer<'_> {
    // Appends a word that is no id. The place stays at the last one. It is read once: behind a store into the slice the compiler would read it again.
    #[inline(always)]
    pub fn put_word(&mut self, x: u32)
        ensures { Writes self.old (word x ∷ []) self.new }
    {
        let at = self.cursor.at;
        store(self.out, at, x);
        self.cursor.at = at.saturating_add(1);
    }

    // Appends an id, or 0, which is what the list writes for none; that an id was missing is remembered.
    #[inline(always)]
    pub fn put_id(&mut self, x: u32)
        ensures { Writes self.old (id x ∷ []) self.new }
    {
        self.put_word(x);
        if x == 0 {
            self.cursor.missed = 1;
        }
    }

    // The words of an instruction before its immediates: opcode, attributes, result type, result, and the count of immediates.
    pub fn put_head(&mut self, opcode: u32, attrs: u32, ty: u32, res: u32, imms: u32)
        ensures { Writes self.old (head_items opcode attrs ty res imms) self.new }
    {
        self.put_word(opcode);
        self.put_word(attrs);
        self.put_word(ty);
        self.put_word(res);
        self.put_word(imms);
    }
}
