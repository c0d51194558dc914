// Lists up to their closing bracket: each element is stored as soon as it is read.
ghost use Rattle.std.specs.Prelude.{◌≡◌, ◌≤◌, length};
ghost use Rattle.func.specs.Layout.{func_need};
ghost use Rattle.read_cursor.specs.Read.{behind_literal};
ghost use Rattle.func.specs.Store.{folds};
ghost use Rattle.read_lines.specs.Stores.{Stores};
ghost use Rattle.read_lines.specs.Elements.{element_of, element_list, keep_element, PoolPlaced};

use crate::Element;
use func_pools::Pool;
use read_cursor::Cursor;
use read_fields::{decl, field, imm};
use read_values::value;

// One element.
pub fn element<'a>(func: &mut [u32], what: Element, from: Cursor<'a>) -> Option<Cursor<'a>>
    requires { (func_need ≤ length func.old) × PoolPlaced what }
    ensures stores { Stores (element_of what).read (keep_element what) from.entry result func.old func.new }
    ensures func_len_unchanged { length func.new ≡ length func.old }
{
    match what {
        Element::Number(k) => {
            let (n, c) = field(from)?;
            func_store::keep_number(func, k, n);
            Some(c)
        }
        Element::Value => {
            let Some((v, c)) = value(from) else {
                return None;
            };
            func_values::keep_value(func, v);
            Some(c)
        }
        Element::Decl => {
            let ((attrs, ty), c) = decl(from)?;
            func_store::keep_pair(func, Pool::Decls, attrs, ty);
            Some(c)
        }
        Element::Imm => {
            let ((kind, (operand, word)), c) = imm(from)?;
            func_store::keep_imm(func, kind, operand, word);
            Some(c)
        }
    }
}

// Elements, up to the closing bracket.
pub fn list<'a>(func: &mut [u32], what: Element, from: Cursor<'a>) -> Option<Cursor<'a>>
    requires { (func_need ≤ length func.old) × PoolPlaced what }
    ensures stores { Stores (element_list what).read (folds (keep_element what)) from.entry result func.old func.new }
    ensures func_len_unchanged { length func.new ≡ length func.old }
{
    let mut c = from;
    loop {
        if let Some(d) = c.close() {
            return Some(d);
        }
        let Some(e) = element(func, what, c) else {
            return None;
        };
        c = e;
    }
}

// A list with the word before it.
pub fn form<'a>(func: &mut [u32], s: &[u8], what: Element, from: Cursor<'a>) -> Option<Cursor<'a>>
    requires { (func_need ≤ length func.old) × PoolPlaced what × (1 ≤ length s.now) }
    ensures stores { Stores (behind_literal s.now (element_list what).read) (folds (keep_element what)) from.entry result func.old func.new }
    ensures func_len_unchanged { length func.new ≡ length func.old }
{
    let c = from.word(s)?;
    list(func, what, c)
}
