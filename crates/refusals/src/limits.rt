// The limits that the refusals name, each number once. The definitions have the same names in specs/Limits.
ghost use Rattle.std.specs.Prelude.{◌≡◌, suc, leb};
ghost use Rattle.refusals.specs.Limits.{highest_id, limits};

// 1: bytes of a text
pub const MAX_BYTES: usize = 32768;

// 3: lines and lists of a text
pub const MAX_REGIONS: u32 = 128;

pub const MAX_NODES: u32 = 128;

pub const MAX_OPS: u32 = 512;

pub const MAX_CONSTS: u32 = 256;

pub const MAX_PARAMS: u32 = 64;

pub const MAX_VALUES: u32 = 2048;

pub const MAX_DECLS: u32 = 512;

pub const MAX_IMMEDIATES: u32 = 512;

pub const MAX_TARGETS: u32 = 512;

// 4: opcodes and operand kinds, immediate kinds, control numbers
pub const MAX_OPCODE: u32 = 65535;

pub const MAX_IMM_KIND: u32 = 2;

pub const MAX_CONTROL: u32 = 2;

// 8: words of the function slice and of the work slice
pub const FUNC_WORDS: usize = 16384;

pub const WORK_WORDS: usize = 16384;

// 9: no id above this one is given
pub const HIGHEST_ID: u32 = 4194302;

// All of them, in the order of specs/Limits, so that none differs from its definition.
pub fn all() -> [usize; 16]
    ensures { result ≡ limits }
{
    [
        MAX_BYTES,
        MAX_REGIONS as usize,
        MAX_NODES as usize,
        MAX_OPS as usize,
        MAX_CONSTS as usize,
        MAX_PARAMS as usize,
        MAX_VALUES as usize,
        MAX_DECLS as usize,
        MAX_IMMEDIATES as usize,
        MAX_TARGETS as usize,
        MAX_OPCODE as usize,
        MAX_IMM_KIND as usize,
        MAX_CONTROL as usize,
        FUNC_WORDS,
        WORK_WORDS,
        HIGHEST_ID as usize,
    ]
}

// An id may be given.
pub fn id_fits(id: u32) -> bool
    ensures { result ≡ leb id highest_id }
{
    id <= HIGHEST_ID
}

// An id may be the next free one. It is not given, so that it may be one over the highest.
pub fn next_fits(id: u32) -> bool
    ensures { result ≡ leb id (suc highest_id) }
{
    id <= HIGHEST_ID + 1
}
