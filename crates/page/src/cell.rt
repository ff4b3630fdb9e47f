// One cell's number: read by remainder and quotient, and made.
ghost use Rattle.std.specs.Prelude.{◌≡◌, ◌<◌};
ghost use Rattle.rules.specs.Cell.{code, protected, kind, attribute, cell, written, guarded, is_open, sent};
ghost use Rattle.page.specs.Kind.{kind_number};

use rules::Contents;

// No attribute flag.
pub const NORMAL: u8 = 0;

// Unprotected and normal: a null, and the space that clearing, inserting, deleting and scrolling bring in; and the protected space of ESC V and
// ESC ,.
pub const NULL: u16 = 0;

pub const SPACE: u16 = 32;

pub const PROTECTED_SPACE: u16 = 160;

// The code, 0 to 127.
pub fn code_of(v: u16) -> u8
    ensures { result ≡ code v }
{
    (v % 128) as u8
}

// The 128s bit.
pub fn is_protected(v: u16) -> bool
    ensures { result ≡ protected v }
{
    v / 128 % 2 == 1
}

// What a cell is, in the order of the numbers.
#[derive(Clone, Copy, PartialEq, Eq, Debug)]
pub enum Kind {
    Text,
    Attribute,
    Graphic,
}

impl Kind {
    // 0, 1 and 2.
    pub fn number(self) -> u8
        ensures { result ≡ kind_number self }
    {
        match self {
            Kind::Text => 0,
            Kind::Attribute => 1,
            Kind::Graphic => 2,
        }
    }
}

// The kind; 3 reads as graphic.
pub fn kind_of(v: u16) -> Kind
    ensures { kind_number result ≡ kind v }
{
    match v / 256 % 4 {
        0 => Kind::Text,
        1 => Kind::Attribute,
        _ => Kind::Graphic,
    }
}

// The attribute: dim 16, underscore 8, reverse 4, blink 2, blank 1.
pub fn attribute_of(v: u16) -> u8
    ensures { result ≡ attribute v }
{
    (v / 1024 % 32) as u8
}

fn make(code: u8, protected: bool, kind: Kind, attribute: u8) -> u16
    requires { attribute < 32 }
    ensures { result ≡ cell code protected (kind_number kind) attribute }
{
    let open = code as u16 + 256 * kind.number() as u16 + 1024 * attribute as u16;
    if protected { open + 128 } else { open }
}

// The number of a written cell.
pub fn written_cell(contents: Contents, protected: bool, attribute: u8) -> u16
    requires { attribute < 32 }
    ensures { result ≡ written contents protected attribute }
{
    match contents {
        Contents::Text(code) => make(code, protected, Kind::Text, attribute),
        Contents::Attribute(code) => make(code, protected, Kind::Attribute, attribute),
        Contents::Graphic(code) => make(code, protected, Kind::Graphic, attribute),
    }
}

// Protect mode is on and the cell is protected.
pub fn is_guarded(protect: bool, v: u16) -> bool
    ensures { result ≡ guarded protect v }
{
    protect && is_protected(v)
}

pub fn is_open(protect: bool, v: u16) -> bool
    ensures { result ≡ is_open protect v }
{
    !is_guarded(protect, v)
}

// What a send gives for a cell.
pub fn sent_code(v: u16) -> u8
    ensures { result ≡ sent v }
{
    let code = code_of(v);
    if kind_of(v) == Kind::Text && 0x20 <= code && code <= 0x7e {
        code
    } else {
        0x20
    }
}
