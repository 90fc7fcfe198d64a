// Colours and cell numbers, each with a type of its own, and sets of colours as bytes.
#![tactic(auto)]

ghost use Rattle.std.specs.Prelude.{◌≡◌, ◌<◌};
ghost use Rattle.rules.specs.Sets.{has, single, only, without};
ghost use Rattle.cells.specs.Sets.{including};

// A colour: 0 is blank.
#[derive(Clone, Copy, Debug, Default, PartialEq, Eq)]
pub struct Colour(pub u8);

// A cell's number: its row times the width, and its column.
#[derive(Clone, Copy, Debug, Default, PartialEq, Eq)]
pub struct CellNo(pub u16);

// The set of one colour.
pub fn only(x: Colour) -> u8
    requires { x.0 < 8 }
    ensures { result ≡ only x.0 }
{
    1u8 << x.0
}

// Whether a set has a colour.
pub fn has(s: u8, x: Colour) -> bool
    requires { x.0 < 8 }
    ensures { result ≡ has s x.0 }
{
    (s >> x.0) % 2 == 1
}

// Whether one bit is set.
pub fn is_solved(s: u8) -> bool
    ensures { result ≡ single s }
{
    s.count_ones() == 1
}

// The set without a colour.
pub fn without(s: u8, x: Colour) -> u8
    requires { x.0 < 8 }
    ensures { result ≡ without s x.0 }
{
    s & (255 - only(x))
}

// The set with a colour.
pub fn including(s: u8, x: Colour) -> u8
    requires { x.0 < 8 }
    ensures { result ≡ including s x.0 }
{
    s | only(x)
}
