// The label of a biscuit packet: each letter is a symbol, and how dark it is printed is its cell's height.
use plans::numbers::Numbers;

pub(crate) const KIND: u16 = 7;

pub(crate) const NUMBERS: Numbers = Numbers {
    columns: 40,
    checks: 8,
    rows: 8,
    heights: 16,
    drift: 40,
};

// The text, a row of the page after the other.
pub(crate) const LETTERS: &[u8; 256] = b"\
Oat biscuits. Ingredients:      \
OAT flakes (38%), WHEAT flour,  \
brown sugar, BUTTER (17%),      \
golden syrup, rapeseed oil,     \
raising agent (E500), salt.     \
May contain EGG, NUTS and SOYA. \
Store cool and dry. Net 180 g.  \
Best before: see base of packet.";

// How dark a letter is printed: capitals darker, since they name what some may not eat.
pub(crate) fn darkness(letter: u8) -> u16 {
    if letter.is_ascii_uppercase() { 12 } else { 4 }
}
