// One block of an image: its check, and what block 0 and the blocks of readings hold.
ghost use Rattle.std.specs.Prelude.{◌≡◌, ℕ, ◌+◌, ◌-◌, ◌*◌, ◌<◌, length, if◌then◌else◌, nat_lt, slice_index};
ghost use Rattle.rules.specs.Pages.{tabled};
ghost use Rattle.images.specs.Format.{words_at, bytes_of_head, head_at, check_value, sealed, sealed_at};

use plans::numbers::Numbers;

// The first word of every image, and its edition.
pub(crate) const FIRST_BYTES: [u8; 5] = *b"ALMP\x01";

// A block of an image.
pub(crate) type Block = [u8; 512];

// The check of block b: 1 + b + the sum of (j + 1) × byte j, for j from 0 to 507.
fn check_of(b: u16, block: &Block) -> u32
    ensures { result ≡ check_value b (λ j. slice_index block.now j) }
{
    let mut sum = 1 + b as u32;
    for (j, byte) in block[..508].iter().enumerate() {
        sum += (j as u32 + 1) * *byte as u32;
    }
    sum
}

// Whether the block ends with its check.
pub(crate) fn is_sealed(b: u16, block: &Block) -> bool
    ensures { result ≡ sealed b (λ j. slice_index block.now j) }
{
    block[508..] == check_of(b, block).to_le_bytes()[..]
}

// Block b, from its bytes before the check.
fn sealed_block<F: Fn(usize) -> u8>(b: u16, byte: F) -> Block
    requires { (j : ℕ) → j < 508 → F.pre byte j }
    ensures { (f : ℕ → ℕ) → ((j x : ℕ) → j < 508 → F.post byte j x → x ≡ f j) → result ≡ tabled 512 (sealed_at b f) }
{
    let mut block = [0; 512];
    for (j, place) in block[..508].iter_mut().enumerate() {
        *place = byte(j);
    }
    let check = check_of(b, &block);
    block[508..].copy_from_slice(&check.to_le_bytes());
    block
}

// Byte i of numbers that are stored two bytes each; 0 after the last.
fn byte_of(numbers: &[u16], i: usize) -> u8
    ensures { result ≡ words_at numbers.now i }
{
    numbers.get(i / 2).copied().unwrap_or(0).to_le_bytes()[i % 2]
}

// Bytes 0 to 15 of block 0.
fn head_bytes(kind: u8, numbers: Numbers, count: usize) -> [u8; 16]
    requires checks { numbers.checks < 256 }
    requires rows { numbers.rows < 256 }
    requires count { count < 256 }
    ensures { result ≡ bytes_of_head kind numbers count }
{
    let mut head = [0; 16];
    head[..5].copy_from_slice(&FIRST_BYTES);
    head[5] = kind;
    head[6..8].copy_from_slice(&numbers.columns.to_le_bytes());
    head[8] = numbers.checks as u8;
    head[9] = numbers.rows as u8;
    head[10..12].copy_from_slice(&numbers.heights.to_le_bytes());
    head[12..14].copy_from_slice(&numbers.drift.to_le_bytes());
    head[14] = count as u8;
    head
}

// Byte j of block 0, before its check.
fn head_byte(head: &[u8; 16], marked: &[u16], j: usize) -> u8
    ensures { result ≡ (if nat_lt j 16 then slice_index head.now j else words_at marked.now (j - 16)) }
{
    if j < 16 {
        head[j]
    } else {
        byte_of(marked, j - 16)
    }
}

// Block 0.
pub(crate) fn head_block(kind: u8, numbers: Numbers, marked: &[u16]) -> Block
    requires checks { numbers.checks < 256 }
    requires rows { numbers.rows < 256 }
    requires count { length marked.now < 256 }
    ensures { result ≡ tabled 512 (sealed_at 0 (head_at kind numbers marked.now)) }
{
    let head = head_bytes(kind, numbers, marked.len());
    sealed_block(0, |j| head_byte(&head, marked, j))
}

// Level block b, which is block b + 1 of the image.
pub(crate) fn level_block(b: usize, cells: &[u16]) -> Block
    requires { b < 33 }
    ensures { result ≡ tabled 512 (sealed_at (b + 1) (λ j. words_at cells.now (508 * b + j))) }
{
    sealed_block(b as u16 + 1, |j| byte_of(cells, 508 * b + j))
}
