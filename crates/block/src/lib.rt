// Blocks of 512 bytes: their words, the sectors of lent memory, and the password that a block carries.
#![tactic(auto)]

ghost use Rattle.std.specs.Prelude.{◌≡◌, ◌+◌, ◌*◌, ◌≤◌, length};
ghost use Rattle.block.specs.Words.{word_at, word_put};
ghost use Rattle.block.specs.Sectors.{zero_block, sector_at, stored_at, zeroed};
ghost use Rattle.block.specs.Passwords.{password_of, same};

// Word n of a block, low byte first.
#[tactic(auto, unfolding(crate::specs::Words::word_at))]
pub fn word_at(block: &[u8; 512], n: u8) -> u16
    ensures { result ≡ word_at block.now n }
{
    let at = 2 * (n as usize);
    u16::from_le_bytes([block[at], block[at + 1]])
}

// Word n of a block becomes w.
#[tactic(auto, unfolding(crate::specs::Words::word_put))]
pub fn put_word(block: &mut [u8; 512], n: u8, w: u16)
    ensures { block.new ≡ word_put block.old n w }
{
    let at = 2 * (n as usize);
    let [low, high] = w.to_le_bytes();
    block[at] = low;
    block[at + 1] = high;
}

// A zeroed buffer.
#[tactic(auto, unfolding(crate::specs::Sectors::zero_block))]
pub fn zeros() -> [u8; 512]
    ensures { result ≡ zero_block }
{
    [0u8; 512]
}

// Sector n of the memory.
#[tactic(auto, unfolding(crate::specs::Sectors::sector_at))]
pub fn load(sectors: &[u8], n: u32) -> [u8; 512]
    requires { 512 * n + 512 ≤ length sectors.now }
    ensures { result ≡ sector_at sectors.now n }
{
    let at = 512 * (n as usize);
    let mut block = [0u8; 512];
    block.copy_from_slice(&sectors[at..at + 512]);
    block
}

// Sector n of the memory becomes the block.
#[tactic(auto, unfolding(crate::specs::Sectors::stored_at))]
pub fn store(sectors: &mut [u8], n: u32, block: [u8; 512])
    requires { 512 * n + 512 ≤ length sectors.old }
    ensures { sectors.new ≡ stored_at sectors.old n block }
{
    let at = 512 * (n as usize);
    sectors[at..at + 512].copy_from_slice(&block);
}

// Every byte of the memory becomes 0.
#[tactic(auto, unfolding(crate::specs::Sectors::zeroed))]
pub fn zero(memory: &mut [u8])
    ensures { memory.new ≡ zeroed memory.old }
{
    memory.fill(0);
}

// The password that a block carries in words 1 to 16.
#[tactic(auto, unfolding(crate::specs::Passwords::password_of))]
pub fn password(block: [u8; 512]) -> [u8; 32]
    ensures { result ≡ password_of block }
{
    let mut bytes = [0u8; 32];
    bytes.copy_from_slice(&block[2..34]);
    bytes
}

// Whether two passwords are the same. Every byte is looked at, also behind the first that differs, so that how long
// a guess takes does not tell how much of it was right.
pub fn same(a: [u8; 32], b: [u8; 32]) -> bool
    ensures { result ≡ same a b }
{
    a.iter()
        .zip(b.iter())
        .fold(true, |equal, (x, y)| equal & (*x == *y))
}
