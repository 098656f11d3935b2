// IDENTIFY DEVICE: the 256 words that tell a host what disk this is.
#![tactic(auto)]

ghost use Rattle.std.specs.Prelude.{◌≡◌, ◌+◌, ◌*◌, ◌≤◌, ◌<◌, length};
ghost use Rattle.base.specs.Choice.{pick};
ghost use Rattle.identify.specs.SecurityWord.{security_word};
ghost use Rattle.identify.specs.Words.{low_word, high_word, text_word, number_word, identify_word};
ghost use Rattle.identify.specs.Identify.{identify_of};

use lock::Security;
use settled::Settled;

// What a bit adds to its word.
fn weighed(set: bool, weight: u16) -> u16
    ensures { (result ≡ pick set weight 0) × (result ≤ weight) }
{
    if set { weight } else { 0 }
}

// Word 128.
#[tactic(auto, unfolding(crate::specs::SecurityWord::security_word))]
fn security_word(security: Security) -> u16
    ensures { result ≡ security_word security }
{
    0x0001
        + weighed(security.enabled, 0x0002)
        + weighed(security.lock.locked(), 0x0004)
        + weighed(security.lock.frozen(), 0x0008)
        + weighed(security.exhausted(), 0x0010)
        + weighed(security.maximum, 0x0100)
}

fn low_word(number: u32) -> u16
    ensures { result ≡ low_word number }
{
    (number % 65536) as u16
}

fn high_word(number: u32) -> u16
    ensures { result ≡ high_word number }
{
    (number / 65536) as u16
}

// Word n of a text.
#[tactic(auto, unfolding(crate::specs::Words::text_word))]
fn text_word(text: &[u8], n: u16) -> u16
    requires { 2 * n + 1 < length text.now }
    ensures { result ≡ text_word text.now n }
{
    let at = 2 * (n as usize);
    u16::from_be_bytes([text[at], text[at + 1]])
}

// Word n where it is no text.
#[tactic(auto, unfolding(crate::specs::Words::number_word))]
fn number_word(settled: Settled, n: u16) -> u16
    ensures { result ≡ number_word settled n }
{
    let Settled {
        geometry,
        translation,
        security,
        ..
    } = settled;
    match n {
        0 => 0x0040,
        1 => geometry.cylinders,
        3 => u16::from(geometry.heads),
        6 => u16::from(geometry.sectors),
        49 => 0x0200,
        53 => 0x0001,
        54 => translation.cylinders,
        55 => u16::from(translation.heads),
        56 => u16::from(translation.sectors),
        57 => low_word(translation.product()),
        58 => high_word(translation.product()),
        60 => low_word(geometry.capacity()),
        61 => high_word(geometry.capacity()),
        80 => 0x000E,
        82 => 0x0002,
        83 => 0x4000,
        128 => security_word(security),
        _ => 0,
    }
}

// Word n. By reference, so that no turn of the loop copies the texts (docs/SPEED.md).
#[tactic(auto, unfolding(crate::specs::Words::identify_word, base::specs::Choice::within))]
fn identify_word(settled: &Settled, n: u16) -> u16
    ensures { result ≡ identify_word settled.now n }
{
    match n {
        10..=19 => text_word(&settled.identity.serial, n - 10),
        23..=26 => text_word(&settled.identity.firmware, n - 23),
        27..=46 => text_word(&settled.identity.model, n - 27),
        _ => number_word(*settled, n),
    }
}

// The block that IDENTIFY DEVICE (ECh) hands over.
pub fn identify(settled: Settled) -> [u8; 512]
    ensures { result ≡ identify_of settled }
{
    let mut block = [0u8; 512];
    for n in 0..256 {
        block::put_word(&mut block, n as u8, identify_word(&settled, n));
    }
    block
}
