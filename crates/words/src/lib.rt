// Numbers that words write.
#![tactic(auto)]

ghost use Rattle.std.specs.Prelude.{◌≡◌, ◌^◌};
ghost use Rattle.words.specs.Numbers.{number_in, below_in};

// The number of 32 bits that a word writes in decimal.
#[tactic(auto, using(crate::proofs::Numerals::reads_number))]
pub fn number_in(word: &str) -> Option<u32>
    ensures { result ≡ number_in word.now }
{
    word.parse::<u32>().ok()
}

// The same of 16 bits.
pub fn two_bytes_in(word: &str) -> Option<u16>
    ensures { result ≡ below_in (2 ^ 16) word.now }
{
    u16::try_from(number_in(word)?).ok()
}

// The same of eight.
pub fn byte_in(word: &str) -> Option<u8>
    ensures { result ≡ below_in (2 ^ 8) word.now }
{
    u8::try_from(number_in(word)?).ok()
}
