// Numbers in slices of bytes, low byte first; those of 16 bits are words. That the bound of a type holds is ensured for the proofs of callers.
ghost use Rattle.std.specs.Prelude.{◌≡◌, ◌*◌, ◌≤◌, ◌^◌, length, min};
ghost use Rattle.rules.specs.Slices.{overwrite};
ghost use Rattle.exports.specs.Bytes.{word_bytes, words_in, number_bytes};
ghost use Rattle.exports.specs.Lent.{AllBelow};

// How many words a slice of bytes has, or `most` where it has more.
pub(crate) fn count_words(bytes: &[u8], most: usize) -> usize
    ensures count { result ≡ min most (length (words_in bytes.now)) }
    ensures bytes { AllBelow 256 bytes.now }
{
    most.min(bytes.len() / 2)
}

// Writes words of two bytes from the first byte on, and leaves later bytes as they are.
pub(crate) fn write_words(words: &[u16], out: &mut [u8])
    requires { 2 * length words.now ≤ length out.old }
    ensures out { out.new ≡ overwrite (word_bytes words.now) out.old }
    ensures words { AllBelow 65536 words.now }
{
    for (i, word) in words.iter().enumerate() {
        out[2 * i..2 * i + 2].copy_from_slice(&word.to_le_bytes());
    }
}

// Writes numbers of eight bytes, as `write_words` does those of two.
pub(crate) fn write_numbers(numbers: &[u64], out: &mut [u8])
    requires { 8 * length numbers.now ≤ length out.old }
    ensures out { out.new ≡ overwrite (number_bytes numbers.now) out.old }
    ensures numbers { AllBelow (2 ^ 64) numbers.now }
{
    for (i, number) in numbers.iter().enumerate() {
        out[8 * i..8 * i + 8].copy_from_slice(&number.to_le_bytes());
    }
}
