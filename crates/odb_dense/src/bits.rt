//! Numbers as the bits of words, 64 to a word.

ghost use Rattle.std.specs.Prelude.{◌≡◌, ◌<◌, ◌≤◌, ℕ, None, length, slice_index_or, IfSome};
ghost use Rattle.std.specs.Int.{bit_at};
ghost use Rattle.odb_dense.specs.Bits.{IsFirst, IsLast};

/// Returns the lowest bit of a word that has one.
fn lowest(word: u64) -> u32
    requires { 0 < word }
    ensures bound { result < 64 }
    ensures set { bit_at word result ≡ 1 }
    ensures below { (k : ℕ) → k < result → bit_at word k ≡ 0 }
{
    word.trailing_zeros()
}

/// Returns the highest bit of a word that has one.
fn highest(word: u64) -> u32
    requires { 0 < word }
    ensures bound { result < 64 }
    ensures set { bit_at word result ≡ 1 }
    ensures above { (k : ℕ) → result < k → bit_at word k ≡ 0 }
{
    word.ilog2()
}

/// Returns the first number in a word, if all words before it are 0.
pub(crate) fn first_at(words: &[u64], at: u32) -> u32
    requires few { length words.now ≤ 67108864 }
    requires some { 0 < slice_index_or words.now at 0 }
    requires before { (k : ℕ) → k < at → slice_index_or words.now k 0 ≡ 0 }
    ensures { IsFirst words.now result }
{
    at * 64 + lowest(words[at as usize])
}

/// Returns the last number in a word, if all words after it are 0.
pub(crate) fn last_at(words: &[u64], at: u32) -> u32
    requires few { length words.now ≤ 67108864 }
    requires some { 0 < slice_index_or words.now at 0 }
    requires after { (k : ℕ) → at < k → slice_index_or words.now k 0 ≡ 0 }
    ensures { IsLast words.now result }
{
    at * 64 + highest(words[at as usize])
}

/// Returns the first number, or `None` if all words are 0. It passes each word.
pub(crate) fn first(words: &[u64]) -> Option<u32>
    requires { length words.now ≤ 67108864 }
    ensures none { result ≡ None → (k : ℕ) → slice_index_or words.now k 0 ≡ 0 }
    ensures some { IfSome result (IsFirst words.now) }
{
    for at in 0..words.len() as u32 {
        if words[at as usize] != 0 {
            return Some(first_at(words, at));
        }
    }
    None
}

/// Returns the last number, or `None` if all words are 0. It passes each word.
pub(crate) fn last(words: &[u64]) -> Option<u32>
    requires { length words.now ≤ 67108864 }
    ensures none { result ≡ None → (k : ℕ) → slice_index_or words.now k 0 ≡ 0 }
    ensures some { IfSome result (IsLast words.now) }
{
    for at in (0..words.len() as u32).rev() {
        if words[at as usize] != 0 {
            return Some(last_at(words, at));
        }
    }
    None
}
