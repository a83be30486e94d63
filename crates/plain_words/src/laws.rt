//! Laws of the words: no two values have one spelling, and no spelling holds a space. The functions
//! do nothing; what they ensure holds of all values.
ghost use Rattle.std.specs.Prelude.{◌≡◌, ◌<◌, ◌^◌, ℕ, List, Bool, ◌++◌, ◌∷◌, decimal};
ghost use Rattle.asp_messages.specs.PlainSpelling.{flag_word, bytes_word};
ghost use Rattle.plain_words.specs.Words.{AreBytes, IsWord, SplitsAt};

/// Two values of one spelling are one value, and a text is cut at a byte in one way.
pub fn one_spelling()
    ensures numbers { (m n : ℕ) → m < 2 ^ 64 → n < 2 ^ 64 → decimal m ≡ decimal n → m ≡ n }
    ensures byte_strings { (a b : List ℕ) → AreBytes a → AreBytes b → bytes_word a ≡ bytes_word b
        → a ≡ b }
    ensures flags { (a b : Bool) → flag_word a ≡ flag_word b → a ≡ b }
    ensures splits { (byte : ℕ) (text word rest other behind : List ℕ)
        → SplitsAt byte text word rest → SplitsAt byte text other behind
        → (word ≡ other) × (rest ≡ behind) }
{}

/// Numbers, byte strings and flags are words.
pub fn words()
    ensures numbers { (n : ℕ) → n < 2 ^ 64 → IsWord (decimal n) }
    ensures byte_strings { (bytes : List ℕ) → AreBytes bytes → IsWord (bytes_word bytes) }
    ensures flags { (flag : Bool) → IsWord (flag_word flag) }
{}
