ghost use Rattle.std.specs.Prelude.{◌≡◌};
ghost use Rattle.std.specs.List.{list_all};
ghost use Rattle.std.specs.Option.{option_map};
ghost use Rattle.text_fields.specs.Names as names;

/// The most characters of a name.
const MOST_CHARS: usize = 64;

fn is_name_char(byte: u8) -> bool
    ensures { result ≡ names.is_name_char byte }
{
    byte.is_ascii_alphanumeric() || byte == b'_' || byte == b'-'
}

fn has_name_chars(word: &[u8]) -> bool
    ensures { result ≡ list_all (λ c. names.is_name_char c) word.now }
{
    for byte in word {
        if !is_name_char(*byte) {
            return false;
        }
    }
    true
}

/// Whether a word is the name of a snapshot: 1 to 64 characters, each a letter, a digit, `_` or `-`, of which the
/// first is not `-`.
pub fn is_name(word: &[u8]) -> bool
    ensures { result ≡ names.is_name word.now }
{
    if word.is_empty() || word.len() > MOST_CHARS {
        return false;
    }
    word[0] != b'-' && has_name_chars(word)
}

/// The name of a snapshot that a word is, as [`is_name`] has it; `None` where it is none.
#[tactic(auto, unfolding(crate::specs::Names::name_of))]
pub fn read_name(word: &[u8]) -> Option<&str>
    ensures { option_map (λ name. name.now) result ≡ names.name_of word.now }
{
    if !is_name(word) {
        return None;
    }
    match std::str::from_utf8(word) {
        Ok(name) => Some(name),
        Err(_) => unreachable!(),
    }
}
