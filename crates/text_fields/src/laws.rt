ghost use Rattle.text_fields.specs.Laws.{NumberTextsAreNumbers, NumberWordsAreNumbers, KeyTextsAreKeys, KeyWordsAreKeys, NameWordsAreNames};

/// The text of a number is read as that number.
pub fn number_texts_are_numbers()
    ensures { NumberTextsAreNumbers }
{}

/// A word is read as a number exactly where it has 1 to 20 decimal digits of that value.
pub fn number_words_are_numbers()
    ensures { NumberWordsAreNumbers }
{}

/// The text of a 32-byte value is read as that value.
pub fn key_texts_are_keys()
    ensures { KeyTextsAreKeys }
{}

/// A word is read as a 32-byte value exactly where it has an even number of 2 to 64 hexadecimal
/// digits.
pub fn key_words_are_keys()
    ensures { KeyWordsAreKeys }
{}

/// A word is read as the name of a snapshot exactly where it has 1 to 64 characters that a name may have and
/// doesn't begin with `-`; it is itself the name.
pub fn name_words_are_names()
    ensures { NameWordsAreNames }
{}
