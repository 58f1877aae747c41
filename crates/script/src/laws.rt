ghost use Rattle.script.specs.Laws.{ReadsTheGrammar, SpacedWordsAreRead, EndedLinesAreRead};

/// A law: what is read of some bytes, word by word, is exactly what the grammar says of them.
pub fn reads_the_grammar()
    ensures { ReadsTheGrammar }
{}

/// A law: words with single spaces between them are read as these words, up to a word `=`.
pub fn spaced_words_are_read()
    ensures { SpacedWordsAreRead }
{}

/// A law: lines that newlines end are read as these lines.
pub fn ended_lines_are_read()
    ensures { EndedLinesAreRead }
{}
