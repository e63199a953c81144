//! Where a word stands that no recipe has.

/// The word of a sentence that names an unknown one between backquotes.
fn unknown_word(sentence: &str) -> Option<&str> {
    let rest = sentence.strip_prefix("unknown field `")?;
    let (word, _) = rest.split_once('`')?;
    Some(word)
}

/// Whether a line gives a value to a word.
fn sets(line: &str, word: &str) -> bool {
    match line.split_once('=') {
        Some((name, _)) => name.trim().trim_matches('"') == word,
        None => false,
    }
}

/// The number of the line, from 1 on, that has the word which a sentence calls unknown.
pub fn line_of_unknown(text: &str, sentence: &str) -> Option<usize> {
    let word = unknown_word(sentence)?;
    for (place, line) in text.lines().enumerate() {
        if sets(line, word) {
            return Some(place.saturating_add(1));
        }
    }
    None
}
