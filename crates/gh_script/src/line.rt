//! A line cut into words.

ghost use Rattle.std.specs.Prelude.{◌≡◌, ◌+◌, ◌<◌, ◌≤◌, drop, length};
ghost use Rattle.std.specs.List.{position_or_len, prefix_len};
ghost use Rattle.gh_script.specs.Said.{said};
ghost use Rattle.gh_script.specs.Text.{is_blank, is_feed, sentence_of, without_return, word_in_front, words_of};

fn is_blank(b: u8) -> bool
    ensures { result ≡ is_blank b }
{
    b == b' ' || b == b'\t'
}

/// Where the first blank of a line stands, or its length.
#[tactic(auto, using(std::proofs::lemmas::List::Sums::position_or_len_is))]
fn blank_index(line: &[u8]) -> usize
    ensures at { result ≡ position_or_len is_blank line.now }
    ensures within { result ≤ length line.now }
{
    for (i, b) in line.iter().enumerate() {
        if is_blank(*b) {
            return i;
        }
    }
    line.len()
}

/// Where the first line feed of a text stands, or its length.
#[tactic(auto, using(std::proofs::lemmas::List::Sums::position_or_len_is))]
pub fn feed_index(text: &[u8]) -> usize
    ensures at { result ≡ position_or_len is_feed text.now }
    ensures within { result ≤ length text.now }
{
    for (i, b) in text.iter().enumerate() {
        if *b == b'\n' {
            return i;
        }
    }
    text.len()
}

/// What stands behind place `end` of a text.
pub fn behind(text: &[u8], end: usize) -> &[u8]
    requires { end ≤ length text.now }
    ensures { result.now ≡ drop (end + 1) text.now }
{
    if end < text.len() {
        &text[end + 1..]
    } else {
        &text[end..]
    }
}

/// A line without the carriage return at its end.
pub fn stripped(line: &[u8]) -> &[u8]
    ensures { result.now ≡ without_return line.now }
{
    let len = line.len();
    if len > 0 && line[len - 1] == b'\r' {
        &line[..len - 1]
    } else {
        line
    }
}

/// How many blanks a line begins with.
#[tactic(auto, using(std::proofs::lemmas::List::Sums::prefix_len_is))]
fn blank_count(line: &[u8]) -> usize
    ensures at { result ≡ prefix_len is_blank line.now }
    ensures within { result ≤ length line.now }
{
    for (i, b) in line.iter().enumerate() {
        if !is_blank(*b) {
            return i;
        }
    }
    line.len()
}

/// The first word, and what follows it; both are empty where there is no word.
pub fn next_word(line: &[u8]) -> (&[u8], &[u8])
    ensures cut { words_of line.now ≡ word_in_front result.0.now (words_of result.1.now) }
    ensures none { length result.0.now ≡ 0 → length result.1.now ≡ 0 }
    ensures rest { length result.0.now + length result.1.now ≤ length line.now }
{
    let rest = &line[blank_count(line)..];
    rest.split_at(blank_index(rest))
}

/// How many words a line has.
fn word_count(line: &[u8]) -> usize
    ensures { result ≡ length (words_of line.now) }
{
    let mut count = 0;
    let mut rest = line;
    'words: while !rest.is_empty() {
        let (word, others) = next_word(rest);
        if word.is_empty() {
            return count;
        }
        count += 1;
        rest = others;
    }
    count
}

/// A line's first four words, each empty where the line has fewer, and how many words it has.
#[derive(Clone, Copy)]
pub struct Sentence<'a> {
    pub first: &'a [u8],
    pub second: &'a [u8],
    pub third: &'a [u8],
    pub fourth: &'a [u8],
    pub count: usize,
}

/// The words of a line.
pub fn words(line: &[u8]) -> Sentence<'_>
    ensures { said result ≡ sentence_of (words_of line.now) }
{
    let (first, rest) = next_word(line);
    let (second, rest) = next_word(rest);
    let (third, rest) = next_word(rest);
    let (fourth, _) = next_word(rest);
    Sentence {
        first,
        second,
        third,
        fourth,
        count: word_count(line),
    }
}
