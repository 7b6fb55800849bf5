ghost use Rattle.std.specs.Prelude.{◌≡◌, ◌<◌, ◌≤◌, length, IfSome, IfNone, Some, None, option_map, not, drop, position};
ghost use Rattle.std.specs.List.{position_or_len};
ghost use Rattle.data_text.specs.Pieces.{is_blank as is_blank_byte, ends_word as ends_word_byte, sign, pieces};
ghost use Rattle.data_text.specs.Tokens.{piece_of, pieces_from};

/// A word or a sign of a line.
#[derive(Clone, Copy)]
pub(crate) enum Token<'a> {
    Word(&'a [u8]),
    Open,
    Comma,
    Close,
    Colon,
}

/// Whether a byte is a space or a tab.
#[tactic(auto, unfolding(crate::specs::Pieces::is_blank))]
pub(crate) fn is_blank(byte: u8) -> bool
    ensures { result ≡ is_blank_byte byte }
{
    byte == b' ' || byte == b'\t'
}

// The sign that a byte is.
#[tactic(auto, unfolding(crate::specs::Pieces::sign))]
fn sign_of(byte: u8) -> Option<Token<'static>>
    ensures { option_map piece_of result ≡ sign byte }
{
    match byte {
        b'[' => Some(Token::Open),
        b',' => Some(Token::Comma),
        b']' => Some(Token::Close),
        b':' => Some(Token::Colon),
        _ => None,
    }
}

#[tactic(auto, unfolding(crate::specs::Pieces::ends_word))]
fn ends_word(byte: u8) -> bool
    ensures { result ≡ ends_word_byte byte }
{
    is_blank(byte) || sign_of(byte).is_some()
}

// Where the first byte is that is no blank.
fn first_full(text: &[u8]) -> Option<usize>
    ensures { result ≡ position (λ b. not (is_blank_byte b)) text.now }
{
    text.iter().position(|byte| !is_blank(*byte))
}

// Where the first byte is that belongs to no word.
fn word_end(text: &[u8]) -> Option<usize>
    ensures { result ≡ position ends_word_byte text.now }
{
    text.iter().position(|byte| ends_word(*byte))
}

// The length of the word at the front of a text.
fn word_len(text: &[u8]) -> usize
    ensures within { result ≤ length text.now }
    ensures value { result ≡ position_or_len ends_word_byte text.now }
{
    word_end(text).unwrap_or(text.len())
}

// The text from its first byte on that is no blank.
fn skip_blanks(text: &[u8]) -> &[u8]
    ensures { result.now ≡ drop (position_or_len (λ b. not (is_blank_byte b)) text.now) text.now }
{
    let blanks = first_full(text).unwrap_or(text.len());
    text.split_at(blanks).1
}

/// The first word or sign of a text, and what follows it.
pub(crate) fn next_token(text: &[u8]) -> Option<(Token<'_>, &[u8])>
    ensures pieces { pieces text.now ≡ pieces_from result }
    ensures shorter { IfSome result (λ x. length x.1.now < length text.now) }
{
    let text = skip_blanks(text);
    let [first, after @ ..] = text else {
        return None;
    };
    if let Some(token) = sign_of(*first) {
        return Some((token, after));
    }
    let (word, rest) = text.split_at(word_len(text));
    Some((Token::Word(word), rest))
}
