//! A run of letters, digits and `_` is one token, which its first byte decides: a number or a name.

ghost use Rattle.std.specs.Prelude.{◌≡◌, ◌<◌, take, drop, length};
ghost use Rattle.std.specs.List.{prefix_len};
ghost use Rattle.bpf_text.specs.Tokens.{is_word_byte, word_item};
ghost use Rattle.bpf_text.specs.Views.{item_of};

use crate::fault::TextFault;
use crate::keyword::keyword_of;
use crate::lexer::Token;
use crate::number::number_of;

/// The token that the word at an offset is: a number where it begins with a digit.
#[tactic(auto, unfolding(crate::specs::Tokens::word_item))]
pub(crate) fn word_token(at: usize, word: &str) -> Result<Token<'_>, TextFault>
    requires { 0 < length word.now }
    ensures { item_of at result ≡ word_item at word.now }
{
    if word.as_bytes()[0].is_ascii_digit() {
        match number_of(word.as_bytes()) {
            Some(size) => Ok(Token::Number(size)),
            None => Err(TextFault::Number { at }),
        }
    } else {
        match keyword_of(word) {
            Some(keyword) => Ok(Token::Keyword(keyword)),
            None => Ok(Token::Name(word)),
        }
    }
}

/// The word of the text at the offset.
pub(crate) fn slice_word(text: &str, at: usize, len: usize) -> &str
    requires word { len ≡ prefix_len is_word_byte (drop at text.now) }
    requires nonempty { 0 < len }
    ensures { result.now ≡ take len (drop at text.now) }
{
    &text[at..at + len]
}
