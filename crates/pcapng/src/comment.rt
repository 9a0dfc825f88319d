//! The comment of a packet.
ghost use Rattle.std.specs.Prelude.{◌≡◌, ◌≤◌, ◌↔◌, length, IsSome, IfSome};
ghost use Rattle.pcapng.specs.declared.comment.TheConstants.{MAX_COMMENT_LEN};

/// The most bytes of a comment: its option counts them in 16 bits.
pub const MAX_COMMENT_LEN: usize = 65_535;

/// The comment of a packet, the option `opt_comment` of its block. The format has it in UTF-8, without a zero
/// at the end.
#[derive(Clone, Copy)]
pub struct Comment<'a> {
    text: &'a [u8],
    ghost short: { length text.now ≤ MAX_COMMENT_LEN },
}

impl<'a> Comment<'a> {
    ghost use Rattle.pcapng.specs.Comment.{comment_text};

    /// A comment of this text. None: it has more than [`MAX_COMMENT_LEN`] bytes.
    #[inline(always)]
    pub fn new(text: &'a [u8]) -> Option<Comment<'a>>
        ensures some { IsSome result ↔ length text.now ≤ MAX_COMMENT_LEN }
        ensures text { IfSome result (λ comment. comment_text comment ≡ text.now) }
    {
        if text.len() <= MAX_COMMENT_LEN {
            Some(Comment { text })
        } else {
            None
        }
    }

    /// The text.
    #[inline(always)]
    pub fn text(&self) -> &'a [u8]
        ensures text { result.now ≡ comment_text self.now }
        ensures short { length result.now ≤ MAX_COMMENT_LEN }
    {
        self.text
    }
}
