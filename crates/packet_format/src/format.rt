//! The formats of captures.
ghost use Rattle.std.specs.Prelude.{◌≡◌, ◌≤◌, ◌++◌, length, IfOk, OnErr, OnOk};
ghost use Rattle.std.specs.Option.{option_map};
ghost use Rattle.packet_format.specs.Comment.{comment_text};
ghost use Rattle.packet_format.specs.Packets.{format_of, head_by, packet_by};
ghost use Rattle.pcapng.specs.Comment.{text_of};

use crate::comment::append_comment;
use afdx_frame::LentFrame;
use ledger_text::FrameLine;
use pcapng::{Comment, Interfaces};
use std::alloc::AllocError;
use vl_config::Config;

/// In which format a capture is written.
#[derive(Clone, Copy)]
pub enum PacketFormat<'a> {
    /// A pcap file (savefile format 2.4), with timestamps in nanoseconds.
    Pcap,
    /// A pcapng file (version 1.0).
    Pcapng {
        /// The interfaces that it describes.
        interfaces: Interfaces,
        /// The table whose names of links comments have.
        names: Option<&'a Config>,
    },
}

impl PacketFormat<'_> {
    /// Appends what a capture begins with.
    ///
    /// # Errors
    ///
    /// There is no memory for it. The bytes are as they were.
    pub fn append_head(self, bytes: &mut Vec<u8>) -> Result<(), AllocError>
        ensures head { OnOk result (bytes.new.items
            ≡ bytes.old.items ++ head_by (format_of self.entry)) }
        ensures memory { OnErr result (bytes.new.items ≡ bytes.old.items) }
    {
        match self {
            PacketFormat::Pcap => pcap_io::append_header(bytes),
            PacketFormat::Pcapng { interfaces, .. } => pcapng::append_head(bytes, interfaces),
        }
    }

    /// Appends the packet of a frame, with the first `keep` of its bytes. In a pcapng file it has the verdict
    /// of the frame's line as its comment, where a line is given. `text` is memory for the comment.
    ///
    /// # Errors
    ///
    /// There is no memory for it. The bytes are as they were.
    #[inline]
    pub fn append_packet(
        self,
        bytes: &mut Vec<u8>,
        text: &mut Vec<u8>,
        frame: &LentFrame<'_>,
        keep: u32,
        line: Option<&FrameLine>,
    ) -> Result<(), AllocError>
        requires { keep ≤ length frame.now.bytes }
        ensures packet { OnOk result (bytes.new.items ≡ bytes.old.items
            ++ packet_by (format_of self.entry) frame.now keep
            (option_map (λ l. l.now) line.entry)) }
        ensures memory { OnErr result (bytes.new.items ≡ bytes.old.items) }
    {
        match self {
            PacketFormat::Pcap => pcap_io::append_packet(bytes, frame, keep),
            PacketFormat::Pcapng { interfaces, names } => {
                let comment = comment_in(text, names, line)?;
                pcapng::append_packet(bytes, interfaces, frame, keep, comment)
            }
        }
    }
}

/// Makes the comment of a line, if there is one, in place of the text that was there.
fn comment_in<'t>(
    text: &'t mut Vec<u8>,
    names: Option<&Config>,
    line: Option<&FrameLine>,
) -> Result<Option<Comment<'t>>, AllocError>
    ensures { IfOk result (λ comment. text_of comment
        ≡ option_map (comment_text (option_map (λ c. c.now) names.entry))
        (option_map (λ l. l.now) line.entry)) }
{
    text.clear();
    let Some(line) = line else {
        return Ok(None);
    };
    append_comment(text, names, line)?;
    Ok(Comment::new(text))
}
