//! The block of a packet.
ghost use Rattle.std.specs.Prelude.{◌≡◌, ◌+◌, ◌^◌, ◌<◌, ◌≤◌, ◌++◌, length, take, OnOk, OnErr, IfSome, vec_len};
ghost use Rattle.std.specs.Vec.{vec_capacity};
ghost use Rattle.pcapng.specs.Blocks.{interface_of, packet_block, packet_options};
ghost use Rattle.pcapng.specs.Comment.{text_of};
ghost use Rattle.pcapng.specs.Parts.{option_head, packet_head};

use crate::comment::Comment;
use crate::interfaces::Interfaces;
use crate::parts::{append, append_padded, padding_len};
use afdx_frame::LentFrame;
use byteorder::{ByteOrder, LittleEndian};
use std::alloc::AllocError;

/// The type of an enhanced packet block.
const ENHANCED_PACKET: u32 = 6;

/// The bytes of a block before the packet's: the type, the total length and five fields.
const HEAD_LEN: usize = 28;

/// The bytes of the total length at a block's end.
const TAIL_LEN: usize = 4;

/// The bytes of an option's code and length.
const OPTION_HEAD_LEN: usize = 4;

/// The option opt_endofopt.
const END_OF_OPTIONS: [u8; OPTION_HEAD_LEN] = [0; 4];

/// How many bytes the options have.
#[inline(always)]
fn options_len(comment: Option<Comment<'_>>) -> usize
    ensures value { result ≡ length (packet_options (text_of comment.entry)) }
    ensures few { result ≤ 65546 }
{
    match comment {
        Some(comment) => {
            let len = comment.text().len();
            OPTION_HEAD_LEN + len + padding_len(len) + END_OF_OPTIONS.len()
        }
        None => 0,
    }
}

/// The head of a block of this total length, before the packet's bytes.
#[inline(always)]
fn packet_head(interface: u32, frame: &LentFrame<'_>, keep: u32, total: u32) -> [u8; HEAD_LEN]
    ensures { result ≡ packet_head interface frame.now keep total }
{
    let stamp = frame.stamp().0;
    let mut head = [0; HEAD_LEN];
    LittleEndian::write_u32(&mut head, ENHANCED_PACKET);
    LittleEndian::write_u32(&mut head[4..], total);
    LittleEndian::write_u32(&mut head[8..], interface);
    LittleEndian::write_u32(&mut head[12..], (stamp >> 32) as u32);
    LittleEndian::write_u32(&mut head[16..], (stamp % (1 << 32)) as u32);
    LittleEndian::write_u32(&mut head[20..], keep);
    LittleEndian::write_u32(&mut head[24..], frame.whole());
    head
}

/// Appends the options.
#[inline(always)]
fn append_options(bytes: &mut Vec<u8>, comment: Option<Comment<'_>>)
    requires { vec_len bytes.old + length (packet_options (text_of comment)) ≤ vec_capacity bytes.old }
    ensures items { bytes.new.items ≡ bytes.old.items ++ packet_options (text_of comment.entry) }
    ensures capacity { vec_capacity bytes.old ≤ vec_capacity bytes.new }
{
    let Some(comment) = comment else {
        return;
    };
    let text = comment.text();
    append(bytes, &option_head(text.len() as u16));
    append_padded(bytes, text);
    append(bytes, &END_OF_OPTIONS);
}

/// The code and the length of a comment.
#[inline(always)]
fn option_head(len: u16) -> [u8; OPTION_HEAD_LEN]
    ensures { result ≡ option_head len }
{
    let mut head = [0; OPTION_HEAD_LEN];
    LittleEndian::write_u16(&mut head, 1);
    LittleEndian::write_u16(&mut head[2..], len);
    head
}

/// Appends the block of a frame's packet, with the first `keep` of its bytes, and the comment, if there is
/// one. Its interface is that of the frame's network.
///
/// # Errors
///
/// There is no memory for the block. The bytes are as they were.
#[tactic(auto, unfolding(crate::specs::Blocks::packet_block))]
pub fn append_packet(
    bytes: &mut Vec<u8>,
    interfaces: Interfaces,
    frame: &LentFrame<'_>,
    keep: u32,
    comment: Option<Comment<'_>>,
) -> Result<(), AllocError>
    requires { keep ≤ length frame.now.bytes }
    ensures block { OnOk result (bytes.new.items ≡ bytes.old.items
        ++ packet_block interfaces frame.now keep (text_of comment.entry)) }
    ensures memory { OnErr result (bytes.new.items ≡ bytes.old.items) }
{
    let kept = &frame.view().bytes()[..keep as usize];
    let total = HEAD_LEN + kept.len() + padding_len(kept.len()) + options_len(comment) + TAIL_LEN;
    let interface = interfaces.number(frame.network());
    bytes.reserve(total)?;
    append(bytes, &packet_head(interface, frame, keep, total as u32));
    append_padded(bytes, kept);
    append_options(bytes, comment);
    append(bytes, &(total as u32).to_le_bytes());
    Ok(())
}
