//! Parts of a block, appended where there is room.
ghost use Rattle.std.specs.Prelude.{◌≡◌, ◌+◌, ◌≤◌, ◌++◌, length, vec_len};
ghost use Rattle.std.specs.Vec.{vec_capacity};
ghost use Rattle.pcapng.specs.Blocks.{padded, padding_len};

/// How many bytes so many lack to a multiple of 4.
#[inline(always)]
pub fn padding_len(len: usize) -> usize
    ensures value { result ≡ padding_len len }
    ensures few { result ≤ 3 }
{
    (4 - len % 4) % 4
}

/// Appends bytes.
#[inline(always)]
pub fn append(bytes: &mut Vec<u8>, part: &[u8])
    requires { vec_len bytes.old + length part.now ≤ vec_capacity bytes.old }
    ensures items { bytes.new.items ≡ bytes.old.items ++ part.now }
    ensures capacity { vec_capacity bytes.old ≤ vec_capacity bytes.new }
{
    bytes.extend_from_slice(part).unwrap();
}

/// Appends bytes, and zeros up to a multiple of 4 of them.
#[inline(always)]
pub fn append_padded(bytes: &mut Vec<u8>, part: &[u8])
    requires { vec_len bytes.old + (length part.now + padding_len (length part.now))
        ≤ vec_capacity bytes.old }
    ensures items { bytes.new.items ≡ bytes.old.items ++ padded part.now }
    ensures capacity { vec_capacity bytes.old ≤ vec_capacity bytes.new }
{
    append(bytes, part);
    append(bytes, &[0; 3][..padding_len(part.len())]);
}
