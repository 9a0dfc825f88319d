//! How a round is cut into chunks.
ghost use Rattle.std.specs.Prelude.{◌≡◌, ◌+◌, ◌*◌, ◌<◌, ◌≤◌};
ghost use Rattle.worker_pool.specs.Chunks.{chunk_count, chunk_size};

/// The most items of a chunk, unless a pool is asked for another. A claim costs little beside the work on so
/// many.
pub const MAX_CHUNK: usize = 256;

/// How many items, at most `most`, a chunk of a round of `len` items has, where so many threads share it: two
/// chunks for each thread in a small round, so that it reaches all of them.
pub(crate) fn size_of_chunk(most: usize, threads: usize, len: usize) -> usize
    requires { (0 < threads) × (threads ≤ 65536) }
    ensures size { result ≡ chunk_size most threads len }
    ensures some { 0 < result }
{
    (len / (2 * threads)).min(most).max(1)
}

/// How many chunks of this size a round of `len` items has.
pub(crate) fn count_of_chunks(size: usize, len: usize) -> usize
    requires { 0 < size }
    ensures { result ≡ chunk_count size len }
{
    len.div_ceil(size)
}
