// The Writes of a flash: the length of each, its part of the image, whether it is the last, and how many there are.
ghost use Rattle.std.specs.Prelude.{◌≡◌, ◌+◌, ◌^◌, ◌<◌, length};
ghost use Rattle.paper.specs.Answers.{padded};
ghost use Rattle.paper.specs.Flash.{write_size};
ghost use Rattle.image.specs.Images.{paper_info};
ghost use Rattle.image.specs.Pieces.{left, is_last, image_bytes, part, chunks_to, chunks};

use crate::Info;

// How many bytes are left from an offset on. The image has n bytes, and is padded. Kept as two numbers with
// `n < 2 ^ 63`, as in the calls below: docs/CONTRACTS.md names them, so a type with the bound would ask more of a caller.
#[tactic(auto, unfolding(paper::specs::Answers::padding))]
pub fn left(n: usize, offset: u64) -> usize
    requires { n < 2 ^ 63 }
    ensures { result ≡ left n offset }
{
    let padded = n + crate::padding(n);
    padded.saturating_sub(offset as usize)
}

// How many bytes a Write carries: a chunk or what is left.
pub fn size(info: Info, n: usize, offset: u64) -> usize
    requires { n < 2 ^ 63 }
    ensures { result ≡ write_size (paper_info info) n offset }
{
    info.chunk().min(left(n, offset))
}

// Whether the Write at an offset is the last: it carries all that is left.
#[tactic(auto, unfolding(crate::specs::Pieces::is_last))]
pub fn last(info: Info, n: usize, offset: u64) -> bool
    requires { n < 2 ^ 63 }
    ensures { result ≡ is_last (paper_info info) n offset }
{
    left(n, offset) <= info.chunk()
}

// How many of a Write's bytes come from the image, the others being padding. None if the offset is past the end.
#[tactic(auto, unfolding(crate::specs::Pieces::image_bytes))]
pub fn image_bytes(n: usize, offset: u64, size: usize) -> usize
    ensures { result ≡ image_bytes n offset size }
{
    size.min(n.saturating_sub(offset as usize))
}

// The part of the image from an offset on, at most size bytes.
#[tactic(auto, unfolding(crate::specs::Pieces::image_bytes))]
pub fn part(image: &[u8], offset: u64, size: usize) -> &[u8]
    ensures { result.now ≡ part offset size image.now }
{
    let from = image.len().min(offset as usize);
    let to = from + image_bytes(image.len(), offset, size);
    &image[from..to]
}

// How many chunks are done after the one at an offset.
pub fn chunks_to(info: Info, offset: u64) -> u64
    ensures { result ≡ chunks_to (paper_info info) offset }
{
    let before = offset.checked_div(info.chunk() as u64);
    before.unwrap_or(0) + 1
}

// How many chunks an image of n bytes has, once it is padded.
#[tactic(auto, using(crate::proofs::Ways::steps_ceil), unfolding(paper::specs::Answers::steps))]
pub fn chunks(info: Info, n: usize) -> u64
    requires { n < 2 ^ 63 }
    ensures { result ≡ chunks (paper_info info) n }
{
    let chunk = info.chunk();
    if chunk == 0 {
        return 0;
    }
    left(n, 0).div_ceil(chunk) as u64
}
