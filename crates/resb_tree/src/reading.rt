ghost use Rattle.std.specs.Prelude.{◌≡◌, ℕ, ◌+◌, ◌*◌, ◌<◌, ◌≤◌, length, IfOk};
ghost use Rattle.resb_tree.specs.Header.{header_size, is_header, is_index, body_of, tree_of};
ghost use Rattle.resb_tree.specs.BodyView.{told};
ghost use Rattle.resb_tree.specs.Reading.{Gives};

use crate::body::BodyWords;
use crate::error::ResbError;
use crate::in_place::Bundle;
use crate::resource::Resource;
use crate::words::byte_at;
use std::alloc::Global;

/// The size of the header, in bytes.
fn header_size(words: &[u32]) -> usize
    requires { 0 < length words.now }
    ensures { result ≡ header_size words.now }
{
    byte_at(words, 0) as usize + 256 * byte_at(words, 1) as usize
}

/// Whether the words begin with a header of format 2.
fn is_header(words: &[u32]) -> bool
    requires { 6 ≤ length words.now }
    ensures { result ≡ is_header words.now }
{
    let size = header_size(words);
    words.len() <= 1_048_576
        && 24 <= size
        && size % 4 == 0
        && size <= 4 * words.len()
        && byte_at(words, 2) == 0xDA
        && byte_at(words, 3) == 0x27
        && byte_at(words, 8) == 0
        && byte_at(words, 9) == 0
        && byte_at(words, 10) == 2
        && byte_at(words, 12) == 0x52
        && byte_at(words, 13) == 0x65
        && byte_at(words, 14) == 0x73
        && byte_at(words, 15) == 0x42
        && byte_at(words, 16) == 2
}

/// Whether the ends that the index tells are in order.
fn is_index(words: &[u32]) -> bool
    requires { 8 ≤ length words.now }
    ensures { result ≡ is_index words.now }
{
    let count = words[1] % 256;
    7 <= count
        && 1 + count <= words[2]
        && words[2] <= words[7]
        && words[7] <= words[3]
        && words[3] <= words[4]
        && words[4] as usize <= words.len()
        && words[6] / 2 % 4 == 0
}

/// The words behind the header, with their ends.
#[tactic(auto, unfolding(crate::specs::Header::body_of))]
pub fn body_of(words: &[u32]) -> Result<BodyWords<'_>, ResbError>
    ensures value { Gives told result (body_of words.now) }
    ensures root { IfOk result (λ body. 0 < length body.words.now) }
{
    if words.len() < 6 || !is_header(words) {
        return Err(ResbError::NoTree);
    }
    let rest = &words[header_size(words) / 4..];
    if rest.len() < 8 || !is_index(rest) {
        return Err(ResbError::NoTree);
    }
    Ok(BodyWords {
        words: rest,
        keys_end: rest[2] as usize,
        area_end: rest[7] as usize,
        end: rest[4] as usize,
    })
}

/// The tree that the words of a bundle denote.
pub fn read(alloc: Global, words: &[u32]) -> Result<Resource, ResbError>
    ensures { Gives (λ x. x) result (tree_of words.now) }
{
    let bundle = Bundle::open(alloc, words)?;
    let tree = bundle.root().to_tree(alloc)?;
    Ok(tree)
}
