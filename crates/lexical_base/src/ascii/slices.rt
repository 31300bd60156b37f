//! The tests of slices. They read 32 bytes at a time, and the bytes after the last 32 one by one.

ghost use Rattle.std.specs.Prelude.{◌≡◌, ◌↔◌, IsTrue};
ghost use Rattle.std.specs.List.{AllPass, list_all};
ghost use Rattle.lexical_base.specs.Ascii.{allowed_ascii, letters};
ghost use Rattle.lexical_base.specs.Private.{in_two_ranges};

use std::simd::prelude::*;

/// Returns whether every byte of `slc` is allowed ASCII, as [`is_valid_ascii`][super::is_valid_ascii] defines it. If
/// `slc` is empty, the result is `true`.
#[must_use]
pub fn is_valid_ascii_slice(slc: &[u8]) -> bool
    ensures { IsTrue result ↔ AllPass allowed_ascii slc.now }
{
    all_in_ranges(slc, (0x09, 0x0d), (0x20, 0x7e))
}

/// Returns whether every byte of `slc` is an ASCII letter, uppercase or lowercase. If `slc` is empty, the result is
/// `true`.
#[must_use]
pub fn is_valid_letter_slice(slc: &[u8]) -> bool
    ensures { IsTrue result ↔ AllPass letters slc.now }
{
    all_in_ranges(slc, (b'A', b'Z'), (b'a', b'z'))
}

// Returns whether every byte of `bytes` is in one of two ranges. Each range is given by its lowest and its highest byte.
#[tactic(auto, using(crate::proofs::LaneLemmas::chunks_and_rest))]
fn all_in_ranges(bytes: &[u8], first: (u8, u8), second: (u8, u8)) -> bool
    ensures { IsTrue result ↔ AllPass (in_two_ranges first second) bytes.now }
{
    let (chunks, rest) = bytes.as_chunks::<32>();
    chunks_in_ranges(chunks, first, second) & bytes_in_ranges(rest, first, second)
}

// Returns whether every byte of every chunk is in one of two ranges.
fn chunks_in_ranges(chunks: &[[u8; 32]], first: (u8, u8), second: (u8, u8)) -> bool
    ensures { result ≡ list_all (list_all (in_two_ranges first second)) chunks.now }
{
    chunks.iter().all(|chunk| lanes_in_ranges(u8x32::from_array(*chunk), first, second))
}

// Returns whether all 32 bytes of `lanes` are in one of two ranges.
#[tactic(auto, using(crate::proofs::LaneLemmas::all_lanes))]
fn lanes_in_ranges(lanes: u8x32, first: (u8, u8), second: (u8, u8)) -> bool
    ensures { result ≡ list_all (in_two_ranges first second) lanes }
{
    let in_first = lanes.simd_ge(u8x32::splat(first.0)) & lanes.simd_le(u8x32::splat(first.1));
    let in_second = lanes.simd_ge(u8x32::splat(second.0)) & lanes.simd_le(u8x32::splat(second.1));
    (in_first | in_second).all()
}

// Returns whether every byte of `bytes` is in one of two ranges, and reads them one by one.
fn bytes_in_ranges(bytes: &[u8], first: (u8, u8), second: (u8, u8)) -> bool
    ensures { result ≡ list_all (in_two_ranges first second) bytes.now }
{
    bytes.iter().all(|byte| {
        (first.0 <= *byte && *byte <= first.1) || (second.0 <= *byte && *byte <= second.1)
    })
}
