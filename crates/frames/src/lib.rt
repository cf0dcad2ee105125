// Frames of an input, which the programs of many cases read: a line with the decimal number of bytes, and then those bytes. The
// number has no zero in front and at most 18 digits. A read that fails ends the reading with its error.
#![tactic(auto)]

ghost use Rattle.std.specs.Prelude.{◌≡◌, ◌≤◌, length, take, IfOk, IfSome, OnErr};
ghost use Rattle.std.specs.Io.KnownBytes.{Consumes};
ghost use Rattle.frames.specs.Inputs.{Advances, AdvancesInto};

use std::io;
use std::io::Read;
use thiserror::Error;

// Why there is no frame, though the input has not ended.
#[derive(Debug, Drop, Error)]
pub enum FrameError {
    #[error(transparent)]
    Read(#[from] io::Error),
    #[error("its first line is no size")]
    NoSize,
    #[error("the input ends before its size")]
    Short,
}

// Reads until the slice is full or the input ends, and answers how many bytes came. An error is that of a read, which leaves in the slice
// what came before it.
pub fn read_full<R: Read>(input: &mut R, space: &mut [u8]) -> io::Result<usize>
    ensures room { IfOk result (λ n. n ≤ length space.old) }
    ensures bytes { IfOk result (λ n. Consumes (R.remaining input.old) (R.remaining input.new) (take n space.new)) }
    ensures failed { OnErr result (AdvancesInto (R.remaining input.old) (R.remaining input.new) space.new) }
    ensures advances { Advances (R.remaining input.old) (R.remaining input.new) }
{
    let mut done = 0;
    while done < space.len() {
        let n = input.read(&mut space[done..])?;
        if n == 0 {
            break;
        }
        done += n;
    }
    Ok(done)
}

// The next byte; none where the input has ended.
fn next_byte<R: Read>(input: &mut R) -> io::Result<Option<u8>>
    ensures { Advances (R.remaining input.old) (R.remaining input.new) }
{
    let mut one = [0u8; 1];
    let got = read_full(input, &mut one)?;
    Ok((0 < got).then_some(one[0]))
}

// The size once one more digit is read. A size that is used has at most 18 digits, so that nothing of it is cut.
fn with_digit(size: usize, digit: u8) -> usize
    requires { 48 ≤ digit }
{
    size.saturating_mul(10)
        .saturating_add(usize::from(digit - b'0'))
}

// The rest of a size's line, after its first digit.
fn rest_of_size<R: Read>(input: &mut R, first: u8) -> Result<usize, FrameError>
    requires { 48 ≤ first }
    ensures { Advances (R.remaining input.old) (R.remaining input.new) }
{
    let mut size = with_digit(0, first);
    for _ in 0..18 {
        match next_byte(input)? {
            Some(b'\n') => return Ok(size),
            Some(byte) if byte.is_ascii_digit() && 0 < size => size = with_digit(size, byte),
            _ => return Err(FrameError::NoSize),
        }
    }
    Err(FrameError::NoSize)
}

// The size of the next frame; none where the input has ended.
fn size_of_frame<R: Read>(input: &mut R) -> Result<Option<usize>, FrameError>
    ensures { Advances (R.remaining input.old) (R.remaining input.new) }
{
    let Some(byte) = next_byte(input)? else {
        return Ok(None);
    };
    if !byte.is_ascii_digit() {
        return Err(FrameError::NoSize);
    }
    Ok(Some(rest_of_size(input, byte)?))
}

// Passes over some of so many bytes, and answers how many; 0 where the input has ended.
fn pass_some<R: Read>(input: &mut R, bytes: usize) -> io::Result<usize>
    ensures bound { IfOk result (λ n. n ≤ bytes) }
    ensures advances { Advances (R.remaining input.old) (R.remaining input.new) }
{
    let mut space = [0u8; 4096];
    let n = bytes.min(space.len());
    read_full(input, &mut space[..n])
}

// Passes over so many bytes.
fn pass_over<R: Read>(input: &mut R, bytes: usize) -> Result<(), FrameError>
    ensures { Advances (R.remaining input.old) (R.remaining input.new) }
{
    let mut left = bytes;
    while 0 < left {
        let n = pass_some(input, left)?;
        if n == 0 {
            return Err(FrameError::Short);
        }
        left -= n;
    }
    Ok(())
}

// Keeps as many of a frame's bytes as the slice holds, and passes over the rest.
fn frame_of<R: Read>(input: &mut R, size: usize, space: &mut [u8]) -> Result<usize, FrameError>
    ensures room { IfOk result (λ kept. kept ≤ length space.old) }
    ensures advances { Advances (R.remaining input.old) (R.remaining input.new) }
{
    let kept = size.min(space.len());
    let got = read_full(input, &mut space[..kept])?;
    if got < kept {
        return Err(FrameError::Short);
    }
    pass_over(input, size - kept)?;
    Ok(kept)
}

// Reads the next frame into a slice, and answers how many of its bytes are kept; none where the input has ended. Whatever comes of it, the
// input has given some bytes and no others.
pub fn next_frame<R: Read>(input: &mut R, space: &mut [u8]) -> Result<Option<usize>, FrameError>
    ensures room { IfOk result (λ frame. IfSome frame (λ kept. kept ≤ length space.old)) }
    ensures advances { Advances (R.remaining input.old) (R.remaining input.new) }
{
    match size_of_frame(input)? {
        Some(size) => Ok(Some(frame_of(input, size, space)?)),
        None => Ok(None),
    }
}
