// Answers standard input as a board fresh from the factory does, reply bytes to standard output and nothing else.
#![tactic(auto)]

use record::places::RECORD_SIZE;
use std::io::{self, Read, Write};
use wire::sizes::{INPUT_MOST, ROOM_MOST};

// One turn: what one read brings in, its replies out. Answers whether to go on.
fn answer_some(
    from: &mut impl Read,
    to: &mut impl Write,
    rec: &mut [u8],
    input: &mut [u8],
    out: &mut [u8],
) -> io::Result<bool> {
    let n = from.read(input)?;
    if n == 0 {
        return Ok(false);
    }
    let answer = board::board_bytes(rec, &input[..n], out);
    let written = answer.written as usize;
    if out.len() < written {
        return Ok(false);
    }
    to.write_all(&out[..written])?;
    Ok(true)
}

// A proved loop has to end, and nothing says that the input does: no run uses up so many turns.
fn answer_all(
    from: &mut impl Read,
    to: &mut impl Write,
    rec: &mut [u8],
    input: &mut [u8],
    out: &mut [u8],
) -> io::Result<()> {
    for _ in 0..u64::MAX {
        if !answer_some(from, to, rec, input, out)? {
            break;
        }
    }
    Ok(())
}

fn main(rt: HostRuntime) -> io::Result<()> {
    let mut rec = [0u8; RECORD_SIZE];
    let mut input = [0u8; INPUT_MOST];
    let mut out = [0u8; ROOM_MOST];
    board::board_factory(&mut rec);
    answer_all(
        &mut rt.stdin(),
        &mut rt.stdout(),
        &mut rec,
        &mut input,
        &mut out,
    )
}
