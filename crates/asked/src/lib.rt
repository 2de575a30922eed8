#![tactic(auto)]
// The calls that stand on standard input, one after another.
ghost use Rattle.std.specs.Prelude.{◌≤◌, IfOk, IfSome, Some, codes, length};
ghost use Rattle.asked.specs.Parts.{Lent, Parts};

use chip::{Fault, Site};
use std::fmt;

// What a lent buffer holds before a call.
const UNWRITTEN: u8 = 0xee;

// Input that can be no call: an unknown code, a length above that of its buffer, or an end inside of a call.
#[derive(Clone, Copy, Debug)]
pub struct BadCall;

impl fmt::Display for BadCall {
    ghost output = { λ _. Some (codes "bad call") };

    fn fmt<W: fmt::Write>(&self, f: &mut fmt::Formatter<W>) -> fmt::Result {
        f.write_str("bad call")
    }
}

// A call, with its fields in their order. What it is lent is the start of a buffer that stays with the caller: a room says how
// many bytes.
#[derive(Clone, Copy)]
pub enum Call<'a> {
    Read {
        file: &'a [u8],
    },
    Class {
        file: &'a [u8],
    },
    Transform {
        file: &'a [u8],
        out_room: usize,
    },
    SetPattern {
        file: &'a [u8],
        output: usize,
        pattern: &'a [u8],
        play_room: usize,
    },
    ReadBack {
        file: &'a [u8],
        output: usize,
        play: &'a [u8],
        clock: usize,
        pattern_room: usize,
    },
    CheckPlay {
        file: &'a [u8],
        fault: Fault,
        play: &'a [u8],
    },
    Search {
        file: &'a [u8],
        fault: Fault,
        play_room: usize,
    },
}

// Which call it is.
#[derive(Clone, Copy, Debug)]
enum Code {
    Read,
    Class,
    Transform,
    SetPattern,
    ReadBack,
    CheckPlay,
    Search,
}

impl TryFrom<u8> for Code {
    type Error = BadCall;

    fn try_from(code: u8) -> Result<Code, BadCall> {
        match code {
            0 => Ok(Code::Read),
            1 => Ok(Code::Class),
            2 => Ok(Code::Transform),
            3 => Ok(Code::SetPattern),
            4 => Ok(Code::ReadBack),
            5 => Ok(Code::CheckPlay),
            6 => Ok(Code::Search),
            _ => Err(BadCall),
        }
    }
}

// The next call: its file is put at the start of `file`, its pattern or play at the start of `values`, and its buffer is the
// start of `lent`. There is none at the end of the input. Nothing is read behind a field that is cut or too long.
// Open: which call it is, what was read, and the bytes of `lent` behind the call's buffer: what is read comes from outside the program, and nobody reads those bytes.
pub fn next<'a>(
    file: &'a mut [u8],
    values: &'a mut [u8],
    lent: &mut [u8],
) -> Result<Option<Call<'a>>, BadCall>
    ensures { IfOk result (λ next. IfSome next (Parts (length file.old) (length values.old) lent.new)) }
{
    let Some(code) = next_code()? else {
        return Ok(None);
    };
    let file = string(file)?;
    Ok(Some(match code {
        Code::Read => Call::Read { file },
        Code::Class => Call::Class { file },
        Code::Transform => Call::Transform {
            file,
            out_room: lend(lent)?,
        },
        Code::SetPattern => Call::SetPattern {
            file,
            output: number()?,
            pattern: string(values)?,
            play_room: lend(lent)?,
        },
        Code::ReadBack => Call::ReadBack {
            file,
            output: number()?,
            play: string(values)?,
            clock: number()?,
            pattern_room: lend(lent)?,
        },
        Code::CheckPlay => Call::CheckPlay {
            file,
            fault: fault()?,
            play: string(values)?,
        },
        Code::Search => Call::Search {
            file,
            fault: fault()?,
            play_room: lend(lent)?,
        },
    }))
}

// The code that comes next, none at the end of the input.
fn next_code() -> Result<Option<Code>, BadCall> {
    let mut byte = [0u8];
    if io::read_full(0, &mut byte) == 0 {
        return Ok(None);
    }
    Ok(Some(Code::try_from(byte[0])?))
}

// The number that comes next: four bytes, low byte first.
fn number() -> Result<usize, BadCall> {
    let mut bytes = [0u8; 4];
    if io::read_full(0, &mut bytes) < bytes.len() {
        return Err(BadCall);
    }
    Ok(u32::from_le_bytes(bytes) as usize)
}

// The length that comes next, of a part of `buffer`.
fn length(buffer: &[u8]) -> Result<usize, BadCall>
    ensures { IfOk result (λ n. n ≤ length buffer.now) }
{
    let n = number()?;
    if buffer.len() < n {
        return Err(BadCall);
    }
    Ok(n)
}

// The string that comes next, put at the start of a buffer.
fn string(buffer: &mut [u8]) -> Result<&[u8], BadCall>
    ensures { IfOk result (λ bytes. length bytes.now ≤ length buffer.old) }
{
    let n = length(buffer)?;
    let bytes = &mut buffer[..n];
    if io::read_full(0, bytes) < bytes.len() {
        return Err(BadCall);
    }
    Ok(bytes)
}

// The length of the buffer that comes next, which is the start of `buffer`.
fn lend(buffer: &mut [u8]) -> Result<usize, BadCall>
    ensures { IfOk result (Lent buffer.new) }
{
    let room = length(buffer)?;
    buffer[..room].fill(UNWRITTEN);
    Ok(room)
}

// The fault that comes next: its sort, 0 for a net and else a pin, its number, and its stuck value, of which any above 255 is as
// good as 255.
fn fault() -> Result<Fault, BadCall> {
    let sort = number()?;
    let place = number()?;
    let stuck = number()?;
    Ok(Fault {
        site: if sort == 0 {
            Site::Net(place)
        } else {
            Site::Pin(place)
        },
        stuck: u8::try_from(stuck).unwrap_or(u8::MAX),
    })
}
