#![tactic(auto)]
// Answers the calls that stand on standard input, with a line for each on standard output.
ghost use Rattle.asked.specs.Parts.{Parts};

use asked::Call;
use lines::{Buffer, Line};

// The line of a file that is read. Its tables stand here, so that no other call has to make room for them.
fn read(file: &[u8], line: &mut Line) {
    answers::read(bumblereed::read(file), line);
}

// What the line of a call says, whose buffer is the start of `lent`.
fn reply(call: Call, lent: &mut [u8], line: &mut Line)
    requires { Parts 65536 65536 lent.old call }
{
    match call {
        Call::Read { file } => read(file, line),
        Call::Class { file } => answers::class(bumblereed::class_of(file), line),
        Call::Transform { file, out_room } => {
            let out = &mut lent[..out_room];
            answers::put("written", bumblereed::transform(file, out), out, line)
        }
        Call::SetPattern {
            file,
            output,
            pattern,
            play_room,
        } => {
            let play = &mut lent[..play_room];
            answers::put(
                "set",
                bumblereed::set_pattern(file, output, pattern, play),
                play,
                line,
            )
        }
        Call::ReadBack {
            file,
            output,
            play,
            clock,
            pattern_room,
        } => {
            let pattern = &mut lent[..pattern_room];
            answers::put(
                "read",
                bumblereed::read_back(file, output, play, clock, pattern),
                pattern,
                line,
            )
        }
        Call::CheckPlay { file, fault, play } => {
            answers::checked(bumblereed::check_play(file, fault, play), line)
        }
        Call::Search {
            file,
            fault,
            play_room,
        } => {
            let play = &mut lent[..play_room];
            answers::searched(bumblereed::search(file, fault, play), play, line)
        }
    }
}

// Answers one call after another: the line of each is written before the next is read. No call follows one that is bad.
// A proved loop has to end, and nothing says that the input does: the calls are counted to a number that no run reaches.
fn run(file: &mut Buffer, values: &mut Buffer, lent: &mut Buffer, line: &mut Line) {
    for _ in 0..u64::MAX {
        match asked::next(file, values, lent) {
            Ok(Some(call)) => reply(call, lent, line),
            Ok(None) => return,
            Err(bad) => {
                writeln!(line, "{bad}");
                line.flush();
                return;
            }
        }
        writeln!(line);
        line.flush();
    }
}

fn main() {
    let mut file = io::large_buffer();
    let mut values = io::large_buffer();
    let mut lent = io::large_buffer();
    let mut line = Line::new();
    run(&mut file, &mut values, &mut lent, &mut line);
}
