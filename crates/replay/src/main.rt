// Replays a script of calls from standard input, one a line, and prints one line for each (docs/REPLAY.md).
#![tactic(auto)]

mod desk;
mod hex;
mod lent;
mod order;
mod print;
mod sink;
mod source;
mod stop;

use desk::Desk;
use order::INPUT;
use sink::Sink;
use source::Source;
use std::io::Write;
use stop::Stop;

// Reads a line, obeys it and answers it. Was there one?
fn turn(
    source: &mut Source,
    bytes: &mut [u8; INPUT],
    desk: &mut Desk,
    out: &mut Sink,
) -> Result<bool, Stop> {
    let Some(order) = order::read(source, bytes)? else {
        return Ok(false);
    };
    desk.obey(order);
    print::line(out, order, desk)?;
    Ok(true)
}

// Plays the whole script. Nothing says that the input ends: the lines count up to a number that no run reaches.
fn play(source: &mut Source, desk: &mut Desk, out: &mut Sink) -> Result<(), Stop> {
    let mut bytes = [0; INPUT];
    for line in 1..u64::MAX {
        match turn(source, &mut bytes, desk, out) {
            Ok(true) => {}
            Ok(false) => break,
            Err(Stop::BadLine) => {
                writeln!(out, "{} {line}", Stop::BadLine)?;
                break;
            }
            Err(stop) => return Err(stop),
        }
    }
    Ok(())
}

// Says on standard error why a run ended early, if it did.
fn tell(rt: &impl Eprint, ended: Result<(), Stop>) {
    if let Err(stop) = ended {
        let _ = eprintln!(rt; "replay: {stop}");
    }
}

fn main(rt: HostRuntime) {
    let mut source = Source::new(rt.stdin());
    let mut desk = Desk::new();
    let mut out = Sink::new(rt.stdout());
    let played = play(&mut source, &mut desk, &mut out);
    let flushed = out.flush().map_err(Stop::from);
    tell(&rt, played);
    tell(&rt, flushed);
}
