// ribrun: reads a schedule from standard input, and prints its listing.
#![tactic(auto)]

ghost use Rattle.std.specs.Prelude.{◌≡◌, ◌++◌, []};
ghost use Rattle.listing.specs.Outputs.{held};
ghost use Rattle.schedule.specs.Meaning.{listing};
ghost use Rattle.streams.specs.Streams.{Writes};

mod reading;
#[cfg(test)]
mod tests;

use crate::reading::read_input;
use listing::output::Output;
use schedule::desk::Desk;
use schedule::schedule::Schedule;
use std::io;
use streams::sink::Sink;

// Prints the listing of a schedule, its calls made at a desk over rows that nobody has measured, 16 for each lock. What the
// output held and then the listing is written, and no more; where a write fails it is a front of that. Afterwards no
// byte is held, whatever comes of it.
fn list<S: Sink>(input: &[u8], out: &mut Output<S>) -> Result<(), S::Error>
    ensures writes { Writes (held out.old ++ listing input.now) (S.contents out.old.sink) (S.contents out.new.sink) result }
    ensures empty { held out.new ≡ [] }
{
    let (mut a, mut b, mut c, mut d) = ([0; 16], [0; 16], [0; 16], [0; 16]);
    let mut desk = Desk::new(&mut a, &mut b, &mut c, &mut d);
    Schedule::new(input, &mut desk).print(out)
}

fn main(rt: HostRuntime) -> io::Result<()> {
    let mut input = Vec::new(rt.alloc());
    read_input(&mut rt.stdin(), &mut input)?;
    list(input.as_slice(), &mut Output::new(rt.stdout()))
}
