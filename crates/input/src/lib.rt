// An input read to its end, where a read that fails is told apart from the end.
#![tactic(auto)]

ghost use Rattle.std.specs.Prelude.{◌≡◌, IfSome};
ghost use Rattle.std.specs.Counts.{IsPrefixLen};
ghost use Rattle.input.specs.Reading.{Within, Room, following};

use std::io;
use std::io::Read;
use std::ops::ControlFlow;

// After a read that came to `got` where so many bytes were there: how many are there then, or the answer. A read of no byte is the end of the input.
#[tactic(auto, unfolding(crate::specs::Reading::following))]
fn following(done: usize, got: io::Result<usize>) -> ControlFlow<io::Result<usize>, usize>
    requires { Room done got }
    ensures { result ≡ following done got }
{
    match got {
        Ok(0) => ControlFlow::Break(Ok(done)),
        Ok(more) => ControlFlow::Continue(done + more),
        Err(why) => ControlFlow::Break(Err(why)),
    }
}

// Reads until the buffer is full, the input ends, or a read fails. Which bytes are read no contract can say.
pub fn whole<R: Read>(reader: &mut R, buf: &mut [u8]) -> io::Result<usize>
    ensures { Within result buf.new }
{
    let mut done = 0;
    while done < buf.len() {
        let got = reader.read(&mut buf[done..]);
        match following(done, got) {
            ControlFlow::Continue(there) => done = there,
            ControlFlow::Break(answer) => return answer,
        }
    }
    Ok(done)
}

// Reads standard input so; if a read fails, a line on standard error says it, with the program's name before it.
pub fn standard(rt: &(impl io::Input + Eprint), program: &str, buf: &mut [u8]) -> Option<usize>
    ensures { IfSome result (λ n. IsPrefixLen n buf.new) }
{
    whole(&mut rt.reader(), buf)
        .inspect_err(|_| {
            let _ = eprintln!(rt; "{program}: standard input could not be read");
        })
        .ok()
}
