//! Calls with their buffers, made one after the other.
ghost use Rattle.std.specs.Prelude.{◌≡◌, map};
ghost use Rattle.process.specs.Outcomes.{told};
ghost use Rattle.run.specs.Standing.{opened};
ghost use Rattle.run.specs.Runs.{means, stands, closed_stands};
ghost use Rattle.run.specs.Exchanges.{entry_of, answer_to, left_after, stand_after, made, stand_made, all_made, stand_all_made};

use crate::closed::ClosedRun;
use crate::exchange::{Call, Exchange, Reply};
use crate::run::Run;
use process::{Process, Refusal};

// Makes the call with this buffer.
// That a call keeps the process is said of each: it is a fact of two states of a run, which no type can hold.
fn answer<P: Process>(run: &mut Run<P>, call: Call, out: &mut [u16]) -> Result<Reply, Refusal>
    ensures same { run.new.process ≡ run.old.process }
    ensures answer { told result ≡ answer_to (means run.old) (stands run.old) out.old call }
    ensures left { out.new ≡ left_after (means run.old) (stands run.old) out.old call }
    ensures stand { stands run.new ≡ stand_after (means run.old) (stands run.old) out.old call }
{
    Ok(match call {
        Call::Press { choice } => {
            run.press(choice, out)?;
            Reply::Moved
        }
        Call::Look => {
            run.look(out)?;
            Reply::Shown
        }
        Call::Openings => Reply::Counted {
            count: run.openings(out)?,
        },
    })
}

/// Makes the call with its own buffer, and notes the reply.
pub fn make<P: Process>(run: &mut Run<P>, exchange: &mut Exchange)
    ensures same { run.new.process ≡ run.old.process }
    ensures entry { entry_of exchange.new ≡ made (means run.old) (stands run.old) (entry_of exchange.old) }
    ensures stand { stands run.new ≡ stand_made (means run.old) (stands run.old) (entry_of exchange.old) }
{
    let reply = answer(run, exchange.call, &mut exchange.buffer);
    exchange.reply = Some(reply);
}

// Makes the calls, one after the other.
fn make_all<P: Process>(run: &mut Run<P>, exchanges: &mut [Exchange])
    ensures same { run.new.process ≡ run.old.process }
    ensures entries { map entry_of exchanges.new ≡ all_made (means run.old) (stands run.old) (map entry_of exchanges.old) }
    ensures stand { stands run.new ≡ stand_all_made (means run.old) (stands run.old) (map entry_of exchanges.old) }
{
    for exchange in exchanges.iter_mut() {
        make(run, exchange);
    }
}

/// A whole run of the process: opens it, makes the calls one after the other, each with its own buffer, and closes it.
pub fn play<P: Process>(process: P, exchanges: &mut [Exchange]) -> ClosedRun<P>
    ensures same { result.ended.process ≡ process }
    ensures entries { map entry_of exchanges.new ≡ all_made (P.meaning process) (opened (P.meaning process)) (map entry_of exchanges.old) }
    ensures stand { closed_stands result ≡ stand_all_made (P.meaning process) (opened (P.meaning process)) (map entry_of exchanges.old) }
{
    let mut run = Run::open(process);
    make_all(&mut run, exchanges);
    run.close()
}
