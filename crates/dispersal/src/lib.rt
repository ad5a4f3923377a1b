// What commit does to the lent tables: the states that are run or taken over, and the vote on the commands.
#![tactic(auto)]

ghost use Rattle.protocol.specs.Setup.{lent};
ghost use Rattle.dispersal.specs.Closing.{CloseAnswers};

use crate::dispersed::Dispersal;
use crate::lowest::lowest_sound;
use crate::sent::Sent;
use crate::turns::Turns;
use questions::{Parameters, Refusal, Sizes};
use values::entries::majority;
use values::{Application, Entry};

mod dispersed;
mod lowest;
mod sent;
mod states;
mod turns;

// What commit answers: the vote, the chosen sensor and the candidates of the lowest sound replica, and how many sound replicas took a dispersed state. A chosen sensor is as the table has it, `NO_SENSOR` for none.
#[derive(Clone, Copy)]
pub struct Outcome<C> {
    pub vote: Entry<C>,
    pub chosen: u8,
    pub candidates: u8,
    pub dispersed: usize,
}

// Closes a cycle: what faulty j says to i of its state stands at place j * n + i of `states`; each table is a parameter by a rule of the project, and 'x is there as a view borrows at one lifetime.
pub fn close<'x, A: Application>(
    parameters: &Parameters,
    app: &'x A,
    states: &'x [Entry<A::State>],
    commands: &'x [Entry<A::Command>],
    state: &mut [A::State],
    own: &[Entry<A::Reading>],
    agreed: &[Entry<A::Reading>],
    run: &'x [A::State],
    accept: &'x [bool],
    yes: &[u16],
    heard: &[Entry<A::Reading>],
    candidates: &[u8],
    chosen: &'x [u8],
) -> Result<Outcome<A::Command>, Refusal>
    ensures { CloseAnswers A.State.Value.means A.State.Value.alike A.Command.Value.means A.Command.Value.alike (A.Application.commanded app.now)
        parameters.now.n parameters.now.sensors parameters.now.marks
        (lent state.old own.now agreed.now run.now accept.now yes.now heard.now candidates.now chosen.now)
        states.now commands.now state.new result }
{
    let n = parameters.n;
    let sizes = Sizes::of(
        state, own, agreed, run, accept, yes, heard, candidates, chosen,
    );
    parameters.ask_stage(sizes, states.len() == n * n && commands.len() == n)?;
    let turns = Turns {
        parameters: *parameters,
        accept,
        chosen,
    };
    let dispersed = Dispersal { turns, run, states }.write(state);
    let low = lowest_sound(*parameters);
    let sent = Sent {
        turns,
        app,
        state,
        commands,
    };
    Ok(Outcome {
        vote: majority(&sent),
        chosen: chosen[low],
        candidates: candidates[low],
        dispersed,
    })
}
