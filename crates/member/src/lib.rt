// The member steps of 01, "Members", by value: a sound record and an event in, the new record and the answer out. Messages stand here without their slot,
// which is the record's own (02, ticket 6): who delivers one has tested it, and who sends one puts it in front.
#![tactic(auto)]

mod rows;

ghost use Rattle.std.specs.Prelude.{◌≡◌, true};
ghost use Rattle.message.specs.Fields.{in_range};
ghost use Rattle.member_record.specs.Record.{sound, changes_durable};
ghost use Rattle.member.specs.Table.{starts, delivers};
ghost use Rattle.member.specs.Kept.{StepOf};

use ids::Round;
use member_record::{MemberState, changes_durable};
use message::Body;
use numbers::Refusal;
use rows::{on_message, on_start_call};

// What a step answers.
#[derive(Clone, Copy)]
pub enum StepAnswer {
    Refused(Refusal),
    // What the message says that is to be sent.
    Sent(Body),
    // Accepted, with nothing to send or to name.
    Done,
    // The quorum of joins: the PROPOSE to be sent, and the proposal add(round, value, parent).
    Proposed {
        sent: Body,
        round: Round,
        value: u64,
        parent: Round,
    },
    // The quorum of votes: the decision commit(round), and the value decided.
    Decided {
        round: Round,
        value: u64,
    },
}

// What a row of the table leaves: the new record beside the answer.
#[derive(Clone, Copy)]
pub struct Move {
    pub state: MemberState,
    pub answer: StepAnswer,
}

// A step: the new record beside the answer, and whether one of J, V, W and L changed.
#[derive(Clone, Copy)]
pub struct MemberStep {
    pub state: MemberState,
    pub answer: StepAnswer,
    pub lasting: bool,
}

// The step that a move from record m is.
fn step_of(m: MemberState, moved: Move) -> MemberStep
    ensures { (result.state ≡ moved.state) × (result.answer ≡ moved.answer) × (result.lasting ≡ changes_durable m.durable result.state.durable) }
{
    MemberStep {
        state: moved.state,
        answer: moved.answer,
        lasting: changes_durable(m.durable, moved.state.durable),
    }
}

// start(r, offer) of a sound record.
pub fn start_sound(m: MemberState, r: Round, offer: u64) -> MemberStep
    requires { sound m ≡ true }
    ensures { StepOf m (starts r offer) result }
{
    step_of(m, on_start_call(m, r, offer))
}

// Delivery of a message within its ranges to a sound record.
pub fn deliver_sound(m: MemberState, g: Body) -> MemberStep
    requires { (sound m ≡ true) × (in_range g ≡ true) }
    ensures { StepOf m (delivers g) result }
{
    step_of(m, on_message(m, g))
}
