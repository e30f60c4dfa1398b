// What a call answers over bytes, and the state that it leaves.
ghost use Rattle.std.specs.Prelude.{◌≡◌, true, ◌≤◌, length};
ghost use Rattle.clock.specs.Answers.{answer_in, len_in};
ghost use Rattle.clock.specs.declared.state.Clock.{Clock};
ghost use Rattle.rows.specs.Reply.{done_b, reply_by};
ghost use Rattle.racp_notify.specs.Notify.{said_len, notified_by};
ghost use Rattle.state_bytes.specs.State.{state_bytes};
ghost use Rattle.server_bytes.specs.Results.{result_of, reply_of, ran, settled_of};

use clock::answers::{Refusal, number_of};
use clock::state::Clock;
use octets::parts::copy;
use racp_notify::notify::Notification;
use state_bytes::state::image_of;

// The number of bytes written, or below 0 minus the paper's number.
pub(crate) fn result_of(answer: Result<usize, Refusal>) -> i32
    requires { len_in answer ≤ 511 }
    ensures { result ≡ result_of (answer_in answer) (len_in answer) }
{
    match answer {
        Ok(len) => len as i32,
        Err(why) => 0 - number_of(Err(why)) as i32,
    }
}

// How many bytes were said: 256 more where they close the report.
#[tactic(auto, unfolding(crate::specs::Results::reply_of))]
pub(crate) fn length_of(said: Result<Notification, Refusal>) -> Result<usize, Refusal>
    requires { said_len said ≤ 255 }
    ensures { (c : Clock) → reply_by result c ≡ reply_of (notified_by said c) }
{
    match said {
        Ok(Notification::Segment(len)) => Ok(len),
        Ok(Notification::Closing(len)) => Ok(256 + len),
        Err(why) => Err(why),
    }
}

// A refusal leaves the state as it was; else it becomes the image of the clock after, and the answer is the
// number of bytes written.
pub(crate) fn settle(state: &mut [u8], clock: Clock, answer: Result<usize, Refusal>) -> i32
    requires { (len_in answer ≤ 511) × (done_b (answer_in answer) ≡ true → length state.old ≡ state_bytes) }
    ensures { ran result state.new ≡ settled_of state.old (answer_in answer) clock (len_in answer) }
{
    if answer.is_err() {
        return result_of(answer);
    }
    let image = image_of(clock);
    copy(state, &image);
    result_of(answer)
}

// The same of an event, which writes no bytes besides. Its clock is lent, and taken over only once it is known that there is no
// refusal: handed over before, as a call's is, it made disconnect take a fifth longer.
pub(crate) fn settle_event(state: &mut [u8], clock: &Clock, answer: Result<(), Refusal>) -> i32
    requires { done_b answer ≡ true → length state.old ≡ state_bytes }
    ensures { ran result state.new ≡ settled_of state.old answer clock.now 0 }
{
    match answer {
        Ok(()) => settle(state, *clock, Ok(0)),
        Err(why) => result_of(Err(why)),
    }
}
