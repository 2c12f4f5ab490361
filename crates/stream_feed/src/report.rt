ghost use Rattle.std.specs.Prelude.{◌+◌, ◌≤◌, length};
ghost use Rattle.stream_text.specs.Put.{Put};
ghost use Rattle.stream_feed.specs.Apply.{setting_text, is_run, reported};

use answers::Answer;
use machine::Reply;
use stream_records::record::Record;
use stream_text::lines::{put_refused, put_run};

#[tactic(auto, unfolding(crate::specs::Apply::setting_text, answers::specs::Answer::accepts))]
fn put_setting(out: &mut [u8], at: usize, answer: Answer) -> usize
    requires { at + 54 ≤ length out.old }
    ensures { Put out.old at (setting_text answer) out.new result × (result ≤ at + 54) }
{
    if answer.accepts() {
        return at;
    }
    put_refused(out, at, answer.number())
}

// The line of a record that was applied, if it has one.
#[tactic(auto, unfolding(crate::specs::Apply::report_text))]
pub(crate) fn put_report(out: &mut [u8], at: usize, record: Record, reply: Reply) -> usize
    requires { at + 54 ≤ length out.old }
    ensures { Put out.old at (reported (is_run «record») reply) out.new result × (result ≤ at + 54) }
{
    let machine = reply.machine;
    if let Record::Run(..) = record {
        return put_run(
            out,
            at,
            reply.answer.number(),
            machine.pc,
            machine.state.source,
            machine.state.destination,
        );
    }
    put_setting(out, at, reply.answer)
}
