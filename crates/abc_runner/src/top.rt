ghost use Rattle.std.specs.Prelude.{◌≡◌, ◌<◌, ◌≤◌, ◌↔◌, ◌⊎◌, ℕ, length, Some, None, IfSome, take};
ghost use Rattle.std.specs.Io.KnownBytes.{Appends, IsAtEnd};
ghost use Rattle.abc_io.specs.Devices.{Rose};
ghost use Rattle.abc_io.specs.Whole.{HasRead};
ghost use Rattle.abc_runner.specs.Commands.{command_in, IsWithin};
ghost use Rattle.abc_runner.specs.Statuses.{line_of};
ghost use Rattle.abc_runner.specs.declared.answer.Answer.{Answer};
ghost use Rattle.abc_runner.specs.Outcomes.{Ends, EndsAs, IfWriteFault, IsCut, IsOfWholeText, IsRefusal, IsTextStatus, ReadsText, cut_short};
ghost use Rattle.abc_runner.specs.Networks.{HandsOver, TellsNetwork};
ghost use Rattle.abc_runner.specs.Answers.{whole_of, due_of, ran_of, IsAnswer, IsReadAnswer};

use crate::answer::Answer;
use crate::command::Command;
use crate::limits::MOST_SOURCE;
use crate::status::Status;
use crate::text::text_answer;
use abc_io::{ReadRefusal, Sink, Source, read_all, write_whole};
use abc_moves::Label;
use abc_record_text::Record;
use std::alloc::Global;

/// How a call of `run` ended, and the record of the network that ran, if one did.
#[derive(Drop)]
pub struct Outcome {
    pub status: Status,
    pub ran: Option<Record<Label>>,
}

/// Runs the command of the words: it reads the source, and writes what the command prints or the
/// line of its refusal. The whole text is made before its first byte is written. Want of memory is
/// the one free answer.
pub fn run<S: Source, K: Sink>(
    alloc: Global,
    words: &[String],
    source: &mut S,
    sink: &mut K,
) -> Outcome
    // What the words and the source give, table by table, what ran, and how the writing ends.
    ensures answers { (answer : Answer)
        × IsAnswer (command_in words.now) answer
        (S.fault_count source.old) (S.fault_count source.new) (S.left source.old) (S.left source.new)
        × (result.ran ≡ ran_of answer)
        × Ends (whole_of answer) (due_of answer) result.status
        (K.fault_count sink.old) (K.fault_count sink.new) (K.told sink.old) (K.told sink.new) }

    // The words. Of words that are no command, or a command that is not built, nothing is read.
    ensures bad_words { command_in words.now ≡ None
        → EndsAs Status.BadWords result.status
        (K.fault_count sink.old) (K.fault_count sink.new) (K.told sink.old) (K.told sink.new) }
    ensures bad_words_only { result.status ≡ Status.BadWords → command_in words.now ≡ None }
    ensures other { command_in words.now ≡ Some Command.Other
        → EndsAs Status.Unbuilt result.status
        (K.fault_count sink.old) (K.fault_count sink.new) (K.told sink.old) (K.told sink.new) }
    ensures other_only { result.status ≡ Status.Unbuilt → command_in words.now ≡ Some Command.Other }
    ensures unread { ReadsText (command_in words.now) ⊎ (source.new ≡ source.old) }

    // The source.
    ensures read_fault { result.status ≡ Status.ReadFault
        → ReadsText (command_in words.now) × Rose (S.fault_count source.old) (S.fault_count source.new) }
    ensures too_long_only { result.status ≡ Status.TooLong → ReadsText (command_in words.now) }
    ensures too_long { ReadsText (command_in words.now)
        → HasRead (S.left source.old) (S.left source.new) (λ read.
        (result.status ≡ Status.TooLong → MOST_SOURCE < length read)
        × (MOST_SOURCE < length read → EndsAs Status.TooLong result.status
        (K.fault_count sink.old) (K.fault_count sink.new) (K.told sink.old) (K.told sink.new))) }
    ensures whole_text { IsOfWholeText result.status
        → ReadsText (command_in words.now) × IsAtEnd (S.left source.new) }
    ensures source_sound { (S.fault_count source.new ≡ S.fault_count source.old)
        ⊎ (ReadsText (command_in words.now) × EndsAs Status.ReadFault result.status
        (K.fault_count sink.old) (K.fault_count sink.new) (K.told sink.old) (K.told sink.new)) }

    // The sink. What was due is that of an answer that the words and the source give: the line of
    // a refusal, or a text.
    ensures line { IsRefusal result.status
        → Appends (K.told sink.old) (K.told sink.new) (line_of result.status) }
    ensures sink_sound { IsCut result.status
        ⊎ (K.fault_count sink.new ≡ K.fault_count sink.old) }
    ensures write_fault { IfWriteFault result.status (λ written.
        Rose (K.fault_count sink.old) (K.fault_count sink.new)
        × (answer : Answer)
        × IsAnswer (command_in words.now) answer
        (S.fault_count source.old) (S.fault_count source.new) (S.left source.old) (S.left source.new)
        × (result.ran ≡ ran_of answer) × (written < length (due_of answer))
        × Appends (K.told sink.old) (K.told sink.new) (take written (due_of answer))) }
    ensures no_memory { result.status ≡ Status.NoMemory
        → ReadsText (command_in words.now) × EndsAs Status.NoMemory result.status
        (K.fault_count sink.old) (K.fault_count sink.new) (K.told sink.old) (K.told sink.new) }

    // A network. A record that is handed over is a legal one of the program and the network, and
    // where all is done there is one, and what was written is the trace of a run of the calculus.
    ensures ran { IfSome result.ran (λ ran. HandsOver (command_in words.now) result.status
        (S.left source.old) (S.left source.new) ran) }
    ensures network { result.status ≡ Status.Done
        → TellsNetwork (command_in words.now) result.ran
        (S.left source.old) (S.left source.new) (K.told sink.old) (K.told sink.new) }

    // With no fault, a source of at most the allowed bytes gives a text or the line of its refusal.
    ensures complete { ReadsText (command_in words.now)
        → ¬ (Rose (S.fault_count source.old) (S.fault_count source.new))
        → ¬ (Rose (K.fault_count sink.old) (K.fault_count sink.new))
        → HasRead (S.left source.old) (S.left source.new) (λ read.
        length read ≤ MOST_SOURCE → IsTextStatus result.status) }
{
    let answer = answer(alloc, words, source);
    let status = write_answer(sink, &answer);
    Outcome {
        status,
        ran: ran(answer),
    }
}

fn write_answer<K: Sink>(sink: &mut K, answer: &Answer) -> Status
    ensures { Ends (whole_of answer.now) (due_of answer.now) result
        (K.fault_count sink.old) (K.fault_count sink.new) (K.told sink.old) (K.told sink.new) }
{
    match write_whole(sink, due(answer)) {
        Ok(()) => whole(answer),
        Err(fault) => cut_short(whole(answer), fault.written),
    }
}

fn due(answer: &Answer) -> &[u8]
    ensures { result.now ≡ due_of answer.now }
{
    match answer {
        Answer::Text(text) | Answer::Trace(text, _) => text.as_slice(),
        Answer::Refusal(status) => status.fixed_line(),
        Answer::Line(_, line) => line.as_slice(),
    }
}

fn whole(answer: &Answer) -> Status
    ensures { result ≡ whole_of answer.now }
{
    match answer {
        Answer::Text(_) | Answer::Trace(..) => Status::Done,
        Answer::Refusal(status) => *status,
        Answer::Line(status, _) => *status,
    }
}

/// What ran, of an answer that is the trace of it.
fn ran(answer: Answer) -> Option<Record<Label>>
    ensures { result ≡ ran_of answer }
{
    match answer {
        Answer::Trace(_, ran) => Some(ran),
        Answer::Text(_) | Answer::Refusal(_) | Answer::Line(..) => None,
    }
}

fn cut_short(whole: Status, written: usize) -> Status
    ensures { result ≡ cut_short whole written }
{
    match whole {
        Status::NoMemory => Status::NoMemory,
        _ => Status::WriteFault { written },
    }
}

fn answer<S: Source>(alloc: Global, words: &[String], source: &mut S) -> Answer
    ensures answers { IsAnswer (command_in words.now) result
        (S.fault_count source.old) (S.fault_count source.new) (S.left source.old) (S.left source.new) }
    ensures unread { ReadsText (command_in words.now) ⊎ (source.new ≡ source.old) }
{
    match Command::read(words) {
        None => Answer::Refusal(Status::BadWords),
        Some(Command::Other) => Answer::Refusal(Status::Unbuilt),
        Some(command) => read_answer(alloc, source, command),
    }
}

/// The answer to a command that reads the source.
fn read_answer<S: Source>(alloc: Global, source: &mut S, command: Command) -> Answer
    requires built { ReadsText (Some command) }
    requires within { IsWithin command }
    ensures { IsReadAnswer command result
        (S.fault_count source.old) (S.fault_count source.new) (S.left source.old) (S.left source.new) }
{
    match read_all(alloc, source, MOST_SOURCE) {
        Ok(bytes) => text_answer(alloc, command, bytes.as_slice()),
        Err(ReadRefusal::Fault) => Answer::Refusal(Status::ReadFault),
        Err(ReadRefusal::TooLong) => Answer::Refusal(Status::TooLong),
        Err(ReadRefusal::NoMemory) => Answer::Refusal(Status::NoMemory),
    }
}
