ghost use Rattle.std.specs.Prelude.{◌≡◌, ◌⊎◌, ◌↔◌, length, ◌≤◌, string_bytes, ℕ, List, IfOk, IfErr, IfSome};
ghost use Rattle.std.specs.Io.KnownBytes.{Keeps, Appends};
ghost use Rattle.outside_world.specs.declared.shelf.Held.{Held};
ghost use Rattle.outside_world.specs.Causes.{Rose};
ghost use Rattle.outside_world.specs.Bytes.{AppendsPrefix, Took};
ghost use Rattle.outside_world.specs.Stored.{lookup};
ghost use Rattle.cobol_cmd.specs.declared.fault.ProgramFault.{ProgramFault};
ghost use Rattle.cobol_cmd.specs.Answers.{Says, Tells, IsRead, Refuses, IsRefused, IsReadAndRefused, IsTooLong, IsStatus, Exactly, source_limit, line_for};
ghost use Rattle.cobol_cmd.specs.Commands.{Command, command};
ghost use Rattle.cobol_cmd.specs.Lines.{words_line, refused_line, missing_line, read_fault_line, too_long_line};
ghost use Rattle.cobol_cmd.specs.Programs.{Prints};

use crate::answer::Answer;
use crate::command::{Asked, command_of_words};
use crate::fault::{
    ProgramFault, text_fault_line, text_fault_reason, word_fault_line, word_fault_reason,
};
use crate::program::output_of;
use cobol_checker::checks_are_definite;
use outside_world::{Shelf, ShelfFail, Sink, put_all};
use procedure_parser::programs_are_definite;
use std::alloc::{AllocError, Global};

/// The longest program that is read, in bytes.
const SOURCE_LIMIT: usize = 1_048_576;

/// Reads the program, and makes what is printed for it.
fn judge<H: Shelf>(alloc: Global, asked: Asked, shelf: &mut H) -> Result<Vec<u8>, Answer>
    ensures held { H.held shelf.new ≡ H.held shelf.old }
    ensures write_faults { H.write_faults shelf.new ≡ H.write_faults shelf.old }
    ensures later { H.read_faults shelf.old ≤ H.read_faults shelf.new }
    ensures output { IfOk result (λ output. (text : List ℕ) × IsRead (H.held shelf.old) (record { action = asked.entry.action; name = asked.entry.name.now }) text output.items) }
    ensures refused { IfErr result (λ answer. Refuses answer (record { action = asked.entry.action; name = asked.entry.name.now }) (H.held shelf.old) (Rose (H.read_faults shelf.old) (H.read_faults shelf.new))) }
{
    match shelf.read(alloc, asked.name, SOURCE_LIMIT) {
        Err(ShelfFail::TooLong) => Err(Answer::TooLong),
        Err(ShelfFail::Failed) => Err(Answer::ReadFault),
        Err(ShelfFail::NoMemory) => Err(Answer::NoMemory),
        Ok(None) => Err(Answer::Missing),
        Ok(Some(text)) => match output_of(alloc, asked.action, text.as_slice()) {
            Ok(output) => Ok(output),
            Err(ProgramFault::NoMemory) => Err(Answer::NoMemory),
            Err(fault) => Err(Answer::Refused(fault)),
        },
    }
}

/// The line of a program that is refused.
fn refused_line_of(alloc: Global, fault: ProgramFault, name: &str) -> Result<String, AllocError>
    ensures { IfOk result (λ line. string_bytes line ≡ refused_line name.now fault) }
{
    match fault {
        ProgramFault::Lines(fault) => {
            let line = text_fault_line(fault);
            let reason = text_fault_reason(fault);
            format!(in alloc; "refused program {name} lines {line} {reason}\n")
        }
        ProgramFault::Words(fault) => {
            let line = word_fault_line(fault);
            let reason = word_fault_reason(fault);
            format!(in alloc; "refused program {name} words {line} {reason}\n")
        }
        ProgramFault::Entries(line) => {
            let line = line.0;
            format!(in alloc; "refused program {name} entries {line}\n")
        }
        ProgramFault::Nesting(line) => {
            let line = line.0;
            format!(in alloc; "refused program {name} nesting {line}\n")
        }
        ProgramFault::Profile { line, reason } => {
            let line = line.0;
            format!(in alloc; "refused program {name} profile {line} {reason}\n")
        }
        ProgramFault::NoMemory => Ok(String::new(alloc)),
    }
}

/// The line that is put for an answer about a name.
fn line_of(alloc: Global, answer: Answer, name: &str) -> Result<String, AllocError>
    ensures { IfOk result (λ line. string_bytes line ≡ line_for answer name.now) }
{
    match answer {
        Answer::Refused(fault) => refused_line_of(alloc, fault, name),
        Answer::Missing => format!(in alloc; "missing {name}\n"),
        Answer::ReadFault => format!(in alloc; "read fault {name}\n"),
        Answer::TooLong => format!(in alloc; "too long {name} {SOURCE_LIMIT}\n"),
        _ => Ok(String::new(alloc)),
    }
}

/// Puts a line. Should that fail, the answer stays.
fn put_line<K: Sink>(out: &mut K, line: &[u8])
    ensures took { Took (K.taken out.old) (K.taken out.new) (K.faults out.old) (K.faults out.new) line.now }
    ensures later { K.faults out.old ≤ K.faults out.new }
{
    let _ = put_all(out, line);
}

/// Puts the line of a refusal.
fn refuse<K: Sink>(alloc: Global, answer: Answer, name: &str, out: &mut K) -> Answer
    ensures { ((result ≡ answer) × Took (K.taken out.old) (K.taken out.new) (K.faults out.old) (K.faults out.new) (line_for answer name.now))
        ⊎ ((result ≡ Answer.NoMemory) × Keeps (K.taken out.old) (K.taken out.new)) }
{
    match line_of(alloc, answer, name) {
        Ok(line) => {
            put_line(out, line.as_bytes());
            answer
        }
        Err(_) => Answer::NoMemory,
    }
}

/// Does a command.
fn run_command<H: Shelf, K: Sink>(alloc: Global, asked: Asked, shelf: &mut H, out: &mut K) -> Answer
    ensures held { H.held shelf.new ≡ H.held shelf.old }
    ensures write_faults { H.write_faults shelf.new ≡ H.write_faults shelf.old }
    ensures says { Says result (record { action = asked.entry.action; name = asked.entry.name.now }) (record {
      held = H.held shelf.old;
      reads = H.read_faults shelf.old;
      reads_now = H.read_faults shelf.new;
      puts = K.faults out.old;
      puts_now = K.faults out.new;
      taken = K.taken out.old;
      taken_now = K.taken out.new;
    }) }
{
    match judge(alloc, asked, shelf) {
        Ok(output) => match put_all(out, output.as_slice()) {
            Ok(()) => Answer::Done,
            Err(_) => Answer::WriteFault,
        },
        Err(Answer::NoMemory) => Answer::NoMemory,
        Err(answer) => refuse(alloc, answer, asked.name, out),
    }
}

/// Puts the line for words of another shape. It takes no memory.
fn refuse_words<K: Sink>(out: &mut K) -> Answer
    ensures answer { result ≡ Answer.BadWords }
    ensures took { Took (K.taken out.old) (K.taken out.new) (K.faults out.old) (K.faults out.new) words_line }
{
    put_line(out, b"refused words\n");
    Answer::BadWords
}

/// Does what the words ask for.
fn answer<H: Shelf, K: Sink>(alloc: Global, words: &[String], shelf: &mut H, out: &mut K) -> Answer
    ensures held { H.held shelf.new ≡ H.held shelf.old }
    ensures write_faults { H.write_faults shelf.new ≡ H.write_faults shelf.old }
    ensures tells { Tells result (command words.now) (record {
      held = H.held shelf.old;
      reads = H.read_faults shelf.old;
      reads_now = H.read_faults shelf.new;
      puts = K.faults out.old;
      puts_now = K.faults out.new;
      taken = K.taken out.old;
      taken_now = K.taken out.new;
    }) }
{
    match command_of_words(words) {
        None => refuse_words(out),
        Some(asked) => run_command(alloc, asked, shelf, out),
    }
}

/// Does what the words of the command line ask for, over a shelf of texts and a sink for what is printed, and answers the
/// status that the program ends with:
///
/// | Status | Comes |
/// |---|---|
/// | 0 | all was done |
/// | 2 | exactly where the words have no shape of a command |
/// | 3 | exactly where the program is refused |
/// | 5 | exactly where the shelf holds no text of the name |
/// | 6 | only where the shelf's count of read faults rose in this call |
/// | 7 | only where the sink's count of faults rose in this call |
/// | 8 | exactly where the program is longer than 1,048,576 bytes |
/// | 9 | want of memory |
///
/// The answers 3, 5 and 8 are exact over a shelf that tells what it holds, and yield to 6 and 9. With 2, 3, 5, 6 and 8 one
/// line is put; should that fail, the status stays. At 0 the sink took the whole output, at 7 a prefix of it, at 9 nothing. The
/// shelf never changes. The call waits for nobody and always returns.
pub fn cobol_plain<H: Shelf, K: Sink>(
    alloc: Global,
    words: &[String],
    shelf: &mut H,
    out: &mut K,
) -> u8
    // The shelf is unchanged.
    ensures held { H.held shelf.new ≡ H.held shelf.old }
    ensures write_faults { H.write_faults shelf.new ≡ H.write_faults shelf.old }
    ensures status { IsStatus result }

    // When each status comes.
    ensures bad_words { (result ≡ 2) ↔ (command words.now ≡ None) }
    ensures refused { (asked : Command) (files : List Held) → command words.now ≡ Some asked → H.held shelf.old ≡ Some files
        → Exactly result 3 ((fault : ProgramFault) × IsRefused asked.action fault (lookup asked.name files)) }
    ensures missing { (asked : Command) (files : List Held) → command words.now ≡ Some asked → H.held shelf.old ≡ Some files
        → Exactly result 5 (lookup asked.name files ≡ None) }
    ensures too_long { (asked : Command) (files : List Held) → command words.now ≡ Some asked → H.held shelf.old ≡ Some files
        → Exactly result 8 (IsTooLong (lookup asked.name files)) }
    ensures read_fault { result ≡ 6 → Rose (H.read_faults shelf.old) (H.read_faults shelf.new) }
    ensures write_fault { result ≡ 7 → Rose (K.faults out.old) (K.faults out.new) }

    // What the sink took.
    ensures done { result ≡ 0 → (asked : Command) × (text output : List ℕ) × (command words.now ≡ Some asked) × IsRead (H.held shelf.old) asked text output
        × Appends (K.taken out.old) (K.taken out.new) output }
    ensures cut_short { result ≡ 7 → (asked : Command) × (text output : List ℕ) × (command words.now ≡ Some asked) × IsRead (H.held shelf.old) asked text output
        × AppendsPrefix (K.taken out.old) (K.taken out.new) output }
    ensures words_line { result ≡ 2 → Took (K.taken out.old) (K.taken out.new) (K.faults out.old) (K.faults out.new) words_line }
    ensures refused_line { (asked : Command) → command words.now ≡ Some asked → result ≡ 3
        → (fault : ProgramFault) × IsReadAndRefused (H.held shelf.old) asked fault
        × Took (K.taken out.old) (K.taken out.new) (K.faults out.old) (K.faults out.new) (refused_line asked.name fault) }
    ensures missing_line { (asked : Command) → command words.now ≡ Some asked → result ≡ 5
        → Took (K.taken out.old) (K.taken out.new) (K.faults out.old) (K.faults out.new) (missing_line asked.name) }
    ensures read_fault_line { (asked : Command) → command words.now ≡ Some asked → result ≡ 6
        → Took (K.taken out.old) (K.taken out.new) (K.faults out.old) (K.faults out.new) (read_fault_line asked.name) }
    ensures too_long_line { (asked : Command) → command words.now ≡ Some asked → result ≡ 8
        → Took (K.taken out.old) (K.taken out.new) (K.faults out.old) (K.faults out.new) (too_long_line asked.name source_limit) }
    ensures no_memory { result ≡ 9 → Keeps (K.taken out.old) (K.taken out.new) }

    // Where all is in order, it is done.
    ensures complete { (asked : Command) (text output : List ℕ) (files : List Held) → command words.now ≡ Some asked → H.held shelf.old ≡ Some files
        → lookup asked.name files ≡ Some text → length text ≤ source_limit → Prints asked.action text output
        → ¬ Rose (H.read_faults shelf.old) (H.read_faults shelf.new) → ¬ Rose (K.faults out.old) (K.faults out.new)
        → (result ≡ 0) ⊎ (result ≡ 9) }
{
    // Entries read as one program at most, or as none, and a program that keeps the rules is not refused: without these nothing says that
    // a text for which something is printed is refused nowhere.
    programs_are_definite();
    checks_are_definite();
    answer(alloc, words, shelf, out).status()
}
