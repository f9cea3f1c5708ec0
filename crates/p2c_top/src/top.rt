//! The top call.

ghost use Rattle.std.specs.Prelude.{◌≡◌, ◌≢◌, ◌⊎◌, ℕ, None, Some, IfErr, Option, List, option_and_then};
ghost use Rattle.p2c_text.specs.declared.dialect.Dialect.{Dialect};
ghost use Rattle.command_words.specs.Asked.{Asked, seen};
ghost use Rattle.p2c_outside.specs.Counts.{Rose};
ghost use Rattle.p2c_top.specs.Answers.{Answer, Counts, LacksOne, Reports, RunInput, Stays};
ghost use Rattle.p2c_top.specs.Executed.{AsksForText, CutsOff, EndsWith, IsOfRun, MayExecutePart, MayPutBefore, MayTake, NotRun, OfFile, ReadFails};
ghost use Rattle.p2c_top.specs.Words.{Finds, IsRunning, Running, Translating, task_asked, task_of};
ghost use Rattle.p2c_top.specs.Translated.{AsksForAccepted, Refused, Translates, TranslatesPart};

use crate::execution::execute;
use crate::message::report;
use crate::outcome::Outcome;
use crate::translation::translate;
use crate::words::{Words, asked, name_or_nothing};
use command_words::Setting;
use p2c_outside::{Files, Sink, Source};
use std::alloc::{AllocError, Global};

/// The most files of one translation.
const MOST_FILES: usize = 64;

/// What the words after the program's name ask for, done over this outside. The answer is the
/// status with which the program ends.
pub fn p2c<F: Files, I: Source, O: Sink, E: Sink>(
    alloc: Global,
    words: &Words,
    files: &mut F,
    input: &mut I,
    out: &mut O,
    err: &mut E,
) -> u8
    // the causes of each answer
    ensures usage { result ≡ 240 → task_asked words.now ≡ None }
    ensures asked { task_asked words.now ≡ None → (result ≡ 240) ⊎ (result ≡ 245) }
    ensures missing { result ≡ 242 → Rose (F.missing files.old) (F.missing files.new) }
    ensures absent { result ≡ 242 → LacksOne (F.told files.old) (task_asked words.now) }
    ensures read_fault { result ≡ 243 → Rose (F.faults files.old) (F.faults files.new)
        ⊎ (IsRunning (task_asked words.now) × Rose (I.faults input.old) (I.faults input.new)) }
    ensures write_fault { result ≡ 244 → Rose (O.faults out.old) (O.faults out.new) }

    // a translation: which texts are accepted, and what the output took
    ensures refused { (d : Dialect) (names : List (List ℕ)) → task_asked words.now ≡ Some (Translating d names) →
        result ≡ 241 → Refused (F.told files.old) d names }
    ensures done { (d : Dialect) (names : List (List ℕ)) → task_asked words.now ≡ Some (Translating d names) →
        result ≡ 0 → Translates (F.told files.old) d names (O.written out.old) (O.written out.new) }
    ensures cut { (d : Dialect) (names : List (List ℕ)) → task_asked words.now ≡ Some (Translating d names) →
        result ≡ 244 → TranslatesPart (F.told files.old) d names (O.written out.old) (O.written out.new) }

    // where no fault rose, accepted texts are translated, or memory was wanting
    ensures complete { AsksForAccepted (F.told files.old) words.now →
        (Rose (F.faults files.old) (F.faults files.new) → ⊥) → (Rose (O.faults out.old) (O.faults out.new) → ⊥) →
        (result ≡ 0) ⊎ (result ≡ 245) }

    // a run: the status and the output are those of the file's program
    ensures ran { (steps : ℕ) (name : List ℕ) → task_asked words.now ≡ Some (Running steps name) →
        IsOfRun result → EndsWith result (F.told files.old) name steps (I.left input.old) (O.written out.old) (O.written out.new) }
    ensures not_run { (steps : ℕ) (name : List ℕ) → task_asked words.now ≡ Some (Running steps name) →
        result ≡ 241 → NotRun (F.told files.old) name }
    ensures run_cut { (steps : ℕ) (name : List ℕ) → task_asked words.now ≡ Some (Running steps name) →
        result ≡ 244 → OfFile (F.told files.old) name (λ source. CutsOff source steps (I.left input.old) (O.written out.old) (O.written out.new)) }
    ensures run_fault { (steps : ℕ) (name : List ℕ) → task_asked words.now ≡ Some (Running steps name) →
        result ≡ 243 → ReadFails (Rose (F.faults files.old) (F.faults files.new)) (Rose (I.faults input.old) (I.faults input.new))
        ((input.new ≡ input.old) × (out.new ≡ out.old))
        (F.told files.old) name steps (I.left input.old) (I.left input.new) (O.written out.old) (O.written out.new) }
    ensures run_part { (steps : ℕ) (name : List ℕ) → task_asked words.now ≡ Some (Running steps name) →
        result ≡ 245 → MayExecutePart (F.told files.old) name steps (I.left input.old) (O.written out.old) (O.written out.new) }

    ensures ahead { (steps : ℕ) (name : List ℕ) → task_asked words.now ≡ Some (Running steps name) →
        MayTake (input.new ≡ input.old) (F.told files.old) name steps (I.left input.old) (I.left input.new) result }
    ensures put_before { (steps : ℕ) (name : List ℕ) → task_asked words.now ≡ Some (Running steps name) →
        MayPutBefore (input.new ≡ input.old) (F.told files.old) name steps (I.left input.old) (I.left input.new) (O.written out.old) (O.written out.new) }

    // where no fault rose, a text is run, or memory was wanting
    ensures run_complete { AsksForText (F.told files.old) words.now →
        (Rose (F.faults files.old) (F.faults files.new) → ⊥) → (Rose (I.faults input.old) (I.faults input.new) → ⊥) →
        (Rose (O.faults out.old) (O.faults out.new) → ⊥) → IsOfRun result ⊎ (result ≡ 245) }

    // no fault is swallowed
    ensures none_missing { result ≢ 242 → result ≢ 243 → F.missing files.new ≡ F.missing files.old }
    ensures no_read_fault { result ≢ 242 → result ≢ 243 → F.faults files.new ≡ F.faults files.old }
    ensures no_input_fault { result ≢ 243 → I.faults input.new ≡ I.faults input.old }
    ensures no_write_fault { result ≢ 244 → O.faults out.new ≡ O.faults out.old }

    // what stays as it was
    ensures unread { result ≡ 240 → files.new ≡ files.old }
    ensures early { (result ≡ 240) ⊎ (result ≡ 241) ⊎ (result ≡ 242) → (input.new ≡ input.old) × (out.new ≡ out.old) }
    ensures untouched { (IsRunning (task_asked words.now) → ⊥) → result ≢ 0 → result ≢ 244 → out.new ≡ out.old }
    ensures input { (IsRunning (task_asked words.now) → ⊥) → input.new ≡ input.old }
    ensures same { F.told files.new ≡ F.told files.old }

    // the line on standard error
    ensures message { Reports result words.now (F.told files.old) (I.left input.old) (O.written out.old) (O.written out.new)
        (E.written err.old) (E.written err.new) (E.faults err.old) (E.faults err.new) }
{
    let asked = asked(alloc, words);
    let outcome = attempt(alloc, &asked, files, input, out);
    let _ = report(err, outcome, name_or_nothing(&asked, outcome.file()));
    outcome.status()
}

/// Does what was asked for, where memory sufficed to find it.
fn attempt<F: Files, I: Source, O: Sink>(
    alloc: Global,
    asked: &Result<Option<Setting<'_>>, AllocError>,
    files: &mut F,
    input: &mut I,
    out: &mut O,
) -> Outcome
    ensures answers { (what : Option Asked) → Finds asked.now what →
        Answer (F.told files.old) (option_and_then task_of what) (I.left input.old) (O.written out.old) (O.written out.new) result }
    ensures counts { (what : Option Asked) → Finds asked.now what →
        Counts (option_and_then task_of what) (F.missing files.old) (F.missing files.new) (F.faults files.old) (F.faults files.new)
        (I.faults input.old) (I.faults input.new) (O.faults out.old) (O.faults out.new) result }
    ensures stays { (what : Option Asked) → Finds asked.now what →
        Stays (option_and_then task_of what) input.old input.new out.old out.new result }
    ensures of_input { (what : Option Asked) → Finds asked.now what →
        RunInput (option_and_then task_of what) (Rose (F.faults files.old) (F.faults files.new)) (Rose (I.faults input.old) (I.faults input.new))
        ((input.new ≡ input.old) × (out.new ≡ out.old)) (input.new ≡ input.old)
        (F.told files.old) (I.left input.old) (I.left input.new) (O.written out.old) (O.written out.new) result }
    ensures wanting { IfErr asked.now (λ error. result ≡ Outcome.OutOfMemory) }
    ensures unread { result ≡ Outcome.Usage → files.new ≡ files.old }
    ensures same { F.told files.new ≡ F.told files.old }
{
    match asked {
        Ok(Some(setting)) => perform(alloc, setting, files, input, out),
        Ok(None) => Outcome::Usage,
        Err(_) => Outcome::OutOfMemory,
    }
}

fn perform<F: Files, I: Source, O: Sink>(
    alloc: Global,
    setting: &Setting<'_>,
    files: &mut F,
    input: &mut I,
    out: &mut O,
) -> Outcome
    ensures unread { result ≡ Outcome.Usage → files.new ≡ files.old }
    ensures answers { Answer (F.told files.old) (task_of (seen setting.now)) (I.left input.old) (O.written out.old) (O.written out.new) result }
    ensures counts { Counts (task_of (seen setting.now)) (F.missing files.old) (F.missing files.new) (F.faults files.old) (F.faults files.new)
        (I.faults input.old) (I.faults input.new) (O.faults out.old) (O.faults out.new) result }
    ensures stays { Stays (task_of (seen setting.now)) input.old input.new out.old out.new result }
    ensures of_input { RunInput (task_of (seen setting.now)) (Rose (F.faults files.old) (F.faults files.new)) (Rose (I.faults input.old) (I.faults input.new))
        ((input.new ≡ input.old) × (out.new ≡ out.old)) (input.new ≡ input.old)
        (F.told files.old) (I.left input.old) (I.left input.new) (O.written out.old) (O.written out.new) result }
    ensures same { F.told files.new ≡ F.told files.old }
{
    match setting {
        Setting::Translate {
            dialect,
            files: names,
        } => {
            if names.is_empty() || names.len() > MOST_FILES {
                return Outcome::Usage;
            }
            translate(alloc, files, *dialect, names.as_slice(), out)
        }
        Setting::Run { steps, file } => execute(alloc, files, file, *steps, input, out),
        Setting::Sample { .. } => Outcome::Usage,
    }
}
