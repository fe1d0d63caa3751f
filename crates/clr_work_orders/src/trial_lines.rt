//! The lines of trials.

ghost use Rattle.std.specs.Prelude.{◌≡◌, ◌++◌, OnOk};
ghost use Rattle.std.specs.List.{flat_map};
ghost use Rattle.clr_work_orders.specs.WorkOrders.{answer_text, trial_line, trial_text, trials_text};

use crate::answers::Answer;
use crate::trials::Trial;
use std::alloc::AllocError;

/// Adds what the planner says of a trial, as a line ends with it.
fn add_answer(text: &mut Vec<u8>, answer: &Answer) -> Result<(), AllocError>
    ensures { OnOk result (text.new.items ≡ text.old.items ++ answer_text answer.now) }
{
    if answer.is_cleared {
        return text.extend_from_slice(b": cleared\n");
    }
    text.extend_from_slice(b": not cleared: ")?;
    text.extend_from_slice(answer.why.as_str().as_bytes())
}

/// Adds the line of a trial.
fn add_line(text: &mut Vec<u8>, trial: &Trial) -> Result<(), AllocError>
    ensures { OnOk result (text.new.items ≡ text.old.items ++ trial_line trial.now) }
{
    text.extend_from_slice(b"  - ")?;
    text.extend_from_slice(trial.words.as_str().as_bytes())?;
    add_answer(text, &trial.answer)
}

/// Adds the line of a trial, where it has this answer.
fn add_line_of(text: &mut Vec<u8>, trial: &Trial, is_cleared: bool) -> Result<(), AllocError>
    ensures { OnOk result (text.new.items ≡ text.old.items ++ trial_text is_cleared trial.now) }
{
    if trial.answer.is_cleared == is_cleared {
        add_line(text, trial)
    } else {
        Ok(())
    }
}

/// Adds the lines of the trials that have this answer.
fn add_lines(text: &mut Vec<u8>, trials: &[Trial], is_cleared: bool) -> Result<(), AllocError>
    ensures { OnOk result (text.new.items ≡ text.old.items ++ flat_map (trial_text is_cleared) trials.now) }
{
    for trial in trials {
        add_line_of(text, trial, is_cleared)?;
    }
    Ok(())
}

/// Adds behind an empty line among whom trials were made, and then their lines, those first that are cleared; nothing where nothing was tried.
pub(crate) fn add_trials(
    text: &mut Vec<u8>,
    among: &str,
    trials: &[Trial],
) -> Result<(), AllocError>
    ensures { OnOk result (text.new.items ≡ text.old.items ++ trials_text among.now trials.now) }
{
    if trials.is_empty() {
        return Ok(());
    }
    text.extend_from_slice(b"\n")?;
    text.extend_from_slice(among.as_bytes())?;
    add_lines(text, trials, true)?;
    add_lines(text, trials, false)?;
    Ok(())
}
