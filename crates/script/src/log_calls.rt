// Commands that are given a net and a whole log.

use crate::state::Text;
use machine::answer::Answer;
use machine::registers::{Register, Registers};
use wholelog::Figures;

// share R BUDGET: the share of fitting sessions of the text as a log.
pub fn share(registers: &Registers, numbers: &[u64], text: &Text) -> Option<Answer<'static>> {
    let [r, budget] = *numbers else {
        return None;
    };
    let r = Register::try_from(r).ok()?;
    let shared = wholelog::share(*registers.get(r), text.as_slice(), budget);
    Some(match shared {
        Ok(figures) => share_answer(figures),
        // An answer doesn't say which of the two is refused.
        Err(of) => Answer::Refused(of.refused()),
    })
}

fn share_answer(figures: Figures) -> Answer<'static> {
    Answer::Share(figures.per_thousand, figures.remainder, figures.spent)
}
