// One line of a net file: the start row, the end row, and a set's row. On each, all that is refused by 13 is tested before
// anything that is refused by 14.

ghost use Rattle.std.specs.Prelude.{◌≡◌, ◌∷◌, [], length, MatchResult};
ghost use Rattle.text.specs.Fields.{comma, split};
ghost use Rattle.netfile.specs.NetFile.{read_end, read_side, read_set_row};

use net::{Refusal, Side};
use obligations::ACTIVITIES;
use text::decimal::read_number;
use text::fields::split;
use text::members::read_members;

// A set on a side of an activity.
#[derive(Clone, Copy)]
pub struct SetRow {
    pub side: Side,
    pub activity: u32,
    pub set: u32,
}

// The activity of the start row or the end row, which begins with the word and has no members.
pub fn end_line(line: &[u8], word: &[u8]) -> Result<u32, Refusal>
    ensures { result ≡ read_end word.now line.now }
{
    let (first, number, members) = three_fields(line)?;
    if first != word || !members.is_empty() {
        return Err(Refusal::LineForm);
    }
    read_number(number, ACTIVITIES - 1).ok_or(Refusal::NumberForm)
}

// A set's row.
pub fn row_line(line: &[u8]) -> Result<SetRow, Refusal>
    ensures { result ≡ read_set_row line.now }
{
    let (word, number, list) = three_fields(line)?;
    let side = side_of(word)?;
    if list.is_empty() {
        return Err(Refusal::LineForm);
    }
    let activity = read_number(number, ACTIVITIES - 1).ok_or(Refusal::NumberForm)?;
    let set = read_members(list).ok_or(Refusal::NumberForm)?;
    Ok(SetRow {
        side,
        activity,
        set,
    })
}

// The fields of a line that has three.
fn three_fields(line: &[u8]) -> Result<(&[u8], &[u8], &[u8]), Refusal>
    ensures { MatchResult result (λ f. split comma line.now ≡ f.0.now ∷ f.1.now ∷ f.2.now ∷ []) (λ r. (r ≡ Refusal.LineForm) × (length (split comma line.now) ≡ 3 → ⊥)) }
{
    let mut fields = split(line, b',');
    match (fields.next(), fields.next(), fields.next(), fields.next()) {
        (Some(word), Some(number), Some(members), None) => Ok((word, number, members)),
        _ => Err(Refusal::LineForm),
    }
}

// The side that a word says.
#[tactic(auto, using(crate::proofs::RowLaws::side_words))]
fn side_of(word: &[u8]) -> Result<Side, Refusal>
    ensures { result ≡ read_side word.now }
{
    match word {
        b"in" => Ok(Side::Input),
        b"out" => Ok(Side::Output),
        _ => Err(Refusal::LineForm),
    }
}
