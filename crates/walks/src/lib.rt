// The net check (paper 01, "Net check and judge"; paper 02, (iv)): whether each activity of a net is on a walk along arcs from start
// to end, and every name is answered.

#![tactic(auto)]

mod arcs;
mod reach;

ghost use Rattle.std.specs.Prelude.{◌<◌, ◌≡◌, true};
ghost use Rattle.obligations.specs.Limits.{activities};
ghost use Rattle.obligations.specs.Sets.{union};
ghost use Rattle.net.specs.Refusals.{accepted, means, refusal_number};
ghost use Rattle.net.specs.Sides.{uncounted};
ghost use Rattle.net.specs.Orderly.{orderly};
ghost use Rattle.walks.specs.Links.{union_of, filled, RowSurvey};
ghost use Rattle.walks.specs.Check.{check_means, none_in, surveyed, pass_says, check_says};

use arcs::Rows;
use net::{LISTS, Net, Refusal, Refused, is_orderly};
use obligations::sets;

// The activities of a net that are on no walk from start to end, those that name one which never names them back, and the
// number of its arcs.
#[derive(Clone, Copy)]
struct Survey {
    lost: u32,
    unanswered: u32,
    arcs: u32,
}

// The net check, which answers the number of arcs.
pub fn check(net: Net) -> Result<u32, Refused>
    ensures { check_means result ≡ check_says net }
{
    if !is_orderly(&net) {
        return Err(Refusal::Disorderly.at(0));
    }
    check_lent(&net)
}

// The check of a net that is lent, so that it isn't copied, and orderly but for its counts, which it doesn't read. Callers that have
// tested the record call this.
pub fn check_lent(net: &Net) -> Result<u32, Refused>
    requires { orderly (uncounted net.now) ≡ true }
    ensures { check_means result ≡ pass_says net.now }
{
    let inputs = arcs::named_rows(&net.inputs);
    let outputs = arcs::named_rows(&net.outputs);
    let on_inputs = on_sides(&inputs, &net.inputs.lengths);
    let on_outputs = on_sides(&outputs, &net.outputs.lengths);
    let ends = sets::with(sets::single(net.start), net.end);
    let all = sets::union(ends, sets::union(on_inputs, on_outputs));
    told(survey_rows(&inputs, &outputs, net.start, net.end, all))
}

// What the check answers of an orderly net in which this has been found.
fn told(found: Survey) -> Result<u32, Refused>
    ensures { check_means result ≡ surveyed found.lost found.unanswered (accepted found.arcs) }
{
    none_in(found.lost, Refusal::OnNoWalk)?;
    none_in(found.unanswered, Refusal::NameUnanswered)?;
    Ok(found.arcs)
}

// Refuses the lowest member of a set, if it has one.
fn none_in(set: u32, refusal: Refusal) -> Result<(), Refused>
    ensures { means (λ _. 0) result ≡ none_in set (refusal_number refusal) (accepted 0) }
{
    if set != 0 {
        return Err(refusal.at(set.trailing_zeros()));
    }
    Ok(())
}

// The activities with a set on this kind of side, and those named in one.
fn on_sides(named: &Rows, lengths: &[u32; LISTS]) -> u32
    ensures { result ≡ union (filled lengths.now) (union_of named.now) }
{
    sets::union(arcs::filled(lengths), arcs::union_of(named))
}

// What the check finds. The rows have for each activity those named on its sides of that kind, and `all` has the net's activities.
fn survey_rows(inputs: &Rows, outputs: &Rows, start: u32, end: u32, all: u32) -> Survey
    requires ends_are_activities { (start < activities) × (end < activities) }
    ensures { RowSurvey inputs.now outputs.now start end all result }
{
    let next = arcs::links(outputs, inputs);
    let back = arcs::links(inputs, outputs);
    let from = reach::reach(&next, start);
    let to = reach::reach(&back, end);
    Survey {
        lost: sets::union(sets::minus(all, from), sets::minus(all, to)),
        unanswered: sets::union(
            arcs::unlinked(inputs, &back),
            arcs::unlinked(outputs, &next),
        ),
        arcs: arcs::sizes(&next),
    }
}
