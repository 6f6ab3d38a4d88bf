// Containment of nets.

ghost use Rattle.std.specs.Prelude.{◌≡◌, true};
ghost use Rattle.net.specs.Inner.{SidesFit};
ghost use Rattle.net.specs.Orderly.{orderly};
ghost use Rattle.net.specs.Contained.{sides_within, contained, contained_means, contained_says};

use crate::orderly::is_orderly;
use crate::{Net, Refusal, Refused, Sides, lists};
use obligations::ACTIVITIES;

// Whether the net is contained in the other.
pub fn contained(net: Net, other: Net) -> Result<bool, Refused>
    ensures { contained_means result ≡ contained_says net other }
{
    if !is_orderly(&net) {
        return Err(Refusal::Disorderly.at(1));
    }
    if !is_orderly(&other) {
        return Err(Refusal::Disorderly.at(2));
    }
    Ok(is_contained(&net, &other))
}

// Whether start and end of two orderly nets agree and each side's sets are among the other's.
fn is_contained(net: &Net, other: &Net) -> bool
    requires { (orderly net.now ≡ true) × (orderly other.now ≡ true) }
    ensures { result ≡ contained net.now other.now }
{
    if net.start != other.start || net.end != other.end {
        return false;
    }
    sides_within(&net.inputs, &other.inputs) && sides_within(&net.outputs, &other.outputs)
}

// Whether each side of one kind has its sets among those of the other net's.
fn sides_within(sides: &Sides, other: &Sides) -> bool
    requires { SidesFit sides.now × SidesFit other.now }
    ensures { result ≡ sides_within sides.now other.now }
{
    (0..ACTIVITIES).all(|a| lists::all_listed(sides.sets(a), other.sets(a)))
}
