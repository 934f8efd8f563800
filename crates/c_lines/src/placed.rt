// Where the numbers of a leaf lie.
ghost use Rattle.c_lines.specs.Placed.{TellsPlaces};

use crate::refusal::Refusal;
use leaf_places::{Places, places_of};
use views::View;

/// Where the numbers of a leaf lie, or `Irregular` where no places say it.
pub fn place(view: &View, leaf: usize) -> Result<Places, Refusal>
    ensures { TellsPlaces leaf view.now result }
{
    if leaf >= view.schema().leaf_count() {
        return Err(Refusal::NoPlace);
    }
    match places_of(view, leaf) {
        Some(places) => Ok(places),
        None => Err(Refusal::Irregular { leaf }),
    }
}
