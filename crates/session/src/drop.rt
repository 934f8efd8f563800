// `drop V`.
ghost use Rattle.session.specs.Imports.{drop_view, Gives};

use crate::session::Session;
use command_checks::{StepFault, known_view};
use record_dim::Name;

impl Session {
    ghost use Rattle.session.specs.Stands.{left_of, world_of};

    /// Lets a view go. Its name is free then.
    #[tactic(auto, unfolding(worlds::specs::Show::drop_view))]
    pub(crate) fn drop_view(mut self, name: Name) -> Result<Session, StepFault>
        ensures { Gives left_of result (drop_view (world_of self) name) }
    {
        let place = known_view(self.views.as_slice(), name)?;
        let _dropped = self.views.remove(place);
        Ok(self)
    }
}
