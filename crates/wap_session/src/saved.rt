//! Sessions whose context is saved, and sessions that go on with one.
ghost use Rattle.std.specs.Prelude.{◌≡◌, ◌<◌, None, Some};
ghost use Rattle.std.specs.Option.{option_copied};
ghost use Rattle.wap_session.specs.Feeding.{going_on, context_at_rest};

use crate::session::Session;
use crate::standing::Standing;
use std::alloc::Global;
use wap_context::Context;
use wap_push::Inbox;

impl Session {
    /// The context, unless a script waits for its user or a key failed.
    pub fn context(&self) -> Option<&Context>
        ensures { option_copied result ≡ context_at_rest self.now }
    {
        match &self.standing {
            Standing::Rest => Some(&self.context),
            Standing::Waits(_) | Standing::Over => None,
        }
    }

    /// A session that goes on with a context, with nothing in its inbox. Each key has so many turns,
    /// one at least.
    pub fn of(alloc: Global, context: Context, budget: u32) -> Session
        requires { 0 < budget }
        ensures { result ≡ going_on context budget }
    {
        let mut context = context;
        context.begin_key(budget);
        Session {
            context,
            standing: Standing::Rest,
            inbox: Inbox::new(alloc),
        }
    }
}
