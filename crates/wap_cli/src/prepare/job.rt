//! A page that is to be judged.
ghost use Rattle.std.specs.Prelude.{◌≡◌};
ghost use Rattle.wap_devices.specs.Pages.{IsSmall};

use std::marker::Model;
use wap_base::Text;
use wap_devices::Fetched;

/// A name, and what the store answered for it. A contract sees a pair of them.
#[derive(Drop)]
pub struct Job {
    name: Text,
    page: Fetched,
}

impl Model for Job {
    ghost use Rattle.std.specs.Prelude.{List, ℕ};
    ghost use Rattle.wap_devices.specs.declared.store.Fetched.{Fetched};
    ghost use Rattle.wap_devices.specs.Pages.{IsSmall};

    ghost Value = { List ℕ × Fetched };

    ghost view = { λ job. (job.name, job.page) };

    ghost invariant = { λ job. IsSmall job.page };
}

impl Job {
    /// A page that is found is one of a store, and so it is small.
    pub(crate) fn new(name: Text, page: Fetched) -> Job
        requires { IsSmall page }
        ensures { result ≡ (name, page) }
    {
        Job { name, page }
    }

    /// The name of the page.
    pub fn name(&self) -> &Text
        ensures { result.now ≡ self.now.0 }
    {
        &self.name
    }

    /// What the store answered.
    pub fn page(&self) -> &Fetched
        ensures page { result.now ≡ self.now.1 }
        ensures small { IsSmall self.now.1 }
    {
        &self.page
    }
}
