//! Where pages come from.
ghost use Rattle.std.specs.Prelude.{◌≡◌, ◌∷◌, [], IfOk, OnOk, IsErrOf};
ghost use Rattle.wap_world.specs.site.Pages.{Pages as JudgedPages, page_of, AreSitePages};
ghost use Rattle.wap_world.specs.site.Asking.{Seen, MayBe, Stays, Asks, Fails};

use crate::site::Page;
use std::alloc::Global;
use wap_base::{RunErr, Text};

/// Pages by their names, which are asked for one by one: each answer is that of any pages that these
/// may be then.
pub trait Pages {
    /// What a contract sees of them.
    ghost seen: { Self → Seen };

    /// The page of a name: `laws` say where it is `Missing`. One that has to be `fresh` is fetched
    /// anew.
    ///
    /// # Errors
    /// `Store` where a page couldn't be fetched, and `NoMemory`.
    fn page(&mut self, alloc: Global, name: &Text, fresh: bool) -> Result<Page, RunErr>
        ensures found { IfOk result (λ page. (pages : JudgedPages) → MayBe (seen self.new) pages
            → page ≡ page_of name.now pages) }
        ensures site { (pages : JudgedPages) → MayBe (seen self.new) pages → AreSitePages pages }
        ensures asks { OnOk result
            (Asks ((name.now, fresh) ∷ []) (seen self.old) (seen self.new)) }
        ensures failed { IsErrOf result RunErr.Store
            → Fails ((name.now, fresh) ∷ []) (seen self.old) (seen self.new) }
        ensures stays { Stays (seen self.old) (seen self.new) };
}
