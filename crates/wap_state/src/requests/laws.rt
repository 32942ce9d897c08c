//! What follows from the definitions that the contracts cite. The function here does nothing.
ghost use Rattle.std.specs.Prelude.{◌↔◌, IsTrue};
ghost use Rattle.wap_url.specs.declared.access.Access.{Access};
ghost use Rattle.wap_url.specs.declared.url.Url.{Url};
ghost use Rattle.wap_url.specs.Access.{IsAllowed};
ghost use Rattle.wap_world.specs.Access.{allows};

/// The test by which a deck is entered is the rule on labels and segments: the caller's host ends
/// in the labels of the domain, and its path begins with the segments of the path.
#[tactic(auto, using(crate::proofs::RequestsLemmas::Prefixes::allows_decides))]
pub fn access_is_by_labels_and_segments()
    ensures { (access : Access) (caller : Url)
        → IsTrue (allows access caller) ↔ IsAllowed access caller }
{}
