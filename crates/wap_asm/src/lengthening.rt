//! Lengthening forms that are too short for their distances.
ghost use Rattle.std.specs.Prelude.{◌≡◌, ℕ, ◌+◌, ◌<◌, ◌≤◌, length, sum, slice_get, map, true};
ghost use Rattle.std.specs.Prelude.{false, None, Some, IfSome};
ghost use Rattle.wap_asm.specs.Placing.{sizes_after, settled, wide};
ghost use Rattle.wap_asm.specs.Placed.{ArePlaceable};
ghost use Rattle.wap_asm.specs.declared.site.Site.{Site};
ghost use Rattle.wap_asm.specs.inside.Passes.{site_of, AreStarts, AreSoFar, AreKnown, IsLonger};
ghost use Rattle.wap_asm.specs.inside.Passes.{IsLongerBefore, IsEnough};

use crate::Form;
use crate::pass::{apart, fill_starts, leap_size};
use crate::site::{Kind, Site};

/// Lengthens a form that is too short for its distance, where forms are known to begin up to its
/// label. Whether it did.
fn lengthen(
    forms: &[Form],
    sites: &[Site],
    starts: &[usize],
    sizes: &mut [usize],
    i: usize,
    known: usize,
) -> bool
    requires placeable { ArePlaceable forms.now }
    requires few { wide forms.now ≤ 65535 }
    requires sites { sites.now ≡ map (site_of forms.now) forms.now }
    requires so_far { AreSoFar forms.now sizes.old }
    requires known { AreKnown forms.now starts.now known }
    requires within { i < known }
    ensures so_far { AreSoFar forms.now sizes.new }
    ensures longer { result ≡ true → IsLonger sizes.old sizes.new i }
    ensures same { result ≡ false → sizes.new ≡ sizes.old }
    ensures enough { result ≡ false → (site : Site) → slice_get sites.now i ≡ Some site
        → site.target ≤ known → IsEnough starts.now sizes.new i site }
{
    let site = sites[i];
    if site.target > known {
        return false;
    }
    let size = leap_size(site.kind, sizes[i], apart(starts, i, site.target));
    if size <= sizes[i] {
        return false;
    }
    sizes[i] = size;
    true
}

/// One pass: lengthens each form that is too short for its distance. Whether one was.
fn grow(forms: &[Form], sites: &[Site], starts: &[usize], sizes: &mut [usize]) -> bool
    requires placeable { ArePlaceable forms.now }
    requires few { wide forms.now ≤ 65535 }
    requires sites { sites.now ≡ map (site_of forms.now) forms.now }
    requires so_far { AreSoFar forms.now sizes.old }
    requires starts { AreStarts sizes.old starts.now }
    ensures so_far { AreSoFar forms.now sizes.new }
    ensures more { result ≡ true → sum sizes.old < sum sizes.new }
    ensures settled { result ≡ false → sizes.new ≡ settled forms.now }
{
    let mut changed = false;
    for i in 0..forms.len() {
        if lengthen(forms, sites, starts, sizes, i, forms.len()) {
            changed = true;
        }
    }
    changed
}

/// Lengthens one of the jumps that lead to the form at an index from before it, where one is too
/// short, and gives its index.
fn lengthen_before(
    forms: &[Form],
    sites: &[Site],
    before: &[usize],
    starts: &[usize],
    sizes: &mut [usize],
    i: usize,
) -> Option<usize>
    requires placeable { ArePlaceable forms.now }
    requires few { wide forms.now ≤ 65535 }
    requires sites { sites.now ≡ map (site_of forms.now) forms.now }
    requires so_far { AreSoFar forms.now sizes.old }
    requires known { AreKnown forms.now starts.now (i + 1) }
    requires before { length before.now ≡ length forms.now + 1 }
    ensures so_far { AreSoFar forms.now sizes.new }
    ensures longer { IfSome result (IsLongerBefore (i + 1) sizes.old sizes.new) }
    ensures same { result ≡ None → sizes.new ≡ sizes.old }
{
    let mut above = i;
    let mut jump = before[i];
    while jump < above {
        if lengthen(forms, sites, starts, sizes, jump, i + 1) {
            return Some(jump);
        }
        above = jump;
        jump = before[jump];
    }
    None
}

/// Lengthens the form at an index, or a jump that leads to it from before it, where one is too
/// short, and gives its index.
fn lengthen_at(
    forms: &[Form],
    sites: &[Site],
    before: &[usize],
    starts: &[usize],
    sizes: &mut [usize],
    i: usize,
) -> Option<usize>
    requires placeable { ArePlaceable forms.now }
    requires few { wide forms.now ≤ 65535 }
    requires sites { sites.now ≡ map (site_of forms.now) forms.now }
    requires so_far { AreSoFar forms.now sizes.old }
    requires known { AreKnown forms.now starts.now (i + 1) }
    requires before { length before.now ≡ length forms.now + 1 }
    ensures so_far { AreSoFar forms.now sizes.new }
    ensures longer { IfSome result (IsLongerBefore (i + 1) sizes.old sizes.new) }
    ensures same { result ≡ None → sizes.new ≡ sizes.old }
{
    match sites[i].kind {
        Kind::Fixed => lengthen_before(forms, sites, before, starts, sizes, i),
        _ => {
            if lengthen(forms, sites, starts, sizes, i, i + 1) {
                Some(i)
            } else {
                None
            }
        }
    }
}

/// Lengthens forms in order, each time going on from the one that was too short: where forms begin
/// up to it stays known, so only what stands between it and its label is looked at anew.
fn lengthen_in_order(
    forms: &[Form],
    sites: &[Site],
    before: &[usize],
    starts: &mut [usize],
    sizes: &mut [usize],
)
    requires placeable { ArePlaceable forms.now }
    requires few { wide forms.now ≤ 65535 }
    requires sites { sites.now ≡ map (site_of forms.now) forms.now }
    requires so_far { AreSoFar forms.now sizes.old }
    requires before { length before.now ≡ length forms.now + 1 }
    requires starts { length starts.old ≡ length forms.now + 1 }
    ensures so_far { AreSoFar forms.now sizes.new }
    ensures more { sum sizes.old ≤ sum sizes.new }
{
    starts[0] = 0;
    let mut i = 0;
    while i < forms.len() {
        starts[i + 1] = starts[i] + sizes[i];
        i = match lengthen_at(forms, sites, before, starts, sizes, i) {
            Some(jump) => jump,
            None => i + 1,
        };
    }
}

/// Passes until none changes a size, which so many get to at most. Between two passes forms are
/// lengthened in order, after which a pass seldom finds one.
pub(crate) fn settle(
    forms: &[Form],
    sites: &[Site],
    before: &[usize],
    passes: usize,
    starts: &mut [usize],
    sizes: &mut [usize],
)
    requires placeable { ArePlaceable forms.now }
    requires passes { passes ≡ wide forms.now }
    requires few { passes ≤ 65535 }
    requires sites { sites.now ≡ map (site_of forms.now) forms.now }
    requires before { length before.now ≡ length forms.now + 1 }
    requires first { sizes.old ≡ sizes_after 1 forms.now }
    requires starts { length starts.old ≡ length forms.now + 1 }
    ensures { sizes.new ≡ settled forms.now }
{
    for pass in 0..passes {
        fill_starts(sizes, starts);
        if !grow(forms, sites, starts, sizes) {
            return;
        }
        lengthen_in_order(forms, sites, before, starts, sizes);
    }
}
