//! Fields: the numbers that a card shows are those by which keys name them.
ghost use Rattle.std.specs.Prelude.{◌≡◌, ◌+◌, true, ◌++◌, ◌∷◌, List, Some};
ghost use Rattle.std.specs.List.{fold};
ghost use Rattle.wap_url.specs.Segments.{IsPrefix};
ghost use Rattle.wap_tokens.specs.declared.markup.deck.Node.{Node};
ghost use Rattle.wap_vars.specs.Variables.{Variables};
ghost use Rattle.wap_cardrules.specs.Content.{Mark, begins, content_of};
ghost use Rattle.wap_cardrules.specs.Fields.{is_field, fields_of, numbered};
ghost use Rattle.wap_cardrules.specs.Flow.{shown_with, nothing_shown, field_flow, flow_of};

/// A field in the content of a card shows with a number, and is the field of that number: the
/// fields show 1, 2, 3 and so on in the order by which keys name them.
pub fn fields_show_their_numbers()
    ensures shown { (vars : Variables) (card field : Node) (before after : List Mark)
        → content_of card ≡ before ++ begins field ∷ after → is_field field.tag ≡ true
        → let so_far = fold (shown_with vars) nothing_shown before in
        IsPrefix (so_far.flow ++ field_flow vars (so_far.fields + 1) field) (flow_of vars card) }
    ensures named { (vars : Variables) (card field : Node) (before after : List Mark)
        → content_of card ≡ before ++ begins field ∷ after → is_field field.tag ≡ true
        → let so_far = fold (shown_with vars) nothing_shown before in
        numbered (fields_of card) (so_far.fields + 1) ≡ Some field }
{}
